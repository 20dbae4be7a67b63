// How many of the stored records belong to another: a junction's demands, a curve's points, a pattern's multipliers, a rule's conditions and actions.
#![tactic(auto)]

ghost use Rattle.std.specs.Prelude.{◌≡◌, List, ◌++◌, ℕ, ◌-◌, ◌≤◌, length, get_or, drop};
ghost use Rattle.scope.specs.Layout.{record_words};
ghost use Rattle.scope.specs.Records.{Network, counts_of, no_clause};
ghost use Rattle.scope.specs.Rules.{is_condition, is_action};
ghost use Rattle.scope.specs.Tables.{tally_words};
ghost use Rattle.stored_records.specs.Back.{Stands};
ghost use Rattle.stored_parts.specs.Parts.{how_many, owners, is_place, between};

use stored_counts::Stored;
use stored_records::Clause;

// ---- the records that name the place of another

// A demand names its node, a point its curve, a multiplier its pattern.
#[derive(Clone, Copy)]
pub enum Part {
    Demand,
    Point,
    Multiplier,
}

// How many records of the kind there are.
fn how_many(stored: Stored, part: Part) -> usize
    ensures { (m : Network) (rest : List ℕ) → drop record_words stored.entry.words.now ≡ tally_words (counts_of m) ++ rest → result ≡ length (owners part m) }
{
    let counts = stored.counts();
    match part {
        Part::Demand => counts.demands,
        Part::Point => counts.points,
        Part::Multiplier => counts.multipliers,
    }
}

// The place that record k of the kind names; past the end, 0.
fn owner_at(stored: Stored, part: Part, k: usize) -> usize
    ensures { (m : Network) → Stands m stored.entry.words.now stored.entry.numbers.now → result ≡ get_or (owners part m) k 0 }
{
    match part {
        Part::Demand => stored_series::demand_at(stored, k).node,
        Part::Point => stored_series::point_at(stored, k).curve,
        Part::Multiplier => stored_series::multiplier_at(stored, k).pattern,
    }
}

// The records of the kind that name place `owner`: a junction's demands, a curve's points, a pattern's multipliers.
pub fn parts_of(stored: Stored, part: Part, owner: usize) -> usize
    ensures { (m : Network) (rest : List ℕ) → Stands m stored.entry.words.now stored.entry.numbers.now
        → drop record_words stored.entry.words.now ≡ tally_words (counts_of m) ++ rest → result ≡ how_many (is_place owner) (owners part m) }
{
    (0..how_many(stored, part))
        .filter(|k| owner_at(stored, part, *k) == owner)
        .count()
}

// ---- conditions and actions

fn is_condition_at(stored: Stored, k: usize) -> bool
    ensures { (m : Network) → Stands m stored.entry.words.now stored.entry.numbers.now → result ≡ is_condition (get_or m.clauses k no_clause) }
{
    matches!(stored_records::clause_at(stored, k), Clause::Condition(_))
}

// The conditions among the clauses from place `first` up to `end`.
pub fn conditions_between(stored: Stored, first: usize, end: usize) -> usize
    ensures upper_bound { result ≤ end - first }
    ensures value { (m : Network) → Stands m stored.entry.words.now stored.entry.numbers.now → end ≤ length m.clauses → result ≡ how_many is_condition (between first end m.clauses) }
{
    (first..end).filter(|k| is_condition_at(stored, *k)).count()
}

// The other clauses are actions.
pub fn actions_between(stored: Stored, first: usize, end: usize) -> usize
    ensures { (m : Network) → Stands m stored.entry.words.now stored.entry.numbers.now → end ≤ length m.clauses → result ≡ how_many is_action (between first end m.clauses) }
{
    end.saturating_sub(first) - conditions_between(stored, first, end)
}

// Where `count` clauses from `first` on end, if there are `all`.
pub fn end_of(first: usize, count: usize, all: usize) -> usize
    ensures { (result ≤ all) × (all - first ≤ count → result ≡ all) × (count ≤ all - first → result - first ≡ count) }
{
    first.saturating_add(count).min(all)
}
