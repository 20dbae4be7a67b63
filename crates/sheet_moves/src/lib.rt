// How often the stored rules close, open, activate and set links: of a rule, of a link, of all rules. The crew sheet stands on these counts.
#![tactic(auto)]

ghost use Rattle.std.specs.Prelude.{◌≡◌, List, ◌-◌, ◌*◌, ◌≤◌, Float, length, take, drop};
ghost use Rattle.scope.specs.Records.{Network};
ghost use Rattle.scope.specs.Sections.{room_links, room_clauses};
ghost use Rattle.stored_records.specs.Back.{Stands};
ghost use Rattle.sheet_actions.specs.Steps.{Few};
ghost use Rattle.sheet_moves.specs.Moves.{Tallied, chosen, moves_of, rule_moves, link_moves, all_moves, made, made_at, made_in_all};

use sheet_actions::Moves;
use stored_counts::Stored;

// ---- a range of clauses

// The moves of the clauses from place `first` up to `end`.
fn moves_between(
    stored: Stored,
    first: usize,
    end: usize,
    which: Option<usize>,
    otherwise: bool,
) -> Moves
    requires { end ≤ room_clauses }
    ensures few { Few room_clauses result }
    ensures value { (m : Network) → Stands m stored.entry.words.now stored.entry.numbers.now → end ≤ length m.clauses
        → result ≡ moves_of (chosen which otherwise) (take (end - first) (drop first m.clauses)) }
{
    let mut n = Moves {
        closes: 0,
        opens: 0,
        activates: 0,
        sets: 0,
    };
    for k in first..end {
        let clause = stored_records::clause_at(stored, k);
        n = sheet_actions::with_clause(n, clause, which, otherwise);
    }
    n
}

// How many clauses there are.
fn clause_count(stored: Stored) -> usize
    ensures upper_bound { result ≤ room_clauses }
    ensures value { (m : Network) (f : List Float) → Tallied m stored.entry.words.now f → result ≡ length m.clauses }
{
    stored.counts().clauses.min(table_rows::CLAUSES_MOST)
}

// How many links there are.
fn link_count(stored: Stored) -> usize
    ensures upper_bound { result ≤ room_links }
    ensures value { (m : Network) (f : List Float) → Tallied m stored.entry.words.now f → result ≡ length m.links }
{
    stored.counts().links.min(table_rows::LINKS_MOST)
}

// ---- of a rule, of a link, of all rules

// The moves of rule number i, under THEN or, where `otherwise`, under ELSE.
pub fn rule_moves(stored: Stored, i: usize, otherwise: bool) -> Moves
    ensures few { Few room_clauses result }
    ensures value { (m : Network) → Tallied m stored.entry.words.now stored.entry.numbers.now → result ≡ rule_moves m i otherwise }
{
    let rule = stored_records::rule_at(stored, i);
    let end = stored_parts::end_of(rule.first, rule.count, clause_count(stored));
    moves_between(stored, rule.first, end, None, otherwise)
}

// The moves of link number i under all rules.
pub fn link_moves(stored: Stored, i: usize, otherwise: bool) -> Moves
    ensures few { Few room_clauses result }
    ensures value { (m : Network) → Tallied m stored.entry.words.now stored.entry.numbers.now → result ≡ link_moves m i otherwise }
{
    moves_between(stored, 0, clause_count(stored), Some(i), otherwise)
}

// The moves of all rules.
pub fn all_moves(stored: Stored, otherwise: bool) -> Moves
    ensures few { Few room_clauses result }
    ensures value { (m : Network) → Tallied m stored.entry.words.now stored.entry.numbers.now → result ≡ all_moves m otherwise }
{
    moves_between(stored, 0, clause_count(stored), None, otherwise)
}

// ---- what a crew does when every closure is opened again

fn made_by(then: Moves, otherwise: Moves) -> usize
    requires { Few room_clauses then × Few room_clauses otherwise }
    ensures upper_bound { result ≤ 4 * room_clauses }
    ensures value { result ≡ made then otherwise }
{
    let closings = then.closes + otherwise.closes;
    let openings = then.opens + otherwise.opens;
    closings + closings.max(openings)
}

// At link number i.
pub fn link_made(stored: Stored, i: usize) -> usize
    ensures upper_bound { result ≤ 4 * room_clauses }
    ensures value { (m : Network) → Tallied m stored.entry.words.now stored.entry.numbers.now → result ≡ made_at m i }
{
    let then = link_moves(stored, i, false);
    let otherwise = link_moves(stored, i, true);
    made_by(then, otherwise)
}

// At all links.
pub fn all_made(stored: Stored) -> usize
    ensures { (m : Network) → Tallied m stored.entry.words.now stored.entry.numbers.now → result ≡ made_in_all m }
{
    let mut n = 0;
    for i in 0..link_count(stored) {
        n += link_made(stored, i);
    }
    n
}
