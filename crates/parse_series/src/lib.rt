// Parses a line of PATTERNS or DEMANDS. A line of CURVES is an id and two numbers: parse_pairs::read_pair.
#![tactic(auto)]

ghost use Rattle.leaf_fields.specs.Fields.{fields_at};
ghost use Rattle.scope.specs.Series.{multipliers_of, pattern_of, demand_of};
ghost use Rattle.parse_series.specs.Lines.{CountedAs, PatternAs, DemandAs};

use leaf_fields::Span;
use scope::Reason;

// A pattern's id, how many multipliers there are, and where those start that do not stand in the caller's slice.
#[derive(Clone, Copy)]
pub struct PatternLine {
    pub id: Span,
    pub count: usize,
    pub rest: usize,
}

#[derive(Clone, Copy)]
pub struct DemandLine {
    pub id: Span,
    pub base: f64,
    pub pattern: Option<Span>,
}

// How many numbers there are from `at` on, where all fields are numbers. The first of them are put into `first`, as many as it has room for; the place is where the others start.
fn count_multipliers(l: &[u8], at: usize, first: &mut [f64]) -> Result<(usize, usize), Reason>
    ensures { CountedAs l.now first.new (multipliers_of (fields_at l.now at)) result }
{
    let mut n: usize = 0;
    let mut p = at;
    let mut rest = at;
    // No `for`: where the next number stands is known once this one is read.
    while let Some((number, next)) = parse_fields::next_number(l, p) {
        let x = number?;
        if n < first.len() {
            first[n] = x;
            rest = next;
        }
        n += 1;
        p = next;
    }
    Ok((n, rest))
}

// Id, and any count of multipliers. The first of them are put into `first`.
pub fn read_pattern(l: &[u8], at: usize, first: &mut [f64]) -> Result<PatternLine, Reason>
    ensures { PatternAs l.now first.new (pattern_of (fields_at l.now at)) result }
{
    let id = leaf_fields::next_field(l, at).ok_or(Reason::Missing)?;
    let from = id.end;
    let (count, rest) = count_multipliers(l, from, first)?;
    Ok(PatternLine { id, count, rest })
}

// A junction, its demand, optional pattern.
pub fn read_demand(l: &[u8], at: usize) -> Result<DemandLine, Reason>
    ensures { DemandAs l.now (demand_of (fields_at l.now at)) result }
{
    let id = leaf_fields::next_field(l, at).ok_or(Reason::Missing)?;
    let (base, at2) = parse_fields::take_number(l, id.end)?;
    let pattern = leaf_fields::next_field(l, at2);
    Ok(DemandLine { id, base, pattern })
}
