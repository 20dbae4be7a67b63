// Reads a line of EMITTERS, an id and a number, or of COORDINATES or CURVES, an id and two: the fields in order, and what they say. Nothing is looked up or stored here.
#![tactic(auto)]

ghost use Rattle.leaf_fields.specs.Fields.{fields_at};
ghost use Rattle.scope.specs.Nodes.{emitter_of};
ghost use Rattle.scope.specs.Values.{pair_of};
ghost use Rattle.parse_pairs.specs.Lines.{EmitterAs, PairAs};

use leaf_fields::Span;
use scope::Reason;

#[derive(Clone, Copy)]
pub struct EmitterLine {
    pub id: Span,
    pub coefficient: f64,
}

// An id and two numbers: what a line of CURVES or of COORDINATES says.
#[derive(Clone, Copy)]
pub struct PairLine {
    pub id: Span,
    pub x: f64,
    pub y: f64,
}

// A junction and its coefficient.
pub fn read_emitter(l: &[u8], at: usize) -> Result<EmitterLine, Reason>
    ensures { EmitterAs l.now (emitter_of (fields_at l.now at)) result }
{
    let junction = leaf_fields::next_field(l, at).ok_or(Reason::Missing)?;
    let (coefficient, _) = parse_fields::take_number(l, junction.end)?;
    Ok(EmitterLine {
        id: junction,
        coefficient,
    })
}

// Id, x, y.
pub fn read_pair(l: &[u8], at: usize) -> Result<PairLine, Reason>
    ensures { PairAs l.now (pair_of (fields_at l.now at)) result }
{
    let id = leaf_fields::next_field(l, at).ok_or(Reason::Missing)?;
    let (x, at2) = parse_fields::take_number(l, id.end)?;
    let (y, _) = parse_fields::take_number(l, at2)?;
    Ok(PairLine { id, x, y })
}
