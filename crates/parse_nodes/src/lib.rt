// Reads a line of JUNCTIONS or RESERVOIRS: the fields in order, and what they say. Nothing is looked up or stored here. What a line of TANKS says, which parse_tanks reads, is a NodeLine too.
#![tactic(auto)]

ghost use Rattle.leaf_fields.specs.Fields.{fields_at};
ghost use Rattle.scope.specs.Nodes.{junction_of, reservoir_of};
ghost use Rattle.parse_nodes.specs.Lines.{JunctionAs, NodeAs};

use leaf_fields::Span;
use scope::{Reason, Tank};

// ---- what the lines say

#[derive(Clone, Copy)]
pub struct JunctionLine {
    pub id: Span,
    pub elevation: f64,
    pub demand: f64,
    pub pattern: Option<Span>,
    pub disabled: bool,
}

#[derive(Clone, Copy)]
pub struct ReservoirLine {
    pub id: Span,
    pub elevation: f64,
    pub pattern: Option<Span>,
}

#[derive(Clone, Copy)]
pub struct TankLine {
    pub id: Span,
    pub tank: Tank,
}

// What a line of RESERVOIRS or TANKS says: a line of TANKS may say a reservoir.
#[derive(Clone, Copy)]
pub enum NodeLine {
    Reservoir(ReservoirLine),
    Tank(TankLine),
}

// ---- reading them

// Id, elevation, demand, pattern, disabled. A missing elevation is read from the text 0.
pub fn read_junction(l: &[u8], at: usize) -> Result<JunctionLine, Reason>
    ensures { JunctionAs l.now (junction_of (fields_at l.now at)) result }
{
    let id = leaf_fields::next_field(l, at).ok_or(Reason::Missing)?;
    let (elevation, at2) = parse_fields::take_number_or(l, id.end, b"0")?;
    let (demand, at3) = parse_fields::take_swallowed(l, at2, 0.0)?;
    let pattern = leaf_fields::next_field(l, at3);
    let at4 = leaf_fields::field_end(pattern, at3);
    let (disabled, _) = parse_fields::take_flag(l, at4)?;
    Ok(JunctionLine {
        id,
        elevation,
        demand,
        pattern,
        disabled,
    })
}

// Id, elevation, optional pattern.
pub fn read_reservoir(l: &[u8], at: usize) -> Result<NodeLine, Reason>
    ensures { NodeAs l.now (reservoir_of (fields_at l.now at)) result }
{
    let id = leaf_fields::next_field(l, at).ok_or(Reason::Missing)?;
    let (elevation, at2) = parse_fields::take_number(l, id.end)?;
    let pattern = leaf_fields::next_field(l, at2);
    Ok(NodeLine::Reservoir(ReservoirLine {
        id,
        elevation,
        pattern,
    }))
}
