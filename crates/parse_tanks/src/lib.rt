// Reads a line of TANKS: the fields in order, and what they say. Nothing is looked up or stored here.
#![tactic(auto)]

ghost use Rattle.std.specs.Prelude.{◌≡◌};
ghost use Rattle.leaf_fields.specs.Fields.{fields_at, name_in, Fits};
ghost use Rattle.scope.specs.Nodes.{tank_of, levels_of, curve_in, overflow_in};
ghost use Rattle.parse_nodes.specs.Lines.{NodeAs};
ghost use Rattle.parse_tanks.specs.Lines.{CurveAs};

use leaf_fields::Span;
use parse_nodes::{NodeLine, ReservoirLine, TankLine};
use scope::{Reason, Tank};

// A tank's curve: `*` is none.
fn take_curve(l: &[u8], at: usize) -> Option<Span>
    ensures { CurveAs l.now (curve_in (fields_at l.now at)) result }
{
    let s = leaf_fields::next_field(l, at)?;
    if leaf_letters::equal(leaf_fields::letters_of(l, s), b"*") {
        return None;
    }
    Some(s)
}

// Whether a tank may overflow: YES in any case.
fn take_overflow(l: &[u8], at: usize) -> bool
    ensures { result ≡ overflow_in (fields_at l.now at) }
{
    let Some(s) = leaf_fields::next_field(l, at) else {
        return false;
    };
    leaf_letters::spells(leaf_fields::letters_of(l, s), b"YES")
}

// A tank's fields after its elevation.
fn read_levels(l: &[u8], at: usize, id: Span, elevation: f64) -> Result<NodeLine, Reason>
    ensures { Fits l.now id → NodeAs l.now (levels_of (name_in l.now id) elevation (fields_at l.now at)) result }
{
    let (initial, at2) = parse_fields::take_number(l, at)?;
    let (minimum, at3) = parse_fields::take_number(l, at2)?;
    let (maximum, at4) = parse_fields::take_number(l, at3)?;
    let (diameter, at5) = parse_fields::take_number(l, at4)?;
    let (volume, at6) = parse_fields::take_number_or(l, at5, b"0")?;
    let curve = take_curve(l, at6);
    let at7 = leaf_fields::past_field(l, at6);
    let overflow = take_overflow(l, at7);
    let tank = Tank {
        elevation,
        initial,
        minimum,
        maximum,
        diameter,
        volume,
        curve,
        overflow,
    };
    Ok(NodeLine::Tank(TankLine { id, tank }))
}

// Id, elevation, then a tank's levels; id and elevation alone make a reservoir.
pub fn read_tank(l: &[u8], at: usize) -> Result<NodeLine, Reason>
    ensures { NodeAs l.now (tank_of (fields_at l.now at)) result }
{
    let id = leaf_fields::next_field(l, at).ok_or(Reason::Missing)?;
    let (elevation, at2) = parse_fields::take_number(l, id.end)?;
    if leaf_fields::next_field(l, at2).is_some() {
        return read_levels(l, at2, id, elevation);
    }
    Ok(NodeLine::Reservoir(ReservoirLine {
        id,
        elevation,
        pattern: None,
    }))
}
