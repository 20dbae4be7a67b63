// Reads a line of VALVES: the fields in order, and what they say. Nothing is looked up or stored here.
#![tactic(auto)]

ghost use Rattle.std.specs.Prelude.{◌≡◌};
ghost use Rattle.leaf_fields.specs.Fields.{fields_at};
ghost use Rattle.scope.specs.Links.{type_of, setting_from, valve_of};
ghost use Rattle.parse_pipes.specs.Lines.{LinkAs};
ghost use Rattle.parse_valves.specs.Lines.{TypeAs, SettingAs};

use leaf_fields::Span;
use parse_pipes::LinkLine;
use scope::{LinkKind, Reason, Valve, ValveType};

// A setting, and the curve that stands in its place.
#[derive(Clone, Copy)]
struct Setting {
    value: f64,
    curve: Option<Span>,
}

// The types by their words.
static TYPES: [([u8; 3], ValveType); 7] = [
    (*b"GPV", ValveType::Gpv),
    (*b"TCV", ValveType::Tcv),
    (*b"FCV", ValveType::Fcv),
    (*b"PRV", ValveType::Prv),
    (*b"PSV", ValveType::Psv),
    (*b"PBV", ValveType::Pbv),
    (*b"PCV", ValveType::Pcv),
];

// A valve's type, in any case.
#[tactic(auto, unfolding(scope::specs::Links::type_of))]
fn read_type(word: &[u8]) -> Option<ValveType>
    ensures { TypeAs (type_of word.now) result }
{
    for (name, kind) in &TYPES {
        if leaf_letters::spells(word, name) {
            return Some(*kind);
        }
    }
    None
}

// A number; for a GPV a curve. The fields after it are those from the place handed back on.
#[tactic(auto, unfolding(scope::specs::Links::setting_from))]
fn take_setting(l: &[u8], at: usize, kind: ValveType) -> Result<(Setting, usize), Reason>
    ensures { SettingAs l.now (setting_from kind (fields_at l.now at)) result }
{
    if let ValveType::Gpv = kind {
        let curve = leaf_fields::next_field(l, at);
        let next = leaf_fields::field_end(curve, at);
        return Ok((Setting { value: 0.0, curve }, next));
    }
    let (value, next) = parse_fields::take_swallowed(l, at, 0.0)?;
    Ok((Setting { value, curve: None }, next))
}

// Id, two nodes, diameter, type, setting, minor loss, a curve that overrides.
#[tactic(auto, unfolding(scope::specs::Links::valve_of))]
pub fn read_valve(l: &[u8], at: usize) -> Result<LinkLine, Reason>
    ensures { LinkAs l.now (valve_of (fields_at l.now at)) result }
{
    let names = parse_pipes::read_names(l, at)?;
    let (diameter, at2) = parse_fields::take_number(l, names.end.end)?;
    let word = leaf_fields::next_field(l, at2).ok_or(Reason::Missing)?;
    let kind = read_type(leaf_fields::letters_of(l, word)).ok_or(Reason::UnknownWord)?;
    let (setting, at3) = take_setting(l, word.end, kind)?;
    let (minor, at4) = parse_fields::take_swallowed(l, at3, 0.0)?;
    let curve = leaf_fields::next_field(l, at4).or(setting.curve);
    Ok(LinkLine {
        names,
        kind: LinkKind::Valve(Valve {
            valve_type: kind,
            diameter,
            setting: setting.value,
            minor,
            curve,
        }),
    })
}
