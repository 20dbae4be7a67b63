// Reads the pairs of a line of PUMPS, each a word and its value, after the names with which it starts. Nothing is looked up or stored here.
#![tactic(auto)]

ghost use Rattle.std.specs.Prelude.{◌≡◌, []};
ghost use Rattle.leaf_decimals.specs.Numbers.{number_of};
ghost use Rattle.leaf_fields.specs.Fields.{fields_at, name_in, Fits};
ghost use Rattle.scope.specs.Values.{as_swallowed};
ghost use Rattle.scope.specs.Links.{no_pump, with_pair, pump_from};
ghost use Rattle.parse_fields.specs.Taking.{MayFit};
ghost use Rattle.parse_pipes.specs.Lines.{pump_in};
ghost use Rattle.parse_pumps.specs.Lines.{taken, PumpAs};

use leaf_decimals::NumberError;
use leaf_fields::Span;
use scope::{Pump, Reason};

// A value's number, `other` where it is malformed. One beyond reach is refused even here.
fn read_swallowed(value: &[u8], other: f64) -> Result<f64, Reason>
    ensures { taken result ≡ as_swallowed other (number_of value.now) [] }
{
    let n = leaf_decimals::read_number(value);
    let Ok(x) = n else {
        let Err(NumberError::Malformed) = n else {
            return Err(Reason::BeyondReach);
        };
        return Ok(other);
    };
    Ok(x)
}

// What a pump's word and its value make of the pump.
#[tactic(auto, unfolding(scope::specs::Links::with_pair))]
fn with_pair(l: &[u8], p: Pump, word: Span, value: Span) -> Result<Pump, Reason>
    ensures { MayFit l.now p.head → Fits l.now value
        → PumpAs l.now (with_pair (pump_in l.now p) (name_in l.now word) (name_in l.now value)) result }
{
    let name = leaf_fields::letters_of(l, word);
    if leaf_letters::equal(name, b"SPEED") {
        let speed = read_swallowed(leaf_fields::letters_of(l, value), 1.0)?;
        return Ok(Pump { speed, ..p });
    }
    if leaf_letters::equal(name, b"HEAD") {
        return Ok(Pump {
            head: Some(value),
            ..p
        });
    }
    if leaf_letters::equal(name, b"POWER") {
        let power = read_swallowed(leaf_fields::letters_of(l, value), 0.0)?;
        return Ok(Pump { power, ..p });
    }
    Ok(p)
}

// Pairs of a word and its value, from `at` on. A lone last word is ignored.
#[tactic(auto, unfolding(scope::specs::Links::pump_from))]
pub fn read_pairs(l: &[u8], at: usize) -> Result<Pump, Reason>
    ensures { PumpAs l.now (pump_from no_pump (fields_at l.now at)) result }
{
    let mut p = Pump {
        speed: 1.0,
        head: None,
        power: 0.0,
    };
    let mut i = at;
    // No `for`: where the next pair stands is known once this one is read.
    while let Some(word) = leaf_fields::next_field(l, i) {
        let Some(value) = leaf_fields::next_field(l, word.end) else {
            return Ok(p);
        };
        p = with_pair(l, p, word, value)?;
        i = value.end;
    }
    Ok(p)
}
