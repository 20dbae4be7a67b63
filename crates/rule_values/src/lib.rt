// What the words of a rule's clauses say: a comparison, the value of a condition, and the value of an action.
#![tactic(auto)]

ghost use Rattle.std.specs.Prelude.{◌≡◌, ◌||◌, [], ℕ};
ghost use Rattle.leaf_decimals.specs.Numbers.{number_of};
ghost use Rattle.leaf_letters.specs.Words.{same};
ghost use Rattle.leaf_clock.specs.Times.{time_of};
ghost use Rattle.scope.specs.Values.{as_number, on_read, as_time};
ghost use Rattle.scope.specs.Rules.{comparison_of, seconds_value, number_value, status_value, deed_of};
ghost use Rattle.rule_values.specs.Values.{comparison_read, order_of, value_read};

use scope::{Comparison, LinkStatus, Reason, Value};

// ---- the comparison

// Whether the word is one of the two.
fn either<'a>(w: &'a [u8], a: &'a [u8], b: &'a [u8]) -> bool
    ensures { result ≡ (same w.now a.now || same w.now b.now) }
{
    leaf_letters::equal(w, a) || leaf_letters::equal(w, b)
}

// The comparisons by size.
#[tactic(auto, unfolding(crate::specs::Values::order_of))]
fn order_comparison(w: &[u8]) -> Option<Comparison>
    ensures { comparison_read result ≡ order_of w.now }
{
    if either(w, b"ABOVE", b">") {
        return Some(Comparison::Above);
    }
    if either(w, b"BELOW", b"<") {
        return Some(Comparison::Below);
    }
    if leaf_letters::equal(w, b">=") {
        return Some(Comparison::AtLeast);
    }
    if leaf_letters::equal(w, b"<=") {
        return Some(Comparison::AtMost);
    }
    None
}

#[tactic(auto, unfolding(scope::specs::Rules::comparison_of, crate::specs::Values::order_of))]
pub fn read_comparison(w: &[u8]) -> Option<Comparison>
    ensures { comparison_read result ≡ comparison_of w.now }
{
    if either(w, b"IS", b"=") {
        return Some(Comparison::Equal);
    }
    if either(w, b"NOT", b"<>") {
        return Some(Comparison::NotEqual);
    }
    order_comparison(w)
}

// ---- the value

// Up to 2^53 every whole number is a double.
fn seconds_value(n: u64) -> Result<Value, Reason>
    ensures { value_read result ≡ seconds_value n }
{
    if n <= 9007199254740992 {
        return Ok(Value::Number(n as f64));
    }
    Err(Reason::BeyondReach)
}

pub fn time_value(time: &[u8], unit: &[u8]) -> Result<Value, Reason>
    ensures { value_read result ≡ on_read (as_time (time_of time.now unit.now)) seconds_value }
{
    let n = leaf_clock::read_time(time, unit)?;
    seconds_value(n)
}

pub fn number_value(w: &[u8]) -> Result<Value, Reason>
    ensures { value_read result ≡ number_value (as_number (number_of w.now) []) }
{
    let x = leaf_decimals::read_number(w)?;
    Ok(Value::Number(x))
}

fn status_value(w: &[u8]) -> Result<Value, Reason>
    ensures { value_read result ≡ status_value w.now }
{
    if leaf_letters::equal(w, b"OPEN") {
        return Ok(Value::Status(LinkStatus::Open));
    }
    if leaf_letters::equal(w, b"CLOSED") {
        return Ok(Value::Status(LinkStatus::Closed));
    }
    Err(Reason::UnknownWord)
}

// The value of an action, by its word STATUS or SETTING.
#[tactic(auto, unfolding(scope::specs::Rules::deed_of))]
pub fn deed<'a>(what: &'a [u8], value: &'a [u8]) -> Result<Value, Reason>
    ensures { (at : ℕ) → value_read result ≡ deed_of what.now (record { at = at; letters = value.now }) }
{
    if leaf_letters::equal(what, b"STATUS") {
        return status_value(value);
    }
    if leaf_letters::equal(what, b"SETTING") {
        return number_value(value);
    }
    Err(Reason::UnknownWord)
}
