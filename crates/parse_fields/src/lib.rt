// Takes the next field of a line as a number or a flag. A line is the caller's text up to the line's end, with the place where its next field
// is looked for: so every place is a place of the text. Names are taken by leaf_fields::next_field.
#![tactic(auto)]

ghost use Rattle.std.specs.Prelude.{◌≡◌};
ghost use Rattle.leaf_decimals.specs.Numbers.{number_of};
ghost use Rattle.leaf_fields.specs.Fields.{fields_at};
ghost use Rattle.scope.specs.Values.{number_from, number_or, swallowed_from, flag_from};
ghost use Rattle.parse_fields.specs.Taking.{took_in, Numbered};

use leaf_decimals::NumberError;
use scope::Reason;

// What number the next field is, and a place from which on the others stand; None where no field is left.
// It stays a call, and so does `whole_number`: the reader of any number is in both, and in the loop of a section it slows the plain ones (docs/LOOK-BACK.md, d2).
#[inline(never)]
fn read_next(l: &[u8], at: usize) -> Option<(Result<f64, NumberError>, usize)>
    ensures { Numbered l.now at result }
{
    let s = leaf_fields::next_field(l, at)?;
    let n = leaf_decimals::read_number(leaf_fields::letters_of(l, s));
    Some((n, s.end))
}

// Most numbers are plain, and read while they are scanned.
pub fn next_number(l: &[u8], at: usize) -> Option<(Result<f64, NumberError>, usize)>
    ensures { Numbered l.now at result }
{
    let start = leaf_fields::field_start(l, at);
    if start < l.len() {
        let Some((n, len)) = leaf_decimals::plain_number(&l[start..]) else {
            return read_next(l, start);
        };
        let end = start + len;
        // The byte there is whitespace, and was seen to be: what is taken next need not test it again.
        if end < l.len() {
            return Some((n, end + 1));
        }
        return Some((n, end));
    }
    None
}

// A number that must be there, and a place from which on the other fields stand.
pub fn take_number(l: &[u8], at: usize) -> Result<(f64, usize), Reason>
    ensures { took_in l.now result ≡ number_from (fields_at l.now at) }
{
    let (n, end) = next_number(l, at).ok_or(Reason::Missing)?;
    let x = n?;
    Ok((x, end))
}

// What number a text is that is one field. Most are plain here too.
#[inline(never)]
fn whole_number(s: &[u8]) -> Result<f64, NumberError>
    ensures { result ≡ number_of s.now }
{
    if let Some((n, len)) = leaf_decimals::plain_number(s) {
        if len == s.len() {
            return n;
        }
    }
    leaf_decimals::read_number(s)
}

// A number that is read from the other text where it is missing. The field ends where the part of the line does that was handed out, so it is not scanned again.
pub fn take_number_or<'a>(l: &'a [u8], at: usize, other: &'a [u8]) -> Result<(f64, usize), Reason>
    ensures { took_in l.now result ≡ number_or other.now (fields_at l.now at) }
{
    let start = leaf_fields::field_start(l, at);
    let text = leaf_fields::field_or(l, start, other);
    let x = whole_number(text)?;
    if start < l.len() {
        return Ok((x, start + text.len()));
    }
    Ok((x, at))
}

// A number that is `other` where it is missing or malformed; one beyond reach is refused even here. Taken apart by `let else`, malformed and beyond reach apart, as the
// house wants it where a malformed number is swallowed (docs/DECISIONS.md, "Language forms").
pub fn take_swallowed(l: &[u8], at: usize, other: f64) -> Result<(f64, usize), Reason>
    ensures { took_in l.now result ≡ swallowed_from other (fields_at l.now at) }
{
    let Some((n, end)) = next_number(l, at) else {
        return Ok((other, at));
    };
    let Ok(x) = n else {
        let Err(NumberError::Malformed) = n else {
            return Err(Reason::BeyondReach);
        };
        return Ok((other, end));
    };
    Ok((x, end))
}

// Exactly true or false, false where it is missing.
pub fn take_flag(l: &[u8], at: usize) -> Result<(bool, usize), Reason>
    ensures { took_in l.now result ≡ flag_from (fields_at l.now at) }
{
    let Some(s) = leaf_fields::next_field(l, at) else {
        return Ok((false, at));
    };
    let word = leaf_fields::letters_of(l, s);
    if leaf_letters::equal(word, b"true") {
        return Ok((true, s.end));
    }
    if leaf_letters::equal(word, b"false") {
        return Ok((false, s.end));
    }
    Err(Reason::Malformed)
}
