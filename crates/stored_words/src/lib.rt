// A name, a place and an amount read back from their words.
#![tactic(auto)]

ghost use Rattle.std.specs.Prelude.{◌≡◌};
ghost use Rattle.stored_words.specs.Words.{span_from, field_from, found_from, amount_from};

use leaf_fields::Span;

// A span by its place and its length; one that would end beyond every place is empty.
pub fn span_from(at: usize, long: usize) -> Span
    ensures { result ≡ span_from at long }
{
    let end = at.checked_add(long).unwrap_or(at);
    Span { at, end }
}

// A field by its place and its length; no field is empty.
pub fn field_from(at: usize, long: usize) -> Option<Span>
    ensures { result ≡ field_from at long }
{
    if long == 0 {
        return None;
    }
    Some(span_from(at, long))
}

pub fn found_from(n: u64) -> Option<usize>
    ensures { result ≡ found_from n }
{
    let i = n.checked_sub(1)?;
    Some(i as usize)
}

// A number by its mark and itself: without a mark there is none.
pub fn amount_from(n: u64, x: u64) -> Option<u64>
    ensures { result ≡ amount_from n x }
{
    (n != 0).then_some(x)
}
