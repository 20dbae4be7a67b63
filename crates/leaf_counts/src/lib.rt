// Counts: a whole number below 2^64, with or without a plus. specs/Counts.antt says what is a count.
#![tactic(auto)]

ghost use Rattle.std.specs.Prelude.{◌≡◌, ◌+◌, ◌-◌, ◌*◌, ◌^◌, ◌<◌, IsTrue};
ghost use Rattle.std.specs.Option.{SomeIff};
ghost use Rattle.leaf_digits.specs.Bytes.{is};
ghost use Rattle.leaf_counts.specs.Counts.{whole, count_of};

use leaf_digits::Class;

// v with one digit more: there is none where b is no digit, or where the count reaches 2^64.
fn with_digit(v: u64, b: u8) -> Option<u64>
    ensures { SomeIff result (IsTrue (is Class.Digit b) × (v * 10 + (b - 48) < 2 ^ 64)) (v * 10 + (b - 48)) }
{
    if !leaf_digits::is_digit(b) {
        return None;
    }
    v.checked_mul(10)?.checked_add(leaf_digits::digit_value(b))
}

// s is a count after its sign.
fn read_whole(s: &[u8]) -> Option<u64>
    ensures { result ≡ whole s.now }
{
    if s.is_empty() {
        return None;
    }
    let mut v = 0;
    for b in s {
        v = with_digit(v, *b)?;
    }
    Some(v)
}

pub fn read_count(s: &[u8]) -> Option<u64>
    ensures { result ≡ count_of s.now }
{
    let [b, rest @ ..] = s else {
        return None;
    };
    let Class::Sign = leaf_digits::class_of(*b) else {
        return read_whole(s);
    };
    if *b == b'+' { read_whole(rest) } else { None }
}
