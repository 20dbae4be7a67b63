// Bytes and runs of digits, for the readers of fields, counts and numbers. specs/Bytes.antt says of what class a byte is, and
// specs/Digits.antt which digits a text begins with.
#![tactic(auto)]

ghost use Rattle.std.specs.Prelude.{◌≡◌, ◌+◌, ◌-◌, ◌*◌, ◌≤◌, min, length, drop};
ghost use Rattle.leaf_digits.specs.Bytes.{class_of, is, lower};
ghost use Rattle.leaf_digits.specs.Digits.{digits, value};
ghost use Rattle.leaf_digits.specs.Cap.{cap};
ghost use Rattle.leaf_digits.specs.Ends.{ended};
ghost use Rattle.leaf_digits.specs.Runs.{Room, Scanned};

// ---- a byte

#[derive(Clone, Copy, PartialEq, Eq, Debug)]
pub enum Class {
    Space,
    Digit,
    Sign,
    Point,
    Exponent,
    Other,
}

#[tactic(auto, unfolding(crate::specs::Bytes::class_of))]
pub fn class_of(b: u8) -> Class
    ensures { result ≡ class_of b }
{
    match b {
        9..=13 | 32 => Class::Space,
        b'0'..=b'9' => Class::Digit,
        b'+' | b'-' => Class::Sign,
        b'.' => Class::Point,
        b'E' | b'e' => Class::Exponent,
        _ => Class::Other,
    }
}

// Early returns and loops by index stay in `is_digit`, `ends_at` and `few_digits`, in `reach` and `is_space` of `leaf_scans`, in `leaf_letters::cut` and in
// `leaf_fields::letters_of`: a build with &&, for and min in all of them took 18 % more instructions on the full district (which of its new forms cost how much was not measured).
// Whether b is a digit. Most bytes of a number are, and the two comparisons are all that one costs: behind them the compiler drops the match.
pub fn is_digit(b: u8) -> bool
    ensures { result ≡ is Class.Digit b }
{
    if b < b'0' {
        return false;
    }
    if b > b'9' {
        return false;
    }
    match class_of(b) {
        Class::Digit => true,
        _ => false,
    }
}

// What a digit counts. The byte less that of 0 is what `is_digit` compares, so that the compiler has it already.
pub fn digit_value(b: u8) -> u64
    requires { (48 ≤ b) × (b ≤ 57) }
    ensures { result ≡ b - 48 }
{
    (b - b'0') as u64
}

// A letter in lower case.
pub fn lowered(b: u8) -> u8
    ensures { result ≡ lower b }
{
    b.to_ascii_lowercase()
}

// ---- where a word ends

// Whether whitespace stands at i, or nothing.
pub fn ends_at(s: &[u8], i: usize) -> bool
    ensures { result ≡ ended (drop i s.now) }
{
    if i < s.len() {
        let b = s[i];
        if b' ' < b {
            return false;
        }
        return match class_of(b) {
            Class::Space => true,
            _ => false,
        };
    }
    true
}

// ---- digits in a row

// A multiple of 10 that fits, far past what any caller asks of a number.
const CAP: u64 = 18446744073709551610;

// v with one digit more, up to a number past which it no longer matters. One comparison, as it runs for each digit: of std's
// saturating operations each is a choice of its own that the next digit waits for, and a signed number then takes a quarter
// longer (docs/LOOK-BACK.md).
fn extended(v: u64, b: u8) -> u64
    requires { (48 ≤ b) × (b ≤ 57) }
    ensures { result ≡ min (v * 10 + (b - 48)) cap }
{
    if v < CAP / 10 {
        v * 10 + digit_value(b)
    } else {
        CAP
    }
}

// The digits that a text begins with: how many they are, and the number that they are, with the
// digits of `start` before them.
#[derive(Clone, Copy)]
pub struct Run {
    pub len: usize,
    pub value: u64,
}

pub fn leading(s: &[u8], start: u64) -> Run
    requires { start ≤ cap }
    ensures { (result.len ≡ length (digits s.now)) × (result.value ≡ min (value start (digits s.now)) cap) }
{
    let mut v = start;
    for (i, b) in s.iter().enumerate() {
        if !is_digit(*b) {
            return Run { len: i, value: v };
        }
        v = extended(v, *b);
    }
    Run {
        len: s.len(),
        value: v,
    }
}

// Where digits end, and the number that they are, with the digits of `start` before them.
#[derive(Clone, Copy)]
pub struct Few {
    pub end: usize,
    pub value: u64,
}

// The digits from `from` on, none of them past `to`: so few that no sum overflows, and no digit is tested against a cap as in `leading`.
pub fn few_digits(s: &[u8], from: usize, to: usize, start: u64) -> Few
    requires { (from ≤ length s.now) × (to ≤ length s.now) × Room start from to }
    ensures { Scanned s.now from start result.end result.value × Room result.value result.end to }
{
    let mut i = from;
    let mut v = start;
    while i < to {
        let b = s[i];
        if is_digit(b) {
            v = v * 10 + digit_value(b);
        } else {
            return Few { end: i, value: v };
        }
        i += 1;
    }
    Few { end: i, value: v }
}
