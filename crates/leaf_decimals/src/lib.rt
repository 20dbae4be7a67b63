// Decimal numbers. specs/Numbers.antt says what is a number, and specs/Nearest.antt which double it gives.
#![tactic(auto)]

ghost use Rattle.std.specs.Prelude.{◌≡◌, ◌^◌, ◌<◌, ◌≤◌, min};
ghost use Rattle.leaf_digits.specs.Cap.{cap};
ghost use Rattle.leaf_decimals.specs.Reach.{ten, signed, meaning};
ghost use Rattle.leaf_decimals.specs.Numbers.{spells, power, exponent, ending, point, unsigned, outcome, number_of, reading_of, AsRead};
ghost use Rattle.leaf_decimals.specs.Begun.{Begins};

use leaf_digits::Class;

// Why a text gives no number: it is none, or the number is beyond reach.
#[derive(Clone, Copy, PartialEq, Eq, Debug)]
pub enum NumberError {
    Malformed,
    Beyond,
}

// 10^0 to 10^22: each is a double exactly. A match, and no table: a table would be laid out anew at each number.
// What is left over is 10^0: no fraction is divided by it, so that a fraction's power is found without a test.
fn power_of_ten(k: usize) -> f64
    requires { k < 23 }
    ensures { result ≡ ten k }
{
    match k {
        1 => 1e1,
        2 => 1e2,
        3 => 1e3,
        4 => 1e4,
        5 => 1e5,
        6 => 1e6,
        7 => 1e7,
        8 => 1e8,
        9 => 1e9,
        10 => 1e10,
        11 => 1e11,
        12 => 1e12,
        13 => 1e13,
        14 => 1e14,
        15 => 1e15,
        16 => 1e16,
        17 => 1e17,
        18 => 1e18,
        19 => 1e19,
        20 => 1e20,
        21 => 1e21,
        22 => 1e22,
        _ => 1.0,
    }
}

fn with_sign(minus: bool, x: f64) -> f64
    ensures { result ≡ signed minus x }
{
    if minus { -x } else { x }
}

// ±w * 10^up / 10^down. Both w and the power of ten are doubles exactly, so the one operation rounds right.
fn valued(minus: bool, w: u64, up: usize, down: usize) -> Result<f64, NumberError>
    ensures { result ≡ meaning minus w up down }
{
    if w == 0 {
        let zero = with_sign(minus, 0.0);
        return Ok(zero);
    }
    if w > 9007199254740992 {
        return Err(NumberError::Beyond);
    }
    let k = up.abs_diff(down);
    if k > 22 {
        return Err(NumberError::Beyond);
    }
    let x = w as f64;
    let p = power_of_ten(k);
    if down <= up {
        Ok(with_sign(minus, x * p))
    } else {
        Ok(with_sign(minus, x / p))
    }
}

// ---- the words inf, infinity and nan

// Whether s is the word w, in any case of its letters: `leaf_letters::spells` is of words in capitals.
fn is_word(s: &[u8], w: &[u8]) -> bool
    ensures { result ≡ spells s.now w.now }
{
    s.len() == w.len() && s.iter().zip(w).all(|(a, b)| leaf_digits::lowered(*a) == *b)
}

// ---- a number, part by part: each function reads what is left, as the definition of the same part
// in specs/Numbers.antt does. Each but the last is called in one place, so that the compiler can make one
// function of them: from call to call an answer goes through memory (docs/LOOK-BACK.md, d2).

// s is an exponent after its sign.
fn read_power(minus: bool, w: u64, frac: usize, back: bool, s: &[u8]) -> Result<f64, NumberError>
    requires { frac < 2 ^ 63 }
    ensures { result ≡ outcome (power minus w frac back s.now) }
{
    let d = leaf_digits::leading(s, 0);
    let n = d.len;
    let x = d.value as usize;
    if n == 0 || n < s.len() {
        return Err(NumberError::Malformed);
    }
    let (up, down) = if back {
        (0, frac + x.min(23))
    } else {
        (x, frac)
    };
    valued(minus, w, up, down)
}

// s is what follows the letter e.
fn read_exponent(minus: bool, w: u64, frac: usize, s: &[u8]) -> Result<f64, NumberError>
    requires { frac < 2 ^ 63 }
    ensures { result ≡ outcome (exponent minus w frac s.now) }
{
    let [b, rest @ ..] = s else {
        return Err(NumberError::Malformed);
    };
    let (back, digits) = match leaf_digits::class_of(*b) {
        Class::Sign => (*b == b'-', rest),
        _ => (false, s),
    };
    read_power(minus, w, frac, back, digits)
}

// s is what follows the digits: `count` of them, `frac` of them after the point.
fn read_ending(minus: bool, w: u64, count: usize, frac: usize, s: &[u8]) -> Result<f64, NumberError>
    requires { frac < 2 ^ 63 }
    ensures { result ≡ outcome (ending minus w count frac s.now) }
{
    if count == 0 {
        return Err(NumberError::Malformed);
    }
    let [b, rest @ ..] = s else {
        return valued(minus, w, 0, frac);
    };
    match leaf_digits::class_of(*b) {
        Class::Exponent => read_exponent(minus, w, frac, rest),
        _ => Err(NumberError::Malformed),
    }
}

// s is what follows the digits before the point.
fn read_point(minus: bool, w: u64, count: usize, s: &[u8]) -> Result<f64, NumberError>
    requires { (w ≤ cap) × (count < 2 ^ 63) }
    ensures { result ≡ outcome (point minus w count s.now) }
{
    let (w, count, frac, rest) = match s {
        [] => (w, count, 0, s),
        [b, rest @ ..] => match leaf_digits::class_of(*b) {
            Class::Point => {
                let d = leaf_digits::leading(rest, w);
                (d.value, count + d.len, d.len, &rest[d.len..])
            }
            _ => (w, count, 0, s),
        },
    };
    read_ending(minus, w, count, frac, rest)
}

// s is a number after its sign.
fn read_unsigned(minus: bool, s: &[u8]) -> Result<f64, NumberError>
    ensures { result ≡ outcome (unsigned minus s.now) }
{
    let d = leaf_digits::leading(s, 0);
    let n = d.len;
    // A text that begins with a digit is none of the three words.
    if n == 0 {
        if is_word(s, b"inf") {
            return Ok(with_sign(minus, 1.0 / 0.0));
        }
        if is_word(s, b"infinity") {
            return Ok(with_sign(minus, 1.0 / 0.0));
        }
        if is_word(s, b"nan") {
            return Ok(0.0 / 0.0);
        }
    }
    read_point(minus, d.value, n, &s[n..])
}

pub fn read_number(s: &[u8]) -> Result<f64, NumberError>
    ensures value { result ≡ number_of s.now }
    ensures nearest { AsRead (reading_of s.now) result }
{
    let [b, rest @ ..] = s else {
        return Err(NumberError::Malformed);
    };
    let (minus, rest) = match leaf_digits::class_of(*b) {
        Class::Sign => (*b == b'-', rest),
        _ => (false, s),
    };
    read_unsigned(minus, rest)
}

// ---- a plain number, as most are written: digits, or digits, a point and digits, and then whitespace or the text's end

// The number that a text begins with, read while it is scanned.
pub fn plain_number(s: &[u8]) -> Option<(Result<f64, NumberError>, usize)>
    ensures { Begins s.now result }
{
    // 19 digits stay below 2^64.
    let to = s.len().min(19);
    let d = leaf_digits::few_digits(s, 0, to, 0);
    let n = d.end;
    if n == 0 {
        return None;
    }
    if leaf_digits::ends_at(s, n) {
        return Some((valued(false, d.value, 0, 0), n));
    }
    let Class::Point = leaf_digits::class_of(s[n]) else {
        return None;
    };
    let i = n + 1;
    let f = leaf_digits::few_digits(s, i, to, d.value);
    let e = f.end;
    if e == i {
        return None;
    }
    if leaf_digits::ends_at(s, e) {
        return Some((valued(false, f.value, 0, e - i), e));
    }
    None
}
