// The leaves that a Rust program links, to compare them with the Rust readers: each hands out document 01's number, and writes the value.
#![tactic(auto)]

ghost use Rattle.std.specs.Prelude.{◌≡◌};
ghost use Rattle.leaf_decimals.specs.Numbers.{number_of, number_answer};
ghost use Rattle.leaf_counts.specs.Counts.{count_of, count_answer};
ghost use Rattle.leaf_clock.specs.Times.{time_of, time_answer, seconds_in};
ghost use Rattle.leaves.specs.Values.{value_in, whole_in};

use leaf_clock::TimeError;
use leaf_decimals::NumberError;

#[unsafe(no_mangle)]
pub extern "C" fn leaf_number(s: &[u8], out: &mut f64) -> u64
    ensures answer { result ≡ number_answer (number_of s.now) }
    ensures value { out.new ≡ value_in (number_of s.now) }
{
    let n = leaf_decimals::read_number(s);
    *out = n.unwrap_or(0.0);
    match n {
        Ok(_) => 0,
        Err(NumberError::Malformed) => 2,
        Err(NumberError::Beyond) => 22,
    }
}

#[unsafe(no_mangle)]
pub extern "C" fn leaf_count(s: &[u8], out: &mut u64) -> u64
    ensures answer { result ≡ count_answer (count_of s.now) }
    ensures value { out.new ≡ whole_in (count_of s.now) }
{
    let n = leaf_counts::read_count(s);
    *out = n.unwrap_or(0);
    match n {
        Some(_) => 0,
        None => 2,
    }
}

#[unsafe(no_mangle)]
pub extern "C" fn leaf_time(time: &[u8], unit: &[u8], out: &mut u64) -> u64
    ensures answer { result ≡ time_answer (time_of time.now unit.now) }
    ensures value { out.new ≡ seconds_in (time_of time.now unit.now) }
{
    let t = leaf_clock::read_time(time, unit);
    *out = t.unwrap_or(0);
    match t {
        Ok(_) => 0,
        Err(TimeError::Malformed) => 2,
        Err(TimeError::Beyond) => 22,
        Err(TimeError::UnknownUnit) => 7,
    }
}
