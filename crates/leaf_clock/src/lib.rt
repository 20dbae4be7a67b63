// Times: hours and minutes with a colon, or a number with a unit. See specs/Times.antt for the rules.
#![tactic(auto)]

ghost use Rattle.std.specs.Prelude.{◌≡◌, ◌≤◌, Ok, IfOk};
ghost use Rattle.leaf_counts.specs.Counts.{count_of};
ghost use Rattle.leaf_clock.specs.Cut.{cut};
ghost use Rattle.leaf_clock.specs.Times.{colon_at, before_colon, morning, afternoon, hour_of, on_count, colon_form, without_s, unit_words, named, unit_of, in_unit, time_error, time_of};
ghost use Rattle.leaf_clock.specs.Products.{ByNearest};

use leaf_decimals::NumberError;

// Why a text gives no time.
#[derive(Clone, Copy, PartialEq, Eq, Debug)]
pub enum TimeError {
    Malformed,
    Beyond,
    UnknownUnit,
}

impl From<NumberError> for TimeError {
    ghost from_gives = { λ e r. r ≡ time_error e };

    fn from(e: NumberError) -> TimeError {
        match e {
            NumberError::Malformed => TimeError::Malformed,
            NumberError::Beyond => TimeError::Beyond,
        }
    }
}

#[derive(Clone, Copy)]
pub enum Unit {
    Hour,
    Minute,
    Second,
    Day,
    Am,
    Pm,
}

// ---- a time with a colon

// Where the first colon stands, or the text ends.
fn colon_at(s: &[u8]) -> usize
    ensures { result ≡ colon_at s.now }
{
    s.iter().position(|b| *b == b':').unwrap_or(s.len())
}

fn before_colon(s: &[u8]) -> &[u8]
    ensures { result.now ≡ before_colon s.now }
{
    &s[..colon_at(s)]
}

fn morning(h: u64) -> u64
    ensures { result ≡ morning h }
{
    h % 12
}

fn afternoon(h: u64) -> u64
    ensures { result ≡ afternoon h }
{
    h % 12 + 12
}

#[tactic(auto, unfolding(crate::specs::Times::hour_of))]
fn hour_of(h: u64, suffix: &[u8]) -> u64
    ensures { result ≡ hour_of h suffix.now }
{
    if leaf_letters::spells(suffix, b"AM") {
        return morning(h);
    }
    if leaf_letters::spells(suffix, b"PM") {
        return afternoon(h);
    }
    h
}

// Hours, or minutes: a count, and none above a thousand million.
fn read_part(s: &[u8]) -> Result<u64, TimeError>
    ensures value { result ≡ on_count (count_of s.now) Ok }
    ensures most { IfOk result (λ n. n ≤ 1000000000) }
{
    let n = leaf_counts::read_count(s).ok_or(TimeError::Malformed)?;
    if n > 1000000000 {
        return Err(TimeError::Beyond);
    }
    Ok(n)
}

fn colon_form(hours: &[u8], minutes: &[u8], suffix: &[u8]) -> Result<u64, TimeError>
    ensures { result ≡ colon_form hours.now minutes.now suffix.now }
{
    let h = read_part(hours)?;
    let m = read_part(minutes)?;
    Ok(hour_of(h, suffix) * 3600 + m * 60)
}

// ---- a number with a unit

fn without_s(unit: &[u8]) -> &[u8]
    ensures { result.now ≡ without_s unit.now }
{
    if unit.is_empty() || leaf_letters::spells(unit, b"HOURS") {
        return unit;
    }
    let (front, last) = unit.split_at(unit.len() - 1);
    if leaf_letters::spells(last, b"S") {
        front
    } else {
        unit
    }
}

#[tactic(auto, unfolding(crate::specs::Times::named))]
fn named(unit: &[u8]) -> Option<Unit>
    ensures { result ≡ named unit_words unit.now }
{
    if leaf_letters::spells(unit, b"HOUR") || leaf_letters::spells(unit, b"HOURS") {
        Some(Unit::Hour)
    } else if leaf_letters::spells(unit, b"MINUTE") || leaf_letters::spells(unit, b"MIN") {
        Some(Unit::Minute)
    } else if leaf_letters::spells(unit, b"SECOND") || leaf_letters::spells(unit, b"SEC") {
        Some(Unit::Second)
    } else if leaf_letters::spells(unit, b"DAY") {
        Some(Unit::Day)
    } else if leaf_letters::spells(unit, b"AM") {
        Some(Unit::Am)
    } else if leaf_letters::spells(unit, b"PM") {
        Some(Unit::Pm)
    } else {
        None
    }
}

fn unit_of(unit: &[u8]) -> Option<Unit>
    ensures { result ≡ unit_of unit.now }
{
    if unit.is_empty() {
        return Some(Unit::Hour);
    }
    named(without_s(unit))
}

// The whole part of x, within what a u64 holds.
fn whole_part(x: f64) -> u64
    ensures { result ≡ cut x }
{
    std::num::saturating_f64_to_u64(x)
}

fn in_unit(x: f64, unit: Unit) -> u64
    ensures { result ≡ in_unit unit x }
{
    match unit {
        Unit::Hour => whole_part(x * 3600.0),
        Unit::Minute => whole_part(x * 60.0),
        Unit::Second => whole_part(x),
        Unit::Day => whole_part(x * 86400.0),
        Unit::Am => morning(whole_part(x)) * 3600,
        Unit::Pm => afternoon(whole_part(x)) * 3600,
    }
}

// ---- both

// An empty unit says that none stands there.
pub fn read_time(time: &[u8], unit: &[u8]) -> Result<u64, TimeError>
    ensures value { result ≡ time_of time.now unit.now }
    ensures nearest { ByNearest time.now unit.now result }
{
    let at = colon_at(time);
    if at < time.len() {
        return colon_form(&time[..at], before_colon(&time[at + 1..]), unit);
    }
    let x = leaf_decimals::read_number(time)?;
    let unit = unit_of(unit).ok_or(TimeError::UnknownUnit)?;
    Ok(in_unit(x, unit))
}
