// Reads a line of TIMES, and stores what it says.
#![tactic(auto)]

ghost use Rattle.std.specs.Prelude.{◌≡◌, ◌&&◌, ◌≤◌, length, take};
ghost use Rattle.scope.specs.Layout.{record_words};
ghost use Rattle.leaf_fields.specs.Fields.{fields_at, name_in};
ghost use Rattle.leaf_letters.specs.Words.{spelled};
ghost use Rattle.leaf_clock.specs.Times.{has_colon};
ghost use Rattle.scope.specs.Records.{Network};
ghost use Rattle.scope.specs.Times.{option_of, option_of_two, joins, seconds_from, after_option, times_of, times_step};
ghost use Rattle.table_rows.specs.Holding.{Holds, Sound, After};
ghost use Rattle.store_times.specs.Lines.{TimesAs, place_of, time_put};

use leaf_decimals::NumberError;
use leaf_fields::Span;
use scope::{Counts, Reason, TimeOption};

// ---- what a line says

// Which option, and how many seconds.
#[derive(Clone, Copy)]
pub struct TimeLine {
    pub option: TimeOption,
    pub seconds: u64,
}

// ---- reading it

#[tactic(auto, unfolding(scope::specs::Times::option_of))]
fn option_of(a: &[u8]) -> TimeOption
    ensures { result ≡ option_of a.now }
{
    if leaf_letters::spells(a, b"DURATION") {
        return TimeOption::Duration;
    }
    TimeOption::Dropped
}

// Whether two texts, their letters raised, are the two words.
fn spell_two(a: &[u8], b: &[u8], first: &[u8], second: &[u8]) -> bool
    ensures { result ≡ (spelled a.now first.now && spelled b.now second.now) }
{
    leaf_letters::spells(a, first) && leaf_letters::spells(b, second)
}

// The options of two words.
static OF_TWO: [(&[u8], &[u8], TimeOption); 5] = [
    (b"HYDRAULIC", b"TIMESTEP", TimeOption::HydraulicTimestep),
    (b"PATTERN", b"TIMESTEP", TimeOption::PatternTimestep),
    (b"REPORT", b"TIMESTEP", TimeOption::ReportTimestep),
    (b"PATTERN", b"START", TimeOption::PatternStart),
    (b"START", b"CLOCKTIME", TimeOption::StartClocktime),
];

fn option_of_two(a: &[u8], b: &[u8]) -> TimeOption
    ensures { result ≡ option_of_two a.now b.now }
{
    for (first, second, option) in &OF_TWO {
        if spell_two(a, b, first, second) {
            return *option;
        }
    }
    TimeOption::Dropped
}

fn has_colon(s: &[u8]) -> bool
    ensures { result ≡ has_colon s.now }
{
    s.contains(&b':')
}

// Whether the second field joins the option: it is no number and has no colon.
fn joins(l: &[u8], f: Span) -> bool
    ensures { result ≡ joins (name_in l.now f) }
{
    let s = leaf_fields::letters_of(l, f);
    match leaf_decimals::read_number(s) {
        Err(NumberError::Malformed) => !has_colon(s),
        _ => false,
    }
}

// The value, and its unit where one follows.
fn read_seconds(l: &[u8], at: usize, option: TimeOption) -> Result<TimeLine, Reason>
    ensures { TimesAs (seconds_from option (fields_at l.now at)) result }
{
    let value = leaf_fields::next_field(l, at).ok_or(Reason::Missing)?;
    let unit = leaf_fields::field_or(l, value.end, b"");
    let seconds = leaf_clock::read_time(leaf_fields::letters_of(l, value), unit)?;
    Ok(TimeLine { option, seconds })
}

// What follows the first word of the option.
fn read_option(l: &[u8], word: Span) -> Result<TimeLine, Reason>
    ensures { TimesAs (after_option (name_in l.now word) (fields_at l.now word.end)) result }
{
    let second = leaf_fields::next_field(l, word.end).ok_or(Reason::Missing)?;
    let a = leaf_fields::letters_of(l, word);
    if joins(l, second) {
        let option = option_of_two(a, leaf_fields::letters_of(l, second));
        return read_seconds(l, second.end, option);
    }
    read_seconds(l, word.end, option_of(a))
}

// An option of one word or two, its value, and the unit; STATISTIC sets nothing and needs no value.
#[tactic(auto, unfolding(scope::specs::Times::times_of))]
fn read_times(l: &[u8], at: usize) -> Result<TimeLine, Reason>
    ensures { TimesAs (times_of (fields_at l.now at)) result }
{
    let word = leaf_fields::next_field(l, at).ok_or(Reason::Missing)?;
    if leaf_letters::spells(leaf_fields::letters_of(l, word), b"STATISTIC") {
        return Ok(TimeLine {
            option: TimeOption::Dropped,
            seconds: 0,
        });
    }
    read_option(l, word)
}

// ---- storing it

// The place of an option among the times that are kept.
fn place_of(option: TimeOption) -> Option<usize>
    ensures { result ≡ place_of option }
{
    match option {
        TimeOption::Duration => Some(0),
        TimeOption::HydraulicTimestep => Some(1),
        TimeOption::PatternTimestep => Some(2),
        TimeOption::ReportTimestep => Some(3),
        TimeOption::PatternStart => Some(4),
        TimeOption::StartClocktime => Some(5),
        TimeOption::Dropped => None,
    }
}

fn put_time(words: &mut [u64], option: TimeOption, seconds: u64)
    requires { length words.old ≡ record_words }
    ensures { words.new ≡ time_put option seconds words.old }
{
    if let Some(k) = place_of(option) {
        table_rows::paste(
            words,
            table_rows::TIMES_AT + k * table_rows::TIMES_WIDTH,
            &[1, seconds],
        );
    }
}

// The line of TIMES from `at` to `end`. It changes no number: each section's line has these parameters.
pub fn times_line(
    text: &[u8],
    at: usize,
    end: usize,
    s: Counts,
    words: &mut [u64],
    numbers: &mut [f64],
) -> Result<Counts, Reason>
    requires { Sound text.now s words.old numbers.old × (end ≤ length text.now) }
    ensures { (m : Network) → Holds text.now m s words.old numbers.old
        → After text.now (times_step (fields_at (take end text.now) at) m) result words.old numbers.old words.new numbers.new }
{
    let t = read_times(&text[..end], at)?;
    put_time(words, t.option, t.seconds);
    Ok(s)
}
