// Curves, patterns, demands and times read back by value from the two tables that a reading filled.
#![tactic(auto)]

ghost use Rattle.std.specs.Prelude.{◌≡◌, List, Float, get_or, None};
ghost use Rattle.scope.specs.Records.{Network, no_name, no_demand, no_point, no_multiplier};
ghost use Rattle.stored_words.specs.Words.{amount_of};
ghost use Rattle.stored_records.specs.Back.{Stands};
ghost use Rattle.stored_series.specs.Back.{curve_back, pattern_back, point_back, multiplier_back, demand_back};

use leaf_fields::Span;
use stored_counts::Stored;

// ---- what the records are

#[derive(Clone, Copy)]
pub struct Curve {
    pub id: Span,
}

#[derive(Clone, Copy)]
pub struct Pattern {
    pub id: Span,
}

// The curve is the place of the point's curve.
#[derive(Clone, Copy)]
pub struct Point {
    pub curve: usize,
    pub x: f64,
    pub y: f64,
}

// The pattern is the place of the multiplier's pattern.
#[derive(Clone, Copy)]
pub struct Multiplier {
    pub pattern: usize,
    pub value: f64,
}

// The node is the place of the junction; `own` marks the demand of the junction's own line.
#[derive(Clone, Copy)]
pub struct Demand {
    pub node: usize,
    pub own: bool,
    pub base: f64,
    pub pattern: Option<Span>,
    pub index: Option<usize>,
}

// ---- curves and patterns

// These readers differ in their columns, their widths and what they make of them: one generic reader would take all three, and be no plainer.

// Curve number i; past the end, an empty one. So it is for every record below.
pub fn curve_at(stored: Stored, i: usize) -> Curve
    ensures { (m : Network) (f : List Float) → Stands m stored.entry.words.now f → result ≡ curve_back (get_or m.curves i no_name) }
{
    let row: Option<&[u64; table_rows::CURVES_WIDTH]> = stored.words_of(
        table_rows::CURVES_AT,
        table_rows::CURVES_MOST,
        i,
    );
    match row {
        Some(words) => Curve {
            id: stored_records::span_at(words, table_rows::ID_PLACE),
        },
        None => Curve {
            id: Span { at: 0, end: 0 },
        },
    }
}

// Pattern number i.
pub fn pattern_at(stored: Stored, i: usize) -> Pattern
    ensures { (m : Network) (f : List Float) → Stands m stored.entry.words.now f → result ≡ pattern_back (get_or m.patterns i no_name) }
{
    let row: Option<&[u64; table_rows::PATTERNS_WIDTH]> = stored.words_of(
        table_rows::PATTERNS_AT,
        table_rows::PATTERNS_MOST,
        i,
    );
    match row {
        Some(words) => Pattern {
            id: stored_records::span_at(words, table_rows::ID_PLACE),
        },
        None => Pattern {
            id: Span { at: 0, end: 0 },
        },
    }
}

type PointWords = [u64; table_rows::POINTS_WIDTH];

type PointNumbers = [f64; table_rows::POINT_NUMBERS_WIDTH];

// Point number i.
pub fn point_at(stored: Stored, i: usize) -> Point
    ensures { (m : Network) → Stands m stored.entry.words.now stored.entry.numbers.now → result ≡ point_back (get_or m.points i no_point) }
{
    let row: Option<(&PointWords, &PointNumbers)> = stored.rows(
        table_rows::POINTS_AT,
        table_rows::POINT_NUMBERS_AT,
        table_rows::POINTS_MOST,
        i,
    );
    match row {
        Some((words, numbers)) => Point {
            curve: words[0] as usize,
            x: numbers[table_rows::POINT_X],
            y: numbers[table_rows::POINT_Y],
        },
        None => Point {
            curve: 0,
            x: 0.0,
            y: 0.0,
        },
    }
}

type MultiplierWords = [u64; table_rows::MULTIPLIERS_WIDTH];

type MultiplierNumbers = [f64; table_rows::MULTIPLIER_NUMBERS_WIDTH];

// Multiplier number i.
pub fn multiplier_at(stored: Stored, i: usize) -> Multiplier
    ensures { (m : Network) → Stands m stored.entry.words.now stored.entry.numbers.now → result ≡ multiplier_back (get_or m.multipliers i no_multiplier) }
{
    let row: Option<(&MultiplierWords, &MultiplierNumbers)> = stored.rows(
        table_rows::MULTIPLIERS_AT,
        table_rows::MULTIPLIER_NUMBERS_AT,
        table_rows::MULTIPLIERS_MOST,
        i,
    );
    match row {
        Some((words, numbers)) => Multiplier {
            pattern: words[0] as usize,
            value: numbers[0],
        },
        None => Multiplier {
            pattern: 0,
            value: 0.0,
        },
    }
}

// ---- demands and times

type DemandWords = [u64; table_rows::DEMANDS_WIDTH];

type DemandNumbers = [f64; table_rows::DEMAND_NUMBERS_WIDTH];

// Demand number i.
pub fn demand_at(stored: Stored, i: usize) -> Demand
    ensures { (m : Network) → Stands m stored.entry.words.now stored.entry.numbers.now → result ≡ demand_back (get_or m.demands i no_demand) }
{
    let row: Option<(&DemandWords, &DemandNumbers)> = stored.rows(
        table_rows::DEMANDS_AT,
        table_rows::DEMAND_NUMBERS_AT,
        table_rows::DEMANDS_MOST,
        i,
    );
    match row {
        Some((words, numbers)) => Demand {
            node: words[table_rows::DEMAND_NODE] as usize,
            own: words[table_rows::DEMAND_OWN] == 1,
            base: numbers[0],
            pattern: stored_records::field_at(words, table_rows::DEMAND_NAME),
            index: stored_words::found_from(words[table_rows::DEMAND_INDEX]),
        },
        None => Demand {
            node: 0,
            own: false,
            base: 0.0,
            pattern: None,
            index: None,
        },
    }
}

// Time number i: duration, hydraulic timestep, pattern timestep, report timestep, pattern start, start clocktime.
pub fn time_at(stored: Stored, i: usize) -> Option<u64>
    ensures { (m : Network) (f : List Float) → Stands m stored.entry.words.now f → result ≡ amount_of (get_or m.times i None) }
{
    let row: &[u64; table_rows::TIMES_WIDTH] = stored.words_of(
        table_rows::TIMES_AT,
        table_rows::TIMES_MOST,
        i,
    )?;
    stored_words::amount_from(row[table_rows::TIME_SET], row[table_rows::TIME_SECONDS])
}
