// Stores what a line of PATTERNS says, as parse_series reads it.
#![tactic(auto)]

ghost use Rattle.std.specs.Prelude.{◌≡◌, List, ◌+◌, ◌≤◌, length, take, replicate, Float};
ghost use Rattle.leaf_fields.specs.Fields.{fields_at, name_in, Fits};
ghost use Rattle.scope.specs.Sections.{room_multipliers};
ghost use Rattle.scope.specs.Records.{Network};
ghost use Rattle.scope.specs.Values.{good};
ghost use Rattle.scope.specs.Series.{multipliers_of, add_pattern, pattern_step};
ghost use Rattle.table_rows.specs.Table.{splice};
ghost use Rattle.scope.specs.Layout.{multipliers_at, multiplier_numbers_at, record_words, room_numbers};
ghost use Rattle.table_rows.specs.Holding.{Holds, Sound, After};
ghost use Rattle.parse_series.specs.Lines.{Multipliers};

use parse_series::PatternLine;
use scope::{Counts, Kind, Reason};

// The numbers from `at` on as multipliers of a pattern, from multiplier number `k` on.
fn put_rest(l: &[u8], at: usize, k: usize, pattern: usize, words: &mut [u64], numbers: &mut [f64])
    requires { (xs : List Float) × (multipliers_of (fields_at l.now at) ≡ good xs) × (k + length xs ≤ room_multipliers) × (length words.old ≡ record_words)
        × (length numbers.old ≡ room_numbers) }
    ensures { (xs : List Float) → multipliers_of (fields_at l.now at) ≡ good xs
        → (words.new ≡ splice words.old (multipliers_at + k) (replicate (length xs) pattern))
        × (numbers.new ≡ splice numbers.old (multiplier_numbers_at + k) xs) }
{
    let mut i = k;
    let mut p = at;
    // No `for`: where the next number stands is known once this one is read.
    while let Ok((x, next)) = parse_fields::take_number(l, p) {
        words[table_rows::MULTIPLIERS_AT + i] = pattern as u64;
        numbers[table_rows::MULTIPLIER_NUMBERS_AT + i] = x;
        i += 1;
        p = next;
    }
}

// The numbers as multipliers of a pattern, from multiplier number `k` on. One by one: of a copy of so many numbers as a line has the
// compiler makes a call of memcpy, and the library for C needs nothing but memset (include/inp.h).
fn put_numbers(xs: &[f64], k: usize, pattern: usize, words: &mut [u64], numbers: &mut [f64])
    requires { (k + length xs.now ≤ room_multipliers) × (length words.old ≡ record_words) × (length numbers.old ≡ room_numbers) }
    ensures { (words.new ≡ splice words.old (multipliers_at + k) (replicate (length xs.now) pattern))
        × (numbers.new ≡ splice numbers.old (multiplier_numbers_at + k) xs.now) }
{
    for i in 0..xs.len() {
        words[table_rows::MULTIPLIERS_AT + k + i] = pattern as u64;
        numbers[table_rows::MULTIPLIER_NUMBERS_AT + k + i] = xs[i];
    }
}

// The multipliers of a line, from multiplier number `k` on. Those in `first` are not read again.
fn put_multipliers(
    l: &[u8],
    first: &[f64],
    p: PatternLine,
    k: usize,
    pattern: usize,
    words: &mut [u64],
    numbers: &mut [f64],
)
    requires { (xs : List Float) × Multipliers l.now first.now p.count p.rest xs × (k + length xs ≤ room_multipliers)
        × (length words.old ≡ record_words) × (length numbers.old ≡ room_numbers) }
    ensures { (xs : List Float) → Multipliers l.now first.now p.count p.rest xs
        → (words.new ≡ splice words.old (multipliers_at + k) (replicate (length xs) pattern))
        × (numbers.new ≡ splice numbers.old (multiplier_numbers_at + k) xs) }
{
    if p.count <= first.len() {
        put_numbers(&first[..p.count], k, pattern, words, numbers);
        return;
    }
    put_numbers(first, k, pattern, words, numbers);
    put_rest(l, p.rest, k + first.len(), pattern, words, numbers);
}

// As `store_curves::store_point`, with many numbers at once.
fn store_pattern(
    text: &[u8],
    line: &[u8],
    first: &[f64],
    p: PatternLine,
    s: Counts,
    words: &mut [u64],
    numbers: &mut [f64],
) -> Result<Counts, Reason>
    requires { Sound text.now s words.old numbers.old × Fits text.now p.id × ((xs : List Float) × Multipliers line.now first.now p.count p.rest xs) }
    ensures { (m : Network) (xs : List Float) → Holds text.now m s words.old numbers.old
        → Multipliers line.now first.now p.count p.rest xs
        → After text.now (add_pattern (name_in text.now p.id) xs m) result words.old numbers.old words.new numbers.new }
{
    let n = s.patterns;
    let k = s.multipliers;
    let more = k + p.count;
    if table_rows::MULTIPLIERS_MOST < more {
        return Err(Reason::NoRoom);
    }
    match table_find::find_at(text, words, Kind::Patterns, n, p.id) {
        Some(i) => {
            put_multipliers(line, first, p, k, i, words, numbers);
            Ok(Counts {
                multipliers: more,
                ..s
            })
        }
        None => {
            if n < table_rows::PATTERNS_MOST {
                table_rows::put_id(
                    text,
                    p.id,
                    n,
                    table_rows::PATTERNS_AT,
                    table_rows::PATTERN_SLOTS_AT,
                    words,
                );
                put_multipliers(line, first, p, k, n, words, numbers);
                return Ok(Counts {
                    patterns: n + 1,
                    multipliers: more,
                    ..s
                });
            }
            Err(Reason::NoRoom)
        }
    }
}

// The line of PATTERNS from `at` to `end`. Its first eight multipliers are kept until the whole line is read: most lines have no more, and are read once.
pub fn pattern_line(
    text: &[u8],
    at: usize,
    end: usize,
    s: Counts,
    words: &mut [u64],
    numbers: &mut [f64],
) -> Result<Counts, Reason>
    requires { Sound text.now s words.old numbers.old × (end ≤ length text.now) }
    ensures { (m : Network) → Holds text.now m s words.old numbers.old
        → After text.now (pattern_step (fields_at (take end text.now) at) m) result words.old numbers.old words.new numbers.new }
{
    let line = &text[..end];
    let mut first = [0.0; 8];
    let p = parse_series::read_pattern(line, at, &mut first)?;
    store_pattern(text, line, &first, p, s, words, numbers)
}
