// Stores what a line of CURVES says, as parse_pairs::read_pair reads it.
#![tactic(auto)]

ghost use Rattle.std.specs.Prelude.{◌≡◌, List, [], ◌∷◌, ℕ, ◌+◌, ◌*◌, ◌≤◌, ◌<◌, length, take};
ghost use Rattle.leaf_fields.specs.Fields.{fields_at, name_in, Fits};
ghost use Rattle.scope.specs.Sections.{room_points};
ghost use Rattle.scope.specs.Records.{Network};
ghost use Rattle.scope.specs.Series.{falls, last_x, add_point, curve_step};
ghost use Rattle.table_rows.specs.Table.{splice};
ghost use Rattle.scope.specs.Layout.{points_at, point_numbers_at, point_numbers_width, record_words, room_numbers};
ghost use Rattle.table_rows.specs.Holding.{Words, Numbers, Holds, Sound, After};

use parse_pairs::PairLine;
use scope::{Counts, Kind, Reason};

// Whether x is less than the last x of a curve: its last point is looked for from the end on.
fn falls_behind(words: &[u64], numbers: &[f64], points: usize, curve: usize, x: f64) -> bool
    requires { (points ≤ room_points) × (length words.now ≡ record_words) × (length numbers.now ≡ room_numbers) }
    ensures { (text : List ℕ) (m : Network) → Words text m words.now → Numbers m numbers.now → points ≡ length m.points → result ≡ falls x (last_x curve m.points) }
{
    for j in (0..points).rev() {
        if words[table_rows::POINTS_AT + j] == curve as u64 {
            let row = table_rows::POINT_NUMBERS_AT + j * table_rows::POINT_NUMBERS_WIDTH;
            return x < numbers[row + table_rows::POINT_X];
        }
    }
    false
}

// Point number k.
fn put_point(words: &mut [u64], numbers: &mut [f64], k: usize, curve: usize, x: f64, y: f64)
    requires { (k < room_points) × (length words.old ≡ record_words) × (length numbers.old ≡ room_numbers) }
    ensures { (words.new ≡ splice words.old (points_at + k) (curve ∷ []))
        × (numbers.new ≡ splice numbers.old (point_numbers_at + k * point_numbers_width) (x ∷ y ∷ [])) }
{
    table_rows::paste(words, table_rows::POINTS_AT + k, &[curve as u64]);
    table_rows::paste(
        numbers,
        table_rows::POINT_NUMBERS_AT + k * table_rows::POINT_NUMBERS_WIDTH,
        &[x, y],
    );
}

// A curve that is there gets a point more, else it is a new one. `store_patterns::store_pattern` does the same with many numbers at once: one promise over both would be longer
// than the two.
fn store_point(
    text: &[u8],
    p: PairLine,
    s: Counts,
    words: &mut [u64],
    numbers: &mut [f64],
) -> Result<Counts, Reason>
    requires { Sound text.now s words.old numbers.old × Fits text.now p.id }
    ensures { (m : Network) → Holds text.now m s words.old numbers.old
        → After text.now (add_point (name_in text.now p.id) p.x p.y m) result words.old numbers.old words.new numbers.new }
{
    let n = s.curves;
    let k = s.points;
    match table_find::find_at(text, words, Kind::Curves, n, p.id) {
        Some(i) => {
            if falls_behind(words, numbers, k, i, p.x) {
                return Err(Reason::XFalls);
            }
            if k < table_rows::POINTS_MOST {
                put_point(words, numbers, k, i, p.x, p.y);
                return Ok(Counts { points: k + 1, ..s });
            }
            Err(Reason::NoRoom)
        }
        None => {
            if n < table_rows::CURVES_MOST {
                if k < table_rows::POINTS_MOST {
                    table_rows::put_id(
                        text,
                        p.id,
                        n,
                        table_rows::CURVES_AT,
                        table_rows::CURVE_SLOTS_AT,
                        words,
                    );
                    put_point(words, numbers, k, n, p.x, p.y);
                    return Ok(Counts {
                        curves: n + 1,
                        points: k + 1,
                        ..s
                    });
                }
            }
            Err(Reason::NoRoom)
        }
    }
}

// The line of CURVES from `at` to `end`.
pub fn curve_line(
    text: &[u8],
    at: usize,
    end: usize,
    s: Counts,
    words: &mut [u64],
    numbers: &mut [f64],
) -> Result<Counts, Reason>
    requires { Sound text.now s words.old numbers.old × (end ≤ length text.now) }
    ensures { (m : Network) → Holds text.now m s words.old numbers.old
        → After text.now (curve_step (fields_at (take end text.now) at) m) result words.old numbers.old words.new numbers.new }
{
    let p = parse_pairs::read_pair(&text[..end], at)?;
    store_point(text, p, s, words, numbers)
}
