// Stores what a line of DEMANDS says, as parse_series reads it: the first line of a junction takes the place of the demand of its own line.
#![tactic(auto)]

ghost use Rattle.std.specs.Prelude.{◌≡◌, List, [], ◌∷◌, ℕ, ◌+◌, ◌*◌, ◌≤◌, ◌<◌, length, take, get_or};
ghost use Rattle.leaf_fields.specs.Fields.{fields_at, name_in, Fits};
ghost use Rattle.scope.specs.Sections.{room_demands};
ghost use Rattle.scope.specs.Records.{Network, no_demand};
ghost use Rattle.scope.specs.Series.{demand_at, own_from, add_demand, set_demand, demand_step};
ghost use Rattle.scope.specs.Tables.{demand_words};
ghost use Rattle.parse_fields.specs.Taking.{opt_in, MayFit};
ghost use Rattle.table_rows.specs.Table.{splice};
ghost use Rattle.scope.specs.Layout.{demands_at, demands_width, demand_numbers_at, record_words, room_numbers};
ghost use Rattle.table_rows.specs.Holding.{Words, Holds, Sound, After};
ghost use Rattle.store_demands.specs.Storing.{is_own};

use parse_series::DemandLine;
use scope::{Counts, Reason};

// Whether demand number k is that of the junction's own line.
fn is_own(words: &[u64], k: usize, node: usize) -> bool
    requires { (k < room_demands) × (length words.now ≡ record_words) }
    ensures { (text : List ℕ) (m : Network) → Words text m words.now → k < length m.demands → result ≡ is_own (get_or m.demands k no_demand) node }
{
    let row = table_rows::DEMANDS_AT + k * table_rows::DEMANDS_WIDTH;
    if words[row + table_rows::DEMAND_NODE] == node as u64 {
        return words[row + table_rows::DEMAND_OWN] == 1;
    }
    false
}

// The place of the demand of the junction's own line, if it stands still: it is the first in its slot.
fn own_demand(words: &[u64], demands: usize, node: usize) -> Option<usize>
    requires { (demands ≤ room_demands) × (length words.now ≡ record_words) }
    ensures { (text : List ℕ) (m : Network) → Words text m words.now → demands ≡ length m.demands → result ≡ own_from 0 node m.demands }
{
    let k = table_find::first_in_slot(
        words,
        table_rows::DEMAND_SLOTS_AT + node % table_rows::DEMAND_SLOTS_MOST,
        demands,
    );
    if k < demands {
        if is_own(words, k, node) {
            return Some(k);
        }
    }
    None
}

// Demand number k.
fn put_demand(
    text: &[u8],
    d: DemandLine,
    node: usize,
    k: usize,
    words: &mut [u64],
    numbers: &mut [f64],
)
    requires { (k < room_demands) × (length words.old ≡ record_words) × (length numbers.old ≡ room_numbers) }
    ensures { (words.new ≡ splice words.old (demands_at + k * demands_width)
        (demand_words (demand_at node d.base (opt_in text.now d.pattern)))) × (numbers.new ≡ splice numbers.old (demand_numbers_at + k) (d.base ∷ [])) }
{
    let p = table_rows::name_words(text, d.pattern);
    table_rows::paste(
        words,
        table_rows::DEMANDS_AT + k * table_rows::DEMANDS_WIDTH,
        &[
            node as u64,
            0,
            p[table_rows::NAME_PLACE],
            p[table_rows::NAME_LENGTH],
            0,
        ],
    );
    table_rows::paste(numbers, table_rows::DEMAND_NUMBERS_AT + k, &[d.base]);
}

// The junction's own demand gives its room to its first line.
fn add_demand(
    text: &[u8],
    d: DemandLine,
    node: usize,
    s: Counts,
    words: &mut [u64],
    numbers: &mut [f64],
) -> Result<Counts, Reason>
    requires { Sound text.now s words.old numbers.old × MayFit text.now d.pattern × (node < s.nodes) }
    ensures { (m : Network) → Holds text.now m s words.old numbers.old
        → After text.now (add_demand node d.base (opt_in text.now d.pattern) m) result words.old numbers.old words.new numbers.new }
{
    let n = s.demands;
    match own_demand(words, n, node) {
        Some(k) => {
            put_demand(text, d, node, k, words, numbers);
            Ok(s)
        }
        None => {
            if n < table_rows::DEMANDS_MOST {
                put_demand(text, d, node, n, words, numbers);
                table_rows::mark(
                    words,
                    table_rows::DEMAND_SLOTS_AT + node % table_rows::DEMAND_SLOTS_MOST,
                    n,
                );
                return Ok(Counts {
                    demands: n + 1,
                    ..s
                });
            }
            Err(Reason::NoRoom)
        }
    }
}

fn store_demand(
    text: &[u8],
    d: DemandLine,
    s: Counts,
    words: &mut [u64],
    numbers: &mut [f64],
) -> Result<Counts, Reason>
    requires { Sound text.now s words.old numbers.old × Fits text.now d.id × MayFit text.now d.pattern }
    ensures { (m : Network) → Holds text.now m s words.old numbers.old
        → After text.now (set_demand (name_in text.now d.id) d.base (opt_in text.now d.pattern) m) result words.old
        numbers.old words.new numbers.new }
{
    let i = table_find::node_named(text, words, s.nodes, d.id).ok_or(Reason::NotFound)?;
    if table_find::is_junction(words, i) {
        return add_demand(text, d, i, s, words, numbers);
    }
    Err(Reason::WrongKind)
}

// The line of DEMANDS from `at` to `end`.
pub fn demand_line(
    text: &[u8],
    at: usize,
    end: usize,
    s: Counts,
    words: &mut [u64],
    numbers: &mut [f64],
) -> Result<Counts, Reason>
    requires { Sound text.now s words.old numbers.old × (end ≤ length text.now) }
    ensures { (m : Network) → Holds text.now m s words.old numbers.old
        → After text.now (demand_step (fields_at (take end text.now) at) m) result words.old numbers.old words.new numbers.new }
{
    let d = parse_series::read_demand(&text[..end], at)?;
    store_demand(text, d, s, words, numbers)
}
