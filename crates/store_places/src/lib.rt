// Stores what a line of EMITTERS says, as parse_pairs reads it, or of COORDINATES, as parse_pairs::read_pair does: the node is looked up and changed in its place.
#![tactic(auto)]

ghost use Rattle.std.specs.Prelude.{◌≤◌, length, take};
ghost use Rattle.leaf_fields.specs.Fields.{fields_at, name_in};
ghost use Rattle.scope.specs.Records.{Network};
ghost use Rattle.scope.specs.Nodes.{set_emitter, set_place, emitter_step, coordinates_step};
ghost use Rattle.table_rows.specs.Holding.{Holds, Sound, After};

use parse_pairs::{EmitterLine, PairLine};
use scope::{Counts, Reason};

// ---- storing them

// The coefficient takes the emitter's place in the junction's numbers.
fn store_emitter(
    text: &[u8],
    e: EmitterLine,
    s: Counts,
    words: &mut [u64],
    numbers: &mut [f64],
) -> Result<Counts, Reason>
    requires { Sound text.now s words.old numbers.old }
    ensures { (m : Network) → Holds text.now m s words.old numbers.old
        → After text.now (set_emitter (name_in text.now e.id) e.coefficient m) result words.old numbers.old words.new numbers.new }
{
    let i = table_find::node_named(text, words, s.nodes, e.id).ok_or(Reason::NotFound)?;
    if table_find::is_junction(words, i) {
        table_rows::paste(
            numbers,
            table_rows::NODE_NUMBERS_AT
                + i * table_rows::NODE_NUMBERS_WIDTH
                + table_rows::JUNCTION_EMITTER,
            &[e.coefficient],
        );
        return Ok(s);
    }
    Err(Reason::WrongKind)
}

// The place is a word and two numbers of a node, x and then y.
fn store_coordinates(
    text: &[u8],
    p: PairLine,
    s: Counts,
    words: &mut [u64],
    numbers: &mut [f64],
) -> Result<Counts, Reason>
    requires { Sound text.now s words.old numbers.old }
    ensures { (m : Network) → Holds text.now m s words.old numbers.old
        → After text.now (set_place (name_in text.now p.id) (record { x = p.x; y = p.y }) m) result words.old
        numbers.old words.new numbers.new }
{
    let i = table_find::node_named(text, words, s.nodes, p.id).ok_or(Reason::NotFound)?;
    table_rows::paste(
        words,
        table_rows::NODES_AT + i * table_rows::NODES_WIDTH + table_rows::NODE_PLACED,
        &[1],
    );
    table_rows::paste(
        numbers,
        table_rows::NODE_NUMBERS_AT + i * table_rows::NODE_NUMBERS_WIDTH + table_rows::NODE_X,
        &[p.x, p.y],
    );
    Ok(s)
}

// ---- the lines of the two sections

// The line of EMITTERS from `at` to `end`.
pub fn emitter_line(
    text: &[u8],
    at: usize,
    end: usize,
    s: Counts,
    words: &mut [u64],
    numbers: &mut [f64],
) -> Result<Counts, Reason>
    requires { Sound text.now s words.old numbers.old × (end ≤ length text.now) }
    ensures { (m : Network) → Holds text.now m s words.old numbers.old
        → After text.now (emitter_step (fields_at (take end text.now) at) m) result words.old numbers.old words.new numbers.new }
{
    let e = parse_pairs::read_emitter(&text[..end], at)?;
    store_emitter(text, e, s, words, numbers)
}

// The line of COORDINATES from `at` to `end`.
pub fn coordinates_line(
    text: &[u8],
    at: usize,
    end: usize,
    s: Counts,
    words: &mut [u64],
    numbers: &mut [f64],
) -> Result<Counts, Reason>
    requires { Sound text.now s words.old numbers.old × (end ≤ length text.now) }
    ensures { (m : Network) → Holds text.now m s words.old numbers.old
        → After text.now (coordinates_step (fields_at (take end text.now) at) m) result words.old numbers.old words.new numbers.new }
{
    let p = parse_pairs::read_pair(&text[..end], at)?;
    store_coordinates(text, p, s, words, numbers)
}
