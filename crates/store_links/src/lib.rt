// Stores what a line of PIPES, PUMPS or VALVES says (parse_pipes, parse_pumps and parse_valves read it): the two nodes are looked up and the link is appended.
#![tactic(auto)]

ghost use Rattle.std.specs.Prelude.{◌≡◌, List, ℕ, ◌+◌, ◌*◌, ◌≤◌, ◌<◌, length, take};
ghost use Rattle.leaf_fields.specs.Fields.{Name, fields_at, name_in, Fits};
ghost use Rattle.scope.specs.Records.{Network};
ghost use Rattle.scope.specs.Sections.{room_links};
ghost use Rattle.scope.specs.Links.{ends_of, add_link, store_link, pipe_step, pump_step, valve_step};
ghost use Rattle.scope.specs.Tables.{id_words, link_kind_words, link_numbers_of, link_numbers};
ghost use Rattle.table_rows.specs.Table.{splice};
ghost use Rattle.scope.specs.Layout.{link_numbers_at, link_numbers_width, record_words, room_numbers};
ghost use Rattle.table_rows.specs.Adding.{link_added};
ghost use Rattle.table_rows.specs.Holding.{Words, Holds, Sound, After};
ghost use Rattle.parse_pipes.specs.Lines.{kind_in, line_in};
ghost use Rattle.store_links.specs.Storing.{link_in, ends_in, EndsAs};

use leaf_fields::Span;
use parse_pipes::{LinkLine, LinkNames};
use scope::{Counts, Kind, LinkKind, Reason};
use table_codes::Coded;

// The places of the two nodes.
#[derive(Clone, Copy)]
struct Ends {
    start: usize,
    end: usize,
}

#[tactic(auto, unfolding(scope::specs::Links::ends_of))]
fn find_ends(text: &[u8], names: LinkNames, nodes: usize, words: &[u64]) -> Result<Ends, Reason>
    requires { (m : Network) × Words text.now m words.now × (nodes ≡ length m.nodes) }
    ensures { (m : Network) → Words text.now m words.now → nodes ≡ length m.nodes
        → EndsAs (ends_of (name_in text.now names.start) (name_in text.now names.end) m) result }
{
    let start = table_find::node_named(text, words, nodes, names.start).ok_or(Reason::NotFound)?;
    let end = table_find::node_named(text, words, nodes, names.end).ok_or(Reason::NotFound)?;
    Ok(Ends { start, end })
}

// The kind; a pipe's status or a valve's type; a pump's or a valve's curve.
fn kind_words(text: &[u8], kind: LinkKind) -> [u64; 4]
    ensures { result ≡ link_kind_words (kind_in text.now kind) }
{
    match kind {
        LinkKind::Pipe(p) => [table_codes::PIPE, p.status.code(), 0, 0],
        LinkKind::Pump(p) => {
            let c = table_rows::name_words(text, p.head);
            [
                table_codes::PUMP,
                0,
                c[table_rows::NAME_PLACE],
                c[table_rows::NAME_LENGTH],
            ]
        }
        LinkKind::Valve(v) => {
            let c = table_rows::name_words(text, v.curve);
            [
                table_codes::VALVE,
                v.valve_type.code(),
                c[table_rows::NAME_PLACE],
                c[table_rows::NAME_LENGTH],
            ]
        }
    }
}

fn kind_numbers(kind: LinkKind) -> [f64; 4]
    ensures { (text : List ℕ) → result ≡ link_numbers_of (kind_in text kind) }
{
    match kind {
        LinkKind::Pipe(p) => [p.long, p.diameter, p.roughness, p.minor],
        LinkKind::Pump(p) => [p.speed, p.power, 0.0, 0.0],
        LinkKind::Valve(v) => [v.setting, v.diameter, 0.0, v.minor],
    }
}

// A link, number n; `who` are the words of its id.
fn put_link(
    text: &[u8],
    words: &mut [u64],
    numbers: &mut [f64],
    n: usize,
    who: [u64; table_rows::ID_WIDTH],
    ends: Ends,
    kind: LinkKind,
)
    requires { (n < room_links) × (length words.old ≡ record_words) × (length numbers.old ≡ room_numbers) }
    ensures { (id : Name) → who ≡ id_words id
        → (words.new ≡ link_added words.old n (link_in text.now id ends kind))
        × (numbers.new ≡ splice numbers.old (link_numbers_at + n * link_numbers_width) (link_numbers (link_in text.now id ends kind))) }
{
    let k = kind_words(text, kind);
    let x = kind_numbers(kind);
    table_rows::paste(
        words,
        table_rows::LINKS_AT + n * table_rows::LINKS_WIDTH,
        &[
            who[table_rows::ID_PLACE],
            who[table_rows::ID_LENGTH],
            who[table_rows::ID_KEY],
            ends.start as u64,
            ends.end as u64,
            k[0],
            k[1],
            k[2],
            k[3],
        ],
    );
    let slot = table_rows::slot_of(who[table_rows::ID_KEY]);
    table_rows::mark(words, table_rows::LINK_SLOTS_AT + slot, n);
    table_rows::paste(
        numbers,
        table_rows::LINK_NUMBERS_AT + n * table_rows::LINK_NUMBERS_WIDTH,
        &x,
    );
}

// The link is appended, unless its id is used or there is no room.
fn add_link(
    text: &[u8],
    id: Span,
    ends: Ends,
    kind: LinkKind,
    s: Counts,
    words: &mut [u64],
    numbers: &mut [f64],
) -> Result<Counts, Reason>
    requires { Sound text.now s words.old numbers.old × Fits text.now id }
    ensures { (m : Network) → Holds text.now m s words.old numbers.old
        → After text.now (add_link (name_in text.now id) (ends_in ends) (kind_in text.now kind) m) result words.old
        numbers.old words.new numbers.new }
{
    let n = s.links;
    let who = table_rows::id_words(text, id);
    let found = table_find::find(
        text,
        words,
        Kind::Links,
        n,
        who[table_rows::ID_KEY],
        leaf_fields::letters_of(text, id),
    );
    if found.is_some() {
        return Err(Reason::Used);
    }
    if n < table_rows::LINKS_MOST {
        put_link(text, words, numbers, n, who, ends, kind);
        return Ok(Counts { links: n + 1, ..s });
    }
    Err(Reason::NoRoom)
}

// The nodes of a pipe or a valve are looked up after all its fields.
fn store_link(
    text: &[u8],
    line: LinkLine,
    s: Counts,
    words: &mut [u64],
    numbers: &mut [f64],
) -> Result<Counts, Reason>
    requires { Sound text.now s words.old numbers.old × Fits text.now line.names.id }
    ensures { (m : Network) → Holds text.now m s words.old numbers.old
        → After text.now (store_link (line_in text.now line) m) result words.old numbers.old words.new numbers.new }
{
    let ends = find_ends(text, line.names, s.nodes, words)?;
    add_link(text, line.names.id, ends, line.kind, s, words, numbers)
}

// The line of PIPES from `at` to `end`.
pub fn pipe_line(
    text: &[u8],
    at: usize,
    end: usize,
    s: Counts,
    words: &mut [u64],
    numbers: &mut [f64],
) -> Result<Counts, Reason>
    requires { Sound text.now s words.old numbers.old × (end ≤ length text.now) }
    ensures { (m : Network) → Holds text.now m s words.old numbers.old
        → After text.now (pipe_step (fields_at (take end text.now) at) m) result words.old numbers.old words.new numbers.new }
{
    let line = parse_pipes::read_pipe(&text[..end], at)?;
    store_link(text, line, s, words, numbers)
}

// The line of VALVES from `at` to `end`.
pub fn valve_line(
    text: &[u8],
    at: usize,
    end: usize,
    s: Counts,
    words: &mut [u64],
    numbers: &mut [f64],
) -> Result<Counts, Reason>
    requires { Sound text.now s words.old numbers.old × (end ≤ length text.now) }
    ensures { (m : Network) → Holds text.now m s words.old numbers.old
        → After text.now (valve_step (fields_at (take end text.now) at) m) result words.old numbers.old words.new numbers.new }
{
    let line = parse_valves::read_valve(&text[..end], at)?;
    store_link(text, line, s, words, numbers)
}

// The line of PUMPS from `at` to `end`. Its nodes are looked up before its pairs are read.
pub fn pump_line(
    text: &[u8],
    at: usize,
    end: usize,
    s: Counts,
    words: &mut [u64],
    numbers: &mut [f64],
) -> Result<Counts, Reason>
    requires { Sound text.now s words.old numbers.old × (end ≤ length text.now) }
    ensures { (m : Network) → Holds text.now m s words.old numbers.old
        → After text.now (pump_step (fields_at (take end text.now) at) m) result words.old numbers.old words.new numbers.new }
{
    let names = parse_pipes::read_names(&text[..end], at)?;
    let ends = find_ends(text, names, s.nodes, words)?;
    let pump = parse_pumps::read_pairs(&text[..end], names.end.end)?;
    add_link(
        text,
        names.id,
        ends,
        LinkKind::Pump(pump),
        s,
        words,
        numbers,
    )
}
