// Stores what a line of JUNCTIONS, RESERVOIRS or TANKS says, as parse_nodes and parse_tanks read it: the name is looked up and the record stored.
#![tactic(auto)]

ghost use Rattle.std.specs.Prelude.{◌≡◌, ◌+◌, ◌*◌, ◌%◌, ◌≤◌, ◌<◌, length, take};
ghost use Rattle.leaf_fields.specs.Fields.{Name, fields_at, name_in, Fits, opt_in, MayFit};
ghost use Rattle.scope.specs.Records.{Network, NodeKind};
ghost use Rattle.scope.specs.Sections.{room_nodes, room_demands};
ghost use Rattle.scope.specs.Nodes.{junction_node, junction_demand, add_junction, add_node, junction_step, reservoir_step, tank_step};
ghost use Rattle.scope.specs.Tables.{key_of, marked, slot_of, id_words, node_numbers, demand_numbers};
ghost use Rattle.table_rows.specs.Table.{splice};
ghost use Rattle.scope.specs.Layout.{nodes_at, nodes_width, node_slots_at, node_numbers_at, node_numbers_width, demands_at, demands_width, demand_slots_at, demand_numbers_at};
ghost use Rattle.scope.specs.Layout.{record_words, room_numbers, demand_slots_long};
ghost use Rattle.table_rows.specs.Adding.{node_added, demand_added};
ghost use Rattle.table_rows.specs.Holding.{Words, Holds, Sound, After};
ghost use Rattle.parse_nodes.specs.Lines.{junction_in, reservoir_in, basin_in, node_in, NodeFits};
ghost use Rattle.store_nodes.specs.Storing.{new_node, new_words, own_words, KindAs, NewId};

use leaf_fields::Span;
use parse_nodes::{JunctionLine, NodeLine, ReservoirLine, TankLine};
use scope::{Counts, Kind, Reason};

// ---- storing them

// The words of node `i`, which has no place yet: `who` are its id's; a reservoir has a pattern's name, a tank a curve's; `last` is what its kind keeps in the last word.
fn put_node(
    text: &[u8],
    i: usize,
    who: [u64; table_rows::ID_WIDTH],
    kind: u64,
    name: Option<Span>,
    last: u64,
    words: &mut [u64],
)
    requires { (i < room_nodes) × (length words.old ≡ record_words) }
    ensures { (id : Name) → who ≡ id_words id
        → words.new ≡ marked (splice words.old (nodes_at + i * nodes_width) (new_words id kind (opt_in text.now name) last))
        (node_slots_at + slot_of (key_of id.letters)) (i + 1) }
{
    let which = table_rows::name_words(text, name);
    table_rows::paste(
        words,
        table_rows::NODES_AT + i * table_rows::NODES_WIDTH,
        &[
            who[table_rows::ID_PLACE],
            who[table_rows::ID_LENGTH],
            who[table_rows::ID_KEY],
            kind,
            which[table_rows::NAME_PLACE],
            which[table_rows::NAME_LENGTH],
            last,
            0,
        ],
    );
    let slot = table_rows::slot_of(who[table_rows::ID_KEY]);
    table_rows::mark(words, table_rows::NODE_SLOTS_AT + slot, i);
}

// The words of demand `d`: node `n` has it from its own line.
fn put_demand(text: &[u8], d: usize, n: usize, pattern: Option<Span>, words: &mut [u64])
    requires { (d < room_demands) × (length words.old ≡ record_words) }
    ensures { words.new ≡ marked (splice words.old (demands_at + d * demands_width) (own_words n (opt_in text.now pattern)))
        (demand_slots_at + n % demand_slots_long) (d + 1) }
{
    let which = table_rows::name_words(text, pattern);
    table_rows::paste(
        words,
        table_rows::DEMANDS_AT + d * table_rows::DEMANDS_WIDTH,
        &[
            n as u64,
            1,
            which[table_rows::NAME_PLACE],
            which[table_rows::NAME_LENGTH],
            0,
        ],
    );
    table_rows::mark(
        words,
        table_rows::DEMAND_SLOTS_AT + n % table_rows::DEMAND_SLOTS_MOST,
        d,
    );
}

// A junction as node `n`, with its own demand as demand `d`; `who` are the words of its id.
fn put_junction(
    text: &[u8],
    j: JunctionLine,
    who: [u64; table_rows::ID_WIDTH],
    n: usize,
    d: usize,
    words: &mut [u64],
    numbers: &mut [f64],
)
    requires { (n < room_nodes) × (d < room_demands) × (length words.old ≡ record_words) × (length numbers.old ≡ room_numbers) × (who ≡ id_words (name_in text.now j.id)) }
    ensures { (words.new ≡ demand_added (node_added words.old n (junction_node (junction_in text.now j))) d (junction_demand n (junction_in text.now j)))
        × (numbers.new ≡ splice (splice numbers.old (node_numbers_at + n * node_numbers_width)
        (node_numbers (junction_node (junction_in text.now j)))) (demand_numbers_at + d) (demand_numbers (junction_demand n (junction_in text.now j)))) }
{
    let disabled = table_rows::flag_of(j.disabled);
    put_node(text, n, who, table_codes::JUNCTION, None, disabled, words);
    put_demand(text, d, n, j.pattern, words);
    table_rows::paste(
        numbers,
        table_rows::NODE_NUMBERS_AT + n * table_rows::NODE_NUMBERS_WIDTH,
        &[j.elevation, 0.0, 0.0, 0.0, 0.0, 0.0, 0.0, 0.0],
    );
    table_rows::paste(numbers, table_rows::DEMAND_NUMBERS_AT + d, &[j.demand]);
}

// The words of the id of one more node: no node has it, and there is room for one.
fn new_id(
    text: &[u8],
    id: Span,
    s: Counts,
    words: &[u64],
) -> Result<[u64; table_rows::ID_WIDTH], Reason>
    requires { (m : Network) × Words text.now m words.now × (s.nodes ≡ length m.nodes) }
    ensures { (m : Network) → Words text.now m words.now → s.nodes ≡ length m.nodes → NewId (name_in text.now id) m result }
{
    let who = table_rows::id_words(text, id);
    let letters = leaf_fields::letters_of(text, id);
    if table_find::find(
        text,
        words,
        Kind::Nodes,
        s.nodes,
        who[table_rows::ID_KEY],
        letters,
    )
    .is_some()
    {
        return Err(Reason::Used);
    }
    if s.nodes < table_rows::NODES_MOST {
        return Ok(who);
    }
    Err(Reason::NoRoom)
}

fn store_junction(
    text: &[u8],
    j: JunctionLine,
    s: Counts,
    words: &mut [u64],
    numbers: &mut [f64],
) -> Result<Counts, Reason>
    requires { Sound text.now s words.old numbers.old }
    ensures { Fits text.now j.id → MayFit text.now j.pattern → (m : Network) → Holds text.now m s words.old numbers.old
        → After text.now (add_junction (junction_in text.now j) m) result words.old numbers.old words.new numbers.new }
{
    let n = s.nodes;
    let d = s.demands;
    let who = new_id(text, j.id, s, words)?;
    if d < table_rows::DEMANDS_MOST {
        put_junction(text, j, who, n, d, words, numbers);
        return Ok(Counts {
            nodes: n + 1,
            demands: d + 1,
            ..s
        });
    }
    Err(Reason::NoRoom)
}

// A reservoir or a tank: what its kind keeps stands in the words and the numbers that are given.
fn store_node(
    text: &[u8],
    id: Span,
    kind: u64,
    name: Option<Span>,
    last: u64,
    amounts: &[f64],
    s: Counts,
    words: &mut [u64],
    numbers: &mut [f64],
) -> Result<Counts, Reason>
    requires { Sound text.now s words.old numbers.old × (length amounts.now ≡ node_numbers_width) }
    ensures { Fits text.now id → (k : NodeKind) → KindAs text.now k kind name last amounts.now → (m : Network)
        → Holds text.now m s words.old numbers.old
        → After text.now (add_node (new_node (name_in text.now id) k) m) result words.old numbers.old words.new numbers.new }
{
    let n = s.nodes;
    let who = new_id(text, id, s, words)?;
    put_node(text, n, who, kind, name, last, words);
    table_rows::paste(
        numbers,
        table_rows::NODE_NUMBERS_AT + n * table_rows::NODE_NUMBERS_WIDTH,
        amounts,
    );
    Ok(Counts { nodes: n + 1, ..s })
}

fn store_reservoir(
    text: &[u8],
    r: ReservoirLine,
    s: Counts,
    words: &mut [u64],
    numbers: &mut [f64],
) -> Result<Counts, Reason>
    requires { Sound text.now s words.old numbers.old }
    ensures { Fits text.now r.id → MayFit text.now r.pattern → (m : Network) → Holds text.now m s words.old numbers.old
        → After text.now (add_node (reservoir_in text.now r) m) result words.old numbers.old words.new numbers.new }
{
    store_node(
        text,
        r.id,
        table_codes::RESERVOIR,
        r.pattern,
        0,
        &[r.elevation, 0.0, 0.0, 0.0, 0.0, 0.0, 0.0, 0.0],
        s,
        words,
        numbers,
    )
}

fn store_tank(
    text: &[u8],
    t: TankLine,
    s: Counts,
    words: &mut [u64],
    numbers: &mut [f64],
) -> Result<Counts, Reason>
    requires { Sound text.now s words.old numbers.old }
    ensures { Fits text.now t.id → (m : Network) → Holds text.now m s words.old numbers.old
        → After text.now (add_node (basin_in text.now t) m) result words.old numbers.old words.new numbers.new }
{
    let tank = t.tank;
    let overflow = table_rows::flag_of(tank.overflow);
    store_node(
        text,
        t.id,
        table_codes::TANK,
        tank.curve,
        overflow,
        &[
            tank.elevation,
            tank.initial,
            tank.minimum,
            tank.maximum,
            tank.diameter,
            tank.volume,
            0.0,
            0.0,
        ],
        s,
        words,
        numbers,
    )
}

// What a line of RESERVOIRS or TANKS says, stored.
fn store_line(
    text: &[u8],
    line: NodeLine,
    s: Counts,
    words: &mut [u64],
    numbers: &mut [f64],
) -> Result<Counts, Reason>
    requires { Sound text.now s words.old numbers.old }
    ensures { NodeFits text.now line → (m : Network) → Holds text.now m s words.old numbers.old
        → After text.now (add_node (node_in text.now line) m) result words.old numbers.old words.new numbers.new }
{
    match line {
        NodeLine::Reservoir(r) => store_reservoir(text, r, s, words, numbers),
        NodeLine::Tank(t) => store_tank(text, t, s, words, numbers),
    }
}

// ---- the lines of the three sections

// The line of JUNCTIONS from `at` to `end`.
pub fn junction_line(
    text: &[u8],
    at: usize,
    end: usize,
    s: Counts,
    words: &mut [u64],
    numbers: &mut [f64],
) -> Result<Counts, Reason>
    requires { Sound text.now s words.old numbers.old × (end ≤ length text.now) }
    ensures { (m : Network) → Holds text.now m s words.old numbers.old
        → After text.now (junction_step (fields_at (take end text.now) at) m) result words.old numbers.old words.new numbers.new }
{
    let j = parse_nodes::read_junction(&text[..end], at)?;
    store_junction(text, j, s, words, numbers)
}

// The line of RESERVOIRS from `at` to `end`.
pub fn reservoir_line(
    text: &[u8],
    at: usize,
    end: usize,
    s: Counts,
    words: &mut [u64],
    numbers: &mut [f64],
) -> Result<Counts, Reason>
    requires { Sound text.now s words.old numbers.old × (end ≤ length text.now) }
    ensures { (m : Network) → Holds text.now m s words.old numbers.old
        → After text.now (reservoir_step (fields_at (take end text.now) at) m) result words.old numbers.old words.new numbers.new }
{
    let line = parse_nodes::read_reservoir(&text[..end], at)?;
    store_line(text, line, s, words, numbers)
}

// The line of TANKS from `at` to `end`.
pub fn tank_line(
    text: &[u8],
    at: usize,
    end: usize,
    s: Counts,
    words: &mut [u64],
    numbers: &mut [f64],
) -> Result<Counts, Reason>
    requires { Sound text.now s words.old numbers.old × (end ≤ length text.now) }
    ensures { (m : Network) → Holds text.now m s words.old numbers.old
        → After text.now (tank_step (fields_at (take end text.now) at) m) result words.old numbers.old words.new numbers.new }
{
    let line = parse_tanks::read_tank(&text[..end], at)?;
    store_line(text, line, s, words, numbers)
}
