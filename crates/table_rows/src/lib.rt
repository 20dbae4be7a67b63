// The two tables that the caller lends: their layout, and what is stored of a record. Each is handed on as a slice of its own: in a struct of two `&mut` slices
// every contract would have to say besides that the slices are still the caller's, and without that the entry points' promises did not close (tried).
#![tactic(auto)]

ghost use Rattle.std.specs.Prelude.{◌≡◌, ◌+◌, ◌*◌, ◌≤◌, ◌<◌, length, replicate};
ghost use Rattle.scope.specs.Sections.{room_curves};
ghost use Rattle.leaf_fields.specs.Fields.{name_in};
ghost use Rattle.scope.specs.Records.{zero_f};
ghost use Rattle.scope.specs.Series.{place_in};
ghost use Rattle.scope.specs.Tables.{marked, slot_of, id_slot, id_words, name_words, flag, index_no};
ghost use Rattle.scope.specs.Layout.{patterns_at, pattern_slots_at, id_width, record_words};
ghost use Rattle.table_rows.specs.Table.{splice};
ghost use Rattle.table_rows.specs.Holding.{opt_in, Below};

use leaf_fields::Span;
use scope::{Counts, Reason};

// ---- the layout (docs/LAYOUT.md): a place is the place before it plus what stands there. Nothing else says so but crates/scope/specs/Layout.antt, and
// `table_layout` proves that the two agree.

// How many records of each kind there is room for, and how long a text may be.

pub const TEXT_ROOM: usize = 65536;

pub const LINES_ROOM: usize = 65536;

pub const NODES_MOST: usize = 256;

pub const LINKS_MOST: usize = 256;

pub const CURVES_MOST: usize = 64;

pub const POINTS_MOST: usize = 1024;

pub const PATTERNS_MOST: usize = 64;

pub const MULTIPLIERS_MOST: usize = 2048;

pub const DEMANDS_MOST: usize = 512;

pub const TIMES_MOST: usize = 6;

pub const RULES_MOST: usize = 64;

pub const CLAUSES_MOST: usize = 512;

// How many slots each kind has that is looked up by name; a demand has its junction's.
pub const SLOTS_MOST: usize = 615;

pub const DEMAND_SLOTS_MOST: usize = NODES_MOST;

// An id: the place of the name, its length, its key.
pub const ID_PLACE: usize = 0;

pub const ID_LENGTH: usize = ID_PLACE + 1;

pub const ID_KEY: usize = ID_LENGTH + 1;

pub const ID_WIDTH: usize = ID_KEY + 1;

// A name that may be missing: place and length.
pub const NAME_PLACE: usize = 0;

pub const NAME_LENGTH: usize = NAME_PLACE + 1;

pub const NAME_WIDTH: usize = NAME_LENGTH + 1;

// The words of a node: its id, then these.
pub const NODE_KIND: usize = ID_WIDTH;

pub const NODE_NAME: usize = NODE_KIND + 1;

pub const NODE_DETAIL: usize = NODE_NAME + NAME_WIDTH;

pub const NODE_PLACED: usize = NODE_DETAIL + 1;

pub const NODES_WIDTH: usize = NODE_PLACED + 1;

// The words of a link: its id, then these.
pub const LINK_START: usize = ID_WIDTH;

pub const LINK_END: usize = LINK_START + 1;

pub const LINK_KIND: usize = LINK_END + 1;

pub const LINK_DETAIL: usize = LINK_KIND + 1;

pub const LINK_NAME: usize = LINK_DETAIL + 1;

pub const LINKS_WIDTH: usize = LINK_NAME + NAME_WIDTH;

// A curve and a pattern have their ids, a point and a multiplier the place of their curve or pattern.
pub const CURVES_WIDTH: usize = ID_WIDTH;

pub const POINTS_WIDTH: usize = 1;

pub const PATTERNS_WIDTH: usize = ID_WIDTH;

pub const MULTIPLIERS_WIDTH: usize = 1;

// The words of a demand.
pub const DEMAND_NODE: usize = 0;

pub const DEMAND_OWN: usize = DEMAND_NODE + 1;

pub const DEMAND_NAME: usize = DEMAND_OWN + 1;

pub const DEMAND_INDEX: usize = DEMAND_NAME + NAME_WIDTH;

pub const DEMANDS_WIDTH: usize = DEMAND_INDEX + 1;

// The words of a time.
pub const TIME_SET: usize = 0;

pub const TIME_SECONDS: usize = TIME_SET + 1;

pub const TIMES_WIDTH: usize = TIME_SECONDS + 1;

// The words of a rule: its id, then these.
pub const RULE_FIRST: usize = ID_WIDTH;

pub const RULE_COUNT: usize = RULE_FIRST + 1;

pub const RULE_PRIORITY_SET: usize = RULE_COUNT + 1;

pub const RULE_PRIORITY: usize = RULE_PRIORITY_SET + 1;

pub const RULES_WIDTH: usize = RULE_PRIORITY + 1;

// The words of a clause, which is a condition or an action.
pub const CLAUSE_KIND: usize = 0;

pub const CONDITION_OPERATOR: usize = CLAUSE_KIND + 1;

pub const CONDITION_TARGET: usize = CONDITION_OPERATOR + 1;

pub const CONDITION_COMPARISON: usize = CONDITION_TARGET + 1;

pub const ACTION_ELSE: usize = CLAUSE_KIND + 1;

pub const ACTION_LINK: usize = ACTION_ELSE + 1;

pub const CLAUSE_STATUS: usize = CONDITION_COMPARISON + 1;

pub const CLAUSE_NAME: usize = CLAUSE_STATUS + 1;

pub const CLAUSES_WIDTH: usize = CLAUSE_NAME + NAME_WIDTH;

// The numbers of a node, by its kind.
pub const NODE_ELEVATION: usize = 0;

pub const JUNCTION_EMITTER: usize = NODE_ELEVATION + 1;

pub const TANK_INITIAL_LEVEL: usize = NODE_ELEVATION + 1;

pub const TANK_MINIMUM_LEVEL: usize = TANK_INITIAL_LEVEL + 1;

pub const TANK_MAXIMUM_LEVEL: usize = TANK_MINIMUM_LEVEL + 1;

pub const TANK_DIAMETER: usize = TANK_MAXIMUM_LEVEL + 1;

pub const TANK_MINIMUM_VOLUME: usize = TANK_DIAMETER + 1;

pub const NODE_X: usize = TANK_MINIMUM_VOLUME + 1;

pub const NODE_Y: usize = NODE_X + 1;

pub const NODE_NUMBERS_WIDTH: usize = NODE_Y + 1;

// The numbers of a link, by its kind.
pub const PIPE_LENGTH: usize = 0;

pub const PIPE_DIAMETER: usize = PIPE_LENGTH + 1;

pub const PIPE_ROUGHNESS: usize = PIPE_DIAMETER + 1;

pub const PIPE_MINOR_LOSS: usize = PIPE_ROUGHNESS + 1;

pub const PUMP_SPEED: usize = 0;

pub const PUMP_POWER: usize = PUMP_SPEED + 1;

pub const VALVE_SETTING: usize = 0;

pub const VALVE_DIAMETER: usize = VALVE_SETTING + 1;

pub const VALVE_MINOR_LOSS: usize = PIPE_MINOR_LOSS;

pub const LINK_NUMBERS_WIDTH: usize = PIPE_MINOR_LOSS + 1;

// The numbers of a point, and those of which each record has one.
pub const POINT_X: usize = 0;

pub const POINT_Y: usize = POINT_X + 1;

pub const POINT_NUMBERS_WIDTH: usize = POINT_Y + 1;

pub const MULTIPLIER_NUMBERS_WIDTH: usize = 1;

pub const DEMAND_NUMBERS_WIDTH: usize = 1;

pub const CLAUSE_NUMBERS_WIDTH: usize = 1;

// Where each region of the words starts: the records, then the slots, then the counts.
pub const NODES_AT: usize = 0;

pub const LINKS_AT: usize = NODES_AT + NODES_MOST * NODES_WIDTH;

pub const CURVES_AT: usize = LINKS_AT + LINKS_MOST * LINKS_WIDTH;

pub const POINTS_AT: usize = CURVES_AT + CURVES_MOST * CURVES_WIDTH;

pub const PATTERNS_AT: usize = POINTS_AT + POINTS_MOST * POINTS_WIDTH;

pub const MULTIPLIERS_AT: usize = PATTERNS_AT + PATTERNS_MOST * PATTERNS_WIDTH;

pub const DEMANDS_AT: usize = MULTIPLIERS_AT + MULTIPLIERS_MOST * MULTIPLIERS_WIDTH;

pub const TIMES_AT: usize = DEMANDS_AT + DEMANDS_MOST * DEMANDS_WIDTH;

pub const RULES_AT: usize = TIMES_AT + TIMES_MOST * TIMES_WIDTH;

pub const CLAUSES_AT: usize = RULES_AT + RULES_MOST * RULES_WIDTH;

pub const NODE_SLOTS_AT: usize = CLAUSES_AT + CLAUSES_MOST * CLAUSES_WIDTH;

pub const LINK_SLOTS_AT: usize = NODE_SLOTS_AT + SLOTS_MOST;

pub const CURVE_SLOTS_AT: usize = LINK_SLOTS_AT + SLOTS_MOST;

pub const PATTERN_SLOTS_AT: usize = CURVE_SLOTS_AT + SLOTS_MOST;

pub const DEMAND_SLOTS_AT: usize = PATTERN_SLOTS_AT + SLOTS_MOST;

pub const RECORD_WORDS: usize = DEMAND_SLOTS_AT + DEMAND_SLOTS_MOST;

pub const COUNTS_AT: usize = RECORD_WORDS;

// The counts, each by the kind that it counts.
pub const COUNT_NODES: usize = 0;

pub const COUNT_LINKS: usize = COUNT_NODES + 1;

pub const COUNT_CURVES: usize = COUNT_LINKS + 1;

pub const COUNT_POINTS: usize = COUNT_CURVES + 1;

pub const COUNT_PATTERNS: usize = COUNT_POINTS + 1;

pub const COUNT_MULTIPLIERS: usize = COUNT_PATTERNS + 1;

pub const COUNT_DEMANDS: usize = COUNT_MULTIPLIERS + 1;

pub const COUNT_RULES: usize = COUNT_DEMANDS + 1;

pub const COUNT_CLAUSES: usize = COUNT_RULES + 1;

pub const COUNTS_WIDTH: usize = COUNT_CLAUSES + 1;

pub const WORDS_ROOM: usize = COUNTS_AT + COUNTS_WIDTH;

// Where each region of the numbers starts.
pub const NODE_NUMBERS_AT: usize = 0;

pub const LINK_NUMBERS_AT: usize = NODE_NUMBERS_AT + NODES_MOST * NODE_NUMBERS_WIDTH;

pub const POINT_NUMBERS_AT: usize = LINK_NUMBERS_AT + LINKS_MOST * LINK_NUMBERS_WIDTH;

pub const MULTIPLIER_NUMBERS_AT: usize = POINT_NUMBERS_AT + POINTS_MOST * POINT_NUMBERS_WIDTH;

pub const DEMAND_NUMBERS_AT: usize = MULTIPLIER_NUMBERS_AT
    + MULTIPLIERS_MOST * MULTIPLIER_NUMBERS_WIDTH;

pub const CLAUSE_NUMBERS_AT: usize = DEMAND_NUMBERS_AT + DEMANDS_MOST * DEMAND_NUMBERS_WIDTH;

pub const NUMBERS_ROOM: usize = CLAUSE_NUMBERS_AT + CLAUSES_MOST * CLAUSE_NUMBERS_WIDTH;

// ---- a record pasted, and a table cleared

// The record stands in the table from `at` on; the rest of the table stays.
pub fn paste<T: Copy>(table: &mut [T], at: usize, rec: &[T])
    requires { at + length rec.now ≤ length table.old }
    ensures { table.new ≡ splice table.old at rec.now }
{
    table[at..at + rec.len()].copy_from_slice(rec);
}

// ---- slots: where a walk over the rows of a table may start

// The slot of a record among those of its table, by the key of its name.
pub fn slot_of(key: u64) -> usize
    ensures { result ≡ slot_of key }
{
    (key % (SLOTS_MOST as u64)) as usize
}

// The slot at `at` is row i's, unless an earlier row has it.
pub fn mark(words: &mut [u64], at: usize, i: usize)
    requires { (at < length words.old) × (i < 65536) }
    ensures { words.new ≡ marked words.old at (i + 1) }
{
    if words[at] == 0 {
        words[at] = i as u64 + 1;
    }
}

// ---- what the words and numbers of a record are

// The place, the length and the key of a name.
pub fn id_words(text: &[u8], id: Span) -> [u64; ID_WIDTH]
    ensures { result ≡ id_words (name_in text.now id) }
{
    let l = leaf_fields::letters_of(text, id);
    [id.at as u64, l.len() as u64, table_keys::key_at(text, id)]
}

// The place and the length of a name that may be missing.
pub fn name_words(text: &[u8], f: Option<Span>) -> [u64; NAME_WIDTH]
    ensures { result ≡ name_words (opt_in text.now f) }
{
    let Some(s) = f else {
        return [0, 0];
    };
    let l = leaf_fields::letters_of(text, s);
    [s.at as u64, l.len() as u64]
}

pub fn flag_of(b: bool) -> u64
    ensures { result ≡ flag b }
{
    u64::from(b)
}

// None is 0 and a place is itself plus one.
pub fn index_number(f: Option<usize>) -> u64
    requires { Below 65536 f }
    ensures { result ≡ index_no (place_in f) }
{
    match f {
        Some(i) => i as u64 + 1,
        None => 0,
    }
}

// ---- a record that is its id alone

// A curve's name, or a pattern's, as record n of those at `base`, and its slot of those at `slots`: the record of either is its id alone.
pub fn put_id(text: &[u8], id: Span, n: usize, base: usize, slots: usize, words: &mut [u64])
    requires { (n < room_curves) × (base ≤ patterns_at) × (slots ≤ pattern_slots_at) × (length words.old ≡ record_words) }
    ensures { words.new ≡ marked (splice words.old (base + n * id_width) (id_words (name_in text.now id)))
        (slots + id_slot (name_in text.now id)) (n + 1) }
{
    let name = id_words(text, id);
    paste(words, base + n * ID_WIDTH, &name);
    let slot = slot_of(name[ID_KEY]);
    mark(words, slots + slot, n);
}
