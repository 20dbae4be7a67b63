// A name looked up among the records of its kind; and of which kind a record is.
#![tactic(auto)]

ghost use Rattle.std.specs.Prelude.{◌≡◌, List, ℕ, ◌+◌, ◌*◌, ◌≤◌, ◌<◌, length, get_or};
ghost use Rattle.leaf_fields.specs.Fields.{Name, part};
ghost use Rattle.leaf_letters.specs.Words.{same};
ghost use Rattle.scope.specs.Records.{Network, lookup, node_ids, no_node, counts_of, records_of, ids_of, no_link};
ghost use Rattle.scope.specs.Rules.{is_pipe, is_pump, is_valve};
ghost use Rattle.scope.specs.Tables.{key_of};
ghost use Rattle.scope.specs.Sections.{room_nodes, room_links};
ghost use Rattle.scope.specs.Layout.{record_words, links_at, links_width, link_kind};
ghost use Rattle.table_find.specs.Finding.{base_of, width_of, StartsAt};
ghost use Rattle.table_rows.specs.Holding.{Words, Row, Rows, SomeRow, SomeRows, OtherNames, NotInSlot, FirstInSlot, is_junction};

use leaf_fields::Span;
use scope::Kind;

// The first of `count` rows that has the slot at `at`; where none has it, past them all.
pub fn first_in_slot(words: &[u64], at: usize, count: usize) -> usize
    requires { at < length words.now }
    ensures { (result ≤ count) × NotInSlot (get_or words.now at 0) result × FirstInSlot (get_or words.now at 0) count result }
{
    let v = words[at] as usize;
    if v == 0 {
        return count;
    }
    if count < v {
        return count;
    }
    v - 1
}

// Whether the row at `row` has the name: its key is compared first, then its length.
// The key has the first eight letters, so only longer names are compared letter by letter.
fn row_is(text: &[u8], words: &[u64], row: usize, key: u64, name: &[u8]) -> bool
    requires { SomeRow text.now words.now row × (key ≡ key_of name.now) }
    ensures { (n : Name) → Row text.now words.now row n → result ≡ same n.letters name.now }
{
    if words[row + table_rows::ID_KEY] != key {
        return false;
    }
    let n = words[row + table_rows::ID_LENGTH] as usize;
    if n != name.len() {
        return false;
    }
    if n <= 8 {
        return true;
    }
    let a = words[row] as usize;
    let e = a + n;
    leaf_letters::equal(&text[a..e], name)
}

// The first of `count` rows that has the name, which has the key; no row before number `from` has it.
fn walk_rows(
    text: &[u8],
    words: &[u64],
    base: usize,
    stride: usize,
    from: usize,
    count: usize,
    key: u64,
    name: &[u8],
) -> Option<usize>
    requires { SomeRows text.now words.now base stride count × (base < 65536) × (key ≡ key_of name.now) × (from ≤ count) × OtherNames text.now words.now base stride name.now from }
    ensures { (ns : List Name) → count ≡ length ns → Rows text.now words.now base stride ns → result ≡ lookup ns name.now }
{
    for i in from..count {
        if row_is(text, words, base + i * stride, key, name) {
            return Some(i);
        }
    }
    None
}

fn base_of(kind: Kind) -> usize
    ensures { result ≡ base_of kind }
{
    match kind {
        Kind::Nodes => table_rows::NODES_AT,
        Kind::Links => table_rows::LINKS_AT,
        Kind::Curves => table_rows::CURVES_AT,
        Kind::Patterns => table_rows::PATTERNS_AT,
        Kind::Rules => table_rows::RULES_AT,
    }
}

fn width_of(kind: Kind) -> usize
    ensures { result ≡ width_of kind }
{
    match kind {
        Kind::Nodes => table_rows::NODES_WIDTH,
        Kind::Links => table_rows::LINKS_WIDTH,
        Kind::Curves => table_rows::CURVES_WIDTH,
        Kind::Patterns => table_rows::PATTERNS_WIDTH,
        Kind::Rules => table_rows::RULES_WIDTH,
    }
}

// The row from which on a name of the key is looked for: no row before it has such a name. Rules have no slots.
fn start_of(words: &[u64], kind: Kind, key: u64, count: usize) -> usize
    requires { length words.now ≡ record_words }
    ensures { (result ≤ count) × StartsAt words.now kind key count result }
{
    let slot = table_rows::slot_of(key);
    match kind {
        Kind::Nodes => first_in_slot(words, table_rows::NODE_SLOTS_AT + slot, count),
        Kind::Links => first_in_slot(words, table_rows::LINK_SLOTS_AT + slot, count),
        Kind::Curves => first_in_slot(words, table_rows::CURVE_SLOTS_AT + slot, count),
        Kind::Patterns => first_in_slot(words, table_rows::PATTERN_SLOTS_AT + slot, count),
        Kind::Rules => 0,
    }
}

// The record of the kind, of which there are `count`, that has the name; the name has the key.
pub fn find(
    text: &[u8],
    words: &[u64],
    kind: Kind,
    count: usize,
    key: u64,
    name: &[u8],
) -> Option<usize>
    requires { ((m : Network) × Words text.now m words.now × (count ≡ records_of kind (counts_of m))) × (key ≡ key_of name.now) }
    ensures { (m : Network) → Words text.now m words.now → count ≡ records_of kind (counts_of m) → result ≡ lookup (ids_of kind m) name.now }
{
    let from = start_of(words, kind, key, count);
    walk_rows(
        text,
        words,
        base_of(kind),
        width_of(kind),
        from,
        count,
        key,
        name,
    )
}

// The same of a name whose key is not made yet, wherever its letters stand.
pub fn find_named(
    text: &[u8],
    words: &[u64],
    kind: Kind,
    count: usize,
    name: &[u8],
) -> Option<usize>
    requires { (m : Network) × Words text.now m words.now × (count ≡ records_of kind (counts_of m)) }
    ensures { (m : Network) → Words text.now m words.now → count ≡ records_of kind (counts_of m) → result ≡ lookup (ids_of kind m) name.now }
{
    find(text, words, kind, count, table_keys::name_key(name), name)
}

// The same of a name where it stands in the text, whose key is then made of eight letters at once.
pub fn find_at(text: &[u8], words: &[u64], kind: Kind, count: usize, name: Span) -> Option<usize>
    requires { (m : Network) × Words text.now m words.now × (count ≡ records_of kind (counts_of m)) }
    ensures { (m : Network) → Words text.now m words.now → count ≡ records_of kind (counts_of m)
        → result ≡ lookup (ids_of kind m) (part name.at name.end text.now) }
{
    let l = leaf_fields::letters_of(text, name);
    find(text, words, kind, count, table_keys::key_at(text, name), l)
}

// Where the node of the name stands.
pub fn node_named(text: &[u8], words: &[u64], nodes: usize, name: Span) -> Option<usize>
    requires { (m : Network) × Words text.now m words.now × (nodes ≡ length m.nodes) }
    ensures { (m : Network) → Words text.now m words.now → nodes ≡ length m.nodes → result ≡ lookup (node_ids m) (part name.at name.end text.now) }
{
    find_at(text, words, Kind::Nodes, nodes, name)
}

// ---- what a record is: three tests of a link, as the definitions have three (`is_pipe` and its kind, crates/scope/specs/Rules.antt)

pub fn is_junction(words: &[u64], i: usize) -> bool
    requires { (i < room_nodes) × (length words.now ≡ record_words) }
    ensures { (text : List ℕ) (m : Network) → Words text m words.now → i < length m.nodes → result ≡ is_junction (get_or m.nodes i no_node).kind }
{
    words[table_rows::NODES_AT + i * table_rows::NODES_WIDTH + table_rows::NODE_KIND]
        == table_codes::JUNCTION
}

// The number of a link's kind.
fn link_kind(words: &[u64], i: usize) -> u64
    requires { (i < room_links) × (length words.now ≡ record_words) }
    ensures { result ≡ get_or words.now (links_at + i * links_width + link_kind) 0 }
{
    words[table_rows::LINKS_AT + i * table_rows::LINKS_WIDTH + table_rows::LINK_KIND]
}

pub fn is_pipe(words: &[u64], i: usize) -> bool
    requires { (i < room_links) × (length words.now ≡ record_words) }
    ensures { (text : List ℕ) (m : Network) → Words text m words.now → i < length m.links → result ≡ is_pipe (get_or m.links i no_link).kind }
{
    link_kind(words, i) == table_codes::PIPE
}

pub fn is_pump(words: &[u64], i: usize) -> bool
    requires { (i < room_links) × (length words.now ≡ record_words) }
    ensures { (text : List ℕ) (m : Network) → Words text m words.now → i < length m.links → result ≡ is_pump (get_or m.links i no_link).kind }
{
    link_kind(words, i) == table_codes::PUMP
}

pub fn is_valve(words: &[u64], i: usize) -> bool
    requires { (i < room_links) × (length words.now ≡ record_words) }
    ensures { (text : List ℕ) (m : Network) → Words text m words.now → i < length m.links → result ≡ is_valve (get_or m.links i no_link).kind }
{
    link_kind(words, i) == table_codes::VALVE
}
