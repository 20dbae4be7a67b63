// Works out the patterns' places, at the end of a text.
#![tactic(auto)]

ghost use Rattle.std.specs.Prelude.{◌≡◌, List, [], ◌∷◌, ◌<◌, ◌+◌, length, Float, slice_index, Option};
ghost use Rattle.leaf_fields.specs.Fields.{Name};
ghost use Rattle.scope.specs.Records.{Network};
ghost use Rattle.scope.specs.Series.{index_of, resolved};
ghost use Rattle.scope.specs.Tables.{name_words, index_no};
ghost use Rattle.scope.specs.Layout.{name_place, name_length};
ghost use Rattle.table_rows.specs.Holding.{SitsOr, Words, Holds, Sound};
ghost use Rattle.read_end.specs.Resolving.{demand_resolved, node_resolved};

use scope::{Counts, Kind};

// The place plus one of the pattern whose name stands at `name` in the words; 0 where none stands there, or there is no such pattern.
fn pattern_index(text: &[u8], words: &[u64], patterns: usize, name: usize) -> u64
    requires { (m : Network) × Words text.now m words.now × (patterns ≡ length m.patterns) × (name + 1 < length words.now) }
    ensures { (m : Network) (o : Option Name) → Words text.now m words.now → patterns ≡ length m.patterns
        → SitsOr text.now o → name_words o ≡ slice_index words.now (name + name_place) ∷ slice_index words.now (name + name_length) ∷ [] → result ≡ index_no (index_of m.patterns o) }
{
    let at = words[name + table_rows::NAME_PLACE] as usize;
    let long = words[name + table_rows::NAME_LENGTH] as usize;
    if long == 0 {
        return 0;
    }
    let letters = leaf_letters::cut(text, at, long);
    table_rows::index_number(table_find::find_named(text, words, Kind::Patterns, patterns, letters))
}

fn resolve_demand(text: &[u8], s: Counts, words: &mut [u64], k: usize)
    requires { (f : List Float) × Sound text.now s words.old f × (k < s.demands) }
    ensures { (m : Network) (f : List Float) → Holds text.now m s words.old f
        → Holds text.now (demand_resolved k m) s words.new f }
{
    let row = table_rows::DEMANDS_AT + k * table_rows::DEMANDS_WIDTH;
    let name = row + table_rows::DEMAND_NAME;
    let index = pattern_index(text, words, s.patterns, name);
    words[row + table_rows::DEMAND_INDEX] = index;
}

fn resolve_node(text: &[u8], s: Counts, words: &mut [u64], k: usize)
    requires { (f : List Float) × Sound text.now s words.old f × (k < s.nodes) }
    ensures { (m : Network) (f : List Float) → Holds text.now m s words.old f
        → Holds text.now (node_resolved k m) s words.new f }
{
    let row = table_rows::NODES_AT + k * table_rows::NODES_WIDTH;
    // Only a reservoir names a pattern.
    if words[row + table_rows::NODE_KIND] != table_codes::RESERVOIR {
        return;
    }
    words[row + table_rows::NODE_DETAIL] = pattern_index(
        text,
        words,
        s.patterns,
        row + table_rows::NODE_NAME,
    );
}

// The place of each pattern that a demand or a reservoir names. The numbers stay as they are, whatever they hold.
pub fn resolve_pattern_indices(text: &[u8], s: Counts, words: &mut [u64])
    requires { (f : List Float) × Sound text.now s words.old f }
    ensures { (m : Network) (f : List Float) → Holds text.now m s words.old f
        → Holds text.now (resolved m) s words.new f }
{
    for k in 0..s.nodes {
        resolve_node(text, s, words, k);
    }
    for k in 0..s.demands {
        resolve_demand(text, s, words, k);
    }
}
