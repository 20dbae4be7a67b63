// What is judged before a text's lines are read, and what is written after them, for both readings: the room of the tables, the bytes of the text, the counts.
#![tactic(auto)]

ghost use Rattle.std.specs.Prelude.{◌≡◌, true, false, cond, ◌≤◌, ◌<◌, length, ltb, Some, None};
ghost use Rattle.scope.specs.declared.Reason.TheVariants.{TooLong, HighByte};
ghost use Rattle.scope.specs.Tables.{tally_words};
ghost use Rattle.scope.specs.Layout.{record_words, room_words};
ghost use Rattle.scope.specs.Reading.{all_low, by_text, too_small};
ghost use Rattle.table_rows.specs.Table.{splice};

use scope::{Counts, Reason};

pub fn too_small(words: &[u64], numbers: &[f64]) -> bool
    ensures { result ≡ too_small (length words.now) (length numbers.now) }
{
    if words.len() < table_rows::WORDS_ROOM {
        return true;
    }
    numbers.len() < table_rows::NUMBERS_ROOM
}

fn still_low(low: bool, b: u8) -> bool
    ensures { result ≡ cond (ltb 127 b) false low }
{
    if 127 < b { false } else { low }
}

// Whether no byte is above 127. It goes on past one that is, so that the compiler can take many bytes at a time.
pub fn all_low(text: &[u8]) -> bool
    ensures { result ≡ all_low text.now }
{
    let mut low = true;
    for b in text {
        low = still_low(low, *b);
    }
    low
}

// Why a text is refused whole, if it is.
pub fn refused_whole(text: &[u8]) -> Option<Reason>
    ensures { result ≡ by_text text.now (Some TooLong) (Some HighByte) None }
{
    if table_rows::TEXT_ROOM < text.len() {
        return Some(Reason::TooLong);
    }
    if all_low(text) {
        return None;
    }
    Some(Reason::HighByte)
}

// The counts, after the records.
pub fn write_counts(words: &mut [u64], c: Counts)
    requires { room_words ≤ length words.old }
    ensures { words.new ≡ splice words.old record_words (tally_words c) }
{
    let rec = [
        c.nodes as u64,
        c.links as u64,
        c.curves as u64,
        c.points as u64,
        c.patterns as u64,
        c.multipliers as u64,
        c.demands as u64,
        c.rules as u64,
        c.clauses as u64,
    ];
    table_rows::paste(words, table_rows::RECORD_WORDS, &rec);
}
