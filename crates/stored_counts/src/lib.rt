// The counts of the records read back by value, from the words that a reading filled; and whether a record has room there.
#![tactic(auto)]

ghost use Rattle.std.specs.Prelude.{◌≡◌, List, ◌++◌, ◌+◌, ◌*◌, ◌<◌, ◌⊎◌, true, false, ℕ, length, take, drop, MatchOption};
ghost use Rattle.scope.specs.Records.{Network, counts_of};
ghost use Rattle.scope.specs.Tables.{tally_words};
ghost use Rattle.scope.specs.Layout.{record_words};
ghost use Rattle.stored_counts.specs.Room.{has_room, have_room};

use scope::Counts;

// What a reading stored: the text, and the words and the numbers that were lent for its records.
#[derive(Clone, Copy)]
pub struct Stored<'a> {
    pub text: &'a [u8],
    pub words: &'a [u64],
    pub numbers: &'a [f64],
}

// Row i of a table, N elements a row from place `at` on; none where the table ends before its end.
fn row<T, const N: usize>(table: &[T], at: usize, i: usize) -> Option<&[T; N]>
    ensures { MatchOption result (length table.now < at + i * N + N) (λ r. r.now ≡ take N (drop (at + i * N) table.now)) }
{
    let start = i.checked_mul(N)?.checked_add(at)?;
    table.get(start..)?.first_chunk()
}

impl<'a> Stored<'a> {
    // How many records of each kind there are, from the end of the words.
    pub fn counts(self) -> Counts
        ensures { (m : Network) (rest : List ℕ) → drop record_words self.entry.words.now ≡ tally_words (counts_of m) ++ rest → result ≡ counts_of m }
    {
        let words = self.words;
        if words.len() < table_rows::WORDS_ROOM {
            return Counts {
                nodes: 0,
                links: 0,
                curves: 0,
                points: 0,
                patterns: 0,
                multipliers: 0,
                demands: 0,
                rules: 0,
                clauses: 0,
            };
        }
        Counts {
            nodes: words[table_rows::COUNTS_AT + table_rows::COUNT_NODES] as usize,
            links: words[table_rows::COUNTS_AT + table_rows::COUNT_LINKS] as usize,
            curves: words[table_rows::COUNTS_AT + table_rows::COUNT_CURVES] as usize,
            points: words[table_rows::COUNTS_AT + table_rows::COUNT_POINTS] as usize,
            patterns: words[table_rows::COUNTS_AT + table_rows::COUNT_PATTERNS] as usize,
            multipliers: words[table_rows::COUNTS_AT + table_rows::COUNT_MULTIPLIERS] as usize,
            demands: words[table_rows::COUNTS_AT + table_rows::COUNT_DEMANDS] as usize,
            rules: words[table_rows::COUNTS_AT + table_rows::COUNT_RULES] as usize,
            clauses: words[table_rows::COUNTS_AT + table_rows::COUNT_CLAUSES] as usize,
        }
    }

    // The words are long enough for a network, and a region has room for a record i.
    pub fn has_room(self, room: usize, i: usize) -> bool
        ensures { result ≡ has_room (length self.entry.words.now) room i }
    {
        table_rows::RECORD_WORDS <= self.words.len() && i < room
    }

    // And the numbers are long enough.
    pub fn have_room(self, room: usize, i: usize) -> bool
        ensures { result ≡ have_room (length self.entry.words.now) (length self.entry.numbers.now) room i }
    {
        table_rows::NUMBERS_ROOM <= self.numbers.len() && self.has_room(room, i)
    }

    // The words of record i of a kind, W each from place `at` on; none past the room for `most`, or in words too few for a network.
    pub fn words_of<const W: usize>(self, at: usize, most: usize, i: usize) -> Option<&'a [u64; W]>
        ensures { MatchOption result (has_room (length self.entry.words.now) most i ≡ false ⊎ length self.entry.words.now < at + i * W + W)
            (λ r. (has_room (length self.entry.words.now) most i ≡ true) × (r.now ≡ take W (drop (at + i * W) self.entry.words.now))) }
    {
        if self.has_room(most, i) {
            row(self.words, at, i)
        } else {
            None
        }
    }

    // The words and the numbers of record i of a kind, W and N each; none past the room for `most`, or in tables too short for a network.
    pub fn rows<const W: usize, const N: usize>(
        self,
        words_at: usize,
        numbers_at: usize,
        most: usize,
        i: usize,
    ) -> Option<(&'a [u64; W], &'a [f64; N])>
        ensures { MatchOption result
            (have_room (length self.entry.words.now) (length self.entry.numbers.now) most i ≡ false
            ⊎ (length self.entry.words.now < words_at + i * W + W ⊎ length self.entry.numbers.now < numbers_at + i * N + N))
            (λ r. (have_room (length self.entry.words.now) (length self.entry.numbers.now) most i ≡ true)
            × (r.0.now ≡ take W (drop (words_at + i * W) self.entry.words.now)) × (r.1.now ≡ take N (drop (numbers_at + i * N) self.entry.numbers.now))) }
    {
        if self.have_room(most, i) {
            row(self.words, words_at, i).zip(row(self.numbers, numbers_at, i))
        } else {
            None
        }
    }
}
