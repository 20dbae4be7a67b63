// Reads a text line by line into the tables that the caller lends, strictly: up to the first piece that is refused.
#![tactic(auto)]

ghost use Rattle.std.specs.Prelude.{◌≡◌, false, length};
ghost use Rattle.scope.specs.Layout.{record_words, room_numbers};
ghost use Rattle.scope.specs.Reading.{by_text, says, told, strict_of, strict_network, too_small, strict_answer, strict_words, strict_numbers};
ghost use Rattle.table_rows.specs.Holding.{Holds};
ghost use Rattle.stored_records.specs.Back.{Stands};
ghost use Rattle.read_loop.specs.Over.{said_of};

use read_loop::Over;
use read_marks::Refusal;
use scope::{Answer, Reason};
use table_codes::Coded;

// What is said of a refusal, or of none.
fn said(refused: Option<Refusal>) -> Answer
    ensures { result ≡ said_of refused }
{
    match refused {
        Some(refusal) => Answer {
            number: refusal.reason.code(),
            line: refusal.piece,
        },
        None => Answer { number: 0, line: 0 },
    }
}

// Strict reading into tables that are just as long as their room.
fn strict_in(text: &[u8], words: &mut [u64], numbers: &mut [f64]) -> Over
    requires { (length words.old ≡ record_words) × (length numbers.old ≡ room_numbers) }
    ensures { (said_of result.refused ≡ by_text text.now (says 20 0) (says 21 0) (told (strict_of text.now)))
        × Holds text.now (strict_network text.now) result.counts words.new numbers.new }
{
    words.fill(0);
    numbers.fill(0.0);
    if let Some(reason) = read_text::refused_whole(text) {
        return Over {
            counts: read_steps::no_counts(),
            lines: 0,
            refused: Some(Refusal { reason, piece: 0 }),
        };
    }
    // Strict reading marks no lines: what is lent for the marks is not used.
    let mut classes = [0u8; 1];
    let mut reasons = [0u8; 1];
    read_loop::go_over(text, false, words, numbers, &mut classes, &mut reasons)
}

// STRICT: 28 where a table is too small, 20 and 21 for the text, else what the first refused piece gives, or 0.
pub fn read_strict(text: &[u8], words: &mut [u64], numbers: &mut [f64]) -> Answer
    ensures { (result ≡ strict_answer text.now (length words.old) (length numbers.old))
        × (words.new ≡ strict_words text.now words.old (length numbers.old))
        × (numbers.new ≡ strict_numbers text.now (length words.old) numbers.old)
        × (too_small (length words.old) (length numbers.old) ≡ false → Stands (strict_network text.now) words.new numbers.new) }
{
    if read_text::too_small(words, numbers) {
        return said(Some(Refusal {
            reason: Reason::SmallTable,
            piece: 0,
        }));
    }
    let over = strict_in(
        text,
        &mut words[..table_rows::RECORD_WORDS],
        &mut numbers[..table_rows::NUMBERS_ROOM],
    );
    read_text::write_counts(words, over.counts);
    said(over.refused)
}
