// Goes over the lines of a text: both readings are this one loop. Strict reading stops at the first piece that is refused; a survey goes on past it, and marks what each line is.
#![tactic(auto)]

ghost use Rattle.std.specs.Prelude.{◌≡◌, true, false, cond, ◌-◌, ◌≤◌, ◌<◌, length, set, IfSome};
ghost use Rattle.scope.specs.Records.{no_network, counts_of};
ghost use Rattle.scope.specs.Sections.{room_text};
ghost use Rattle.table_rows.specs.Holding.{Holds};
ghost use Rattle.read_marks.specs.Filled.{filled};
ghost use Rattle.read_marks.specs.Marked.{closed_in, refused_in};
ghost use Rattle.read_loop.specs.Over.{Unmarked, Done, Overseen};

use read_marks::Refusal;
use read_steps::{State, Turn};
use scope::Counts;

// How many records the tables hold, how many lines were read, and the refusal that ended the reading.
#[derive(Clone, Copy)]
pub struct Over {
    pub counts: Counts,
    pub lines: usize,
    pub refused: Option<Refusal>,
}

// A survey marks lines one after another that are of one class.
fn mark_plain(marking: bool, classes: &mut [u8], from: usize, to: usize, class: u8)
    requires { marking ≡ true → (from ≤ to) × (to ≤ length classes.old) }
    ensures { classes.new ≡ cond marking (filled classes.old from (to - from) class) classes.old }
{
    if marking {
        read_marks::mark_lines(classes, from, to, class);
    }
}

// A survey marks a line, the group that it closed, and the piece that was refused.
fn mark_turn(marking: bool, classes: &mut [u8], reasons: &mut [u8], line: usize, t: Turn)
    requires { marking ≡ true → (line < length classes.old) × IfSome t.closed (λ c. (0 < c.first) × (c.first ≤ line)) × IfSome t.refused (λ r. (0 < r.piece) × (r.piece ≤ length reasons.old)) }
    ensures { (classes.new ≡ cond marking (set (closed_in t.closed line classes.old) line t.class) classes.old)
        × (reasons.new ≡ cond marking (refused_in t.refused reasons.old) reasons.old) }
{
    if marking {
        read_marks::mark_class(classes, line, t.class, t.closed);
        read_marks::mark_reason(reasons, t.refused);
    }
}

// Every line, up to the end or to where the reading stops. Most lines are plain; the one behind them is refused, or a step tells what it is.
pub fn go_over(
    text: &[u8],
    marking: bool,
    words: &mut [u64],
    numbers: &mut [f64],
    classes: &mut [u8],
    reasons: &mut [u8],
) -> Over
    requires { (length text.now ≤ room_text) × Holds text.now no_network (counts_of no_network) words.old numbers.old × (marking ≡ true → Unmarked classes.old reasons.old) }
    ensures { (marking ≡ false → Done text.now words.new numbers.new result.refused result.counts)
        × (marking ≡ true → Overseen text.now words.new numbers.new classes.new reasons.new result.lines result.counts) }
{
    let mut s = State::new();
    // Over the state, as in `read_runs`.
    while s.at < text.len() {
        let from = s.line;
        let plain = read_runs::plain_lines(text, s, words, numbers);
        s = plain.state;
        mark_plain(marking, classes, from, s.line, plain.class);
        if s.at < text.len() {
            let t = read_runs::turn_after(text, plain, words, numbers);
            mark_turn(marking, classes, reasons, s.line, t);
            s = t.state;
            if let Some(refusal) = read_marks::stops(marking, t.refused) {
                return Over {
                    counts: s.counts,
                    lines: s.line,
                    refused: Some(refusal),
                };
            }
        }
    }
    read_end::resolve_pattern_indices(text, s.counts, words);
    Over {
        counts: s.counts,
        lines: s.line,
        refused: None,
    }
}
