// Says in words what a survey refused: each line and each rule, with its number, the reason and the line as it stands.
#![tactic(auto)]

use scope::{Reason, Survey};
use std::io;
use std::io::Write;
use table_codes::Coded;
use write_text::Plain;

fn in_words(reason: Reason) -> &'static str {
    match reason {
        Reason::Missing => "a required field is missing",
        Reason::Malformed => "a number, a count, a value or a true/false is malformed",
        Reason::Used => "its id is already used",
        Reason::NotFound => "a node or a link that it names is not found",
        Reason::WrongKind => "a node that it names is no junction, or a link is of another kind",
        Reason::XFalls => "the x is less than the curve's last x",
        Reason::UnknownWord => "a word is unknown",
        Reason::NoCondition => "it has no condition",
        Reason::NoAction => "it has no action",
        Reason::NoId => "it has no id",
        Reason::TooLong => "it is longer than 65,536 bytes",
        Reason::HighByte => "it has a byte above 127",
        Reason::BeyondReach => "a number is beyond reach",
        Reason::NoRoom => "there is no room left for it",
        Reason::SmallTable => "a table is too small",
    }
}

// A line that is refused by itself, or the first line of a rule that is refused or still open.
// Class and reason are numbers, as the tables that C lends hold them (include/inp.h).
fn show_line<W: Write>(
    out: &mut W,
    number: usize,
    class: u8,
    reason: u8,
    line: &[u8],
) -> io::Result<()> {
    let said = in_words(Reason::from_code(reason));
    match class {
        table_codes::RULE_OPEN => writeln!(
            out,
            "The rule that starts at line {number} is still open at the end of the text, and is left out."
        )?,
        table_codes::RULE_REFUSED => writeln!(
            out,
            "The rule that starts at line {number} is refused ({reason}): {said}."
        )?,
        _ => writeln!(out, "Line {number} is refused ({reason}): {said}.")?,
    }
    let line = Plain(leaf_scans::trimmed(line));
    writeln!(out, "    {line}")
}

// Every refusal, by rising line. Of the lines of an open rule only the first is shown.
fn show_lines<W: Write>(
    out: &mut W,
    text: &[u8],
    classes: &[u8; table_rows::LINES_ROOM],
    reasons: &[u8; table_rows::LINES_ROOM],
) -> io::Result<()> {
    let open = classes
        .iter()
        .position(|class| *class == table_codes::RULE_OPEN);
    let lines = text.split_inclusive(|b| *b == b'\n');
    for (i, ((line, class), reason)) in lines.zip(classes).zip(reasons).enumerate() {
        if open == Some(i) || (*reason != 0 && *class != table_codes::RULE_OPEN) {
            show_line(out, i + 1, *class, *reason, line)?;
        }
    }
    Ok(())
}

fn is_clean(s: Survey) -> bool {
    s.refused == 0 && s.rulerefused == 0 && s.ruleopen == 0
}

// What a survey refused: the text as a whole, or lines and rules.
pub fn show_survey<W: Write>(
    out: &mut W,
    text: &[u8],
    s: Survey,
    classes: &[u8; table_rows::LINES_ROOM],
    reasons: &[u8; table_rows::LINES_ROOM],
) -> io::Result<()> {
    let number = s.number;
    if number != 0 {
        let said = in_words(Reason::from_code(number));
        writeln!(out, "The text is refused ({number}): {said}.")
    } else if is_clean(s) {
        writeln!(out, "Nothing is refused.")
    } else {
        show_lines(out, text, classes, reasons)
    }
}
