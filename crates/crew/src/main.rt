// The crew sheet: how often the rules close, open, activate and set links, by rule and by link, under THEN and under ELSE. What is refused is said first.
#![tactic(auto)]

ghost use Rattle.std.specs.Prelude.{◌≤◌};
ghost use Rattle.scope.specs.Sections.{room_lines};

use scope::Survey;
use sheet_actions::Moves;
use std::io::{BufWriter, Write};
use std::{fmt, io};
use stored_counts::Stored;
use write_text::Plain;

// ---- whether the sheet is whole

// A refused line has a reason, and so has the first line of a refused rule. A sum, as `line_of` is, and for its reason.
fn refused(reasons: &[u8; table_rows::LINES_ROOM]) -> usize
    ensures { result ≤ room_lines }
{
    let mut n = 0;
    for reason in reasons {
        n += usize::from(*reason != 0);
    }
    n
}

// The lines and rules that are refused, and the rule that is open at the end.
fn missing_pieces(s: Survey, reasons: &[u8; table_rows::LINES_ROOM]) -> usize {
    refused(reasons) + usize::from(s.ruleopen != 0)
}

fn warn<W: Write>(out: &mut W, missing: usize) -> io::Result<()> {
    if missing != 0 {
        writeln!(
            out,
            "NOT WHOLE: {missing} REFUSED OR STILL OPEN. DO NOT PRICE FROM THIS SHEET."
        )?;
    }
    Ok(())
}

// ---- columns

// The moves of a rule, of a link or of all rules, in columns of ten letters.
#[derive(Clone, Copy)]
struct Row {
    then: Moves,
    otherwise: Moves,
}

impl Row {
    fn is_empty(self) -> bool {
        is_none(self.then) && is_none(self.otherwise)
    }
}

fn is_none(n: Moves) -> bool {
    n.closes == 0 && n.opens == 0 && n.activates == 0 && n.sets == 0
}

#[derive(Clone, Copy)]
struct Columns(Moves);

impl fmt::Display for Columns {
    fn fmt<W: fmt::Write>(&self, f: &mut fmt::Formatter<W>) -> fmt::Result {
        let n = self.0;
        write!(
            f,
            "{:>10}{:>10}{:>10}{:>10}",
            n.closes, n.opens, n.activates, n.sets
        )
    }
}

impl fmt::Display for Row {
    fn fmt<W: fmt::Write>(&self, f: &mut fmt::Formatter<W>) -> fmt::Result {
        write!(f, "{} |{}", Columns(self.then), Columns(self.otherwise))
    }
}

fn heading<W: Write>(out: &mut W, of: &str) -> io::Result<()> {
    writeln!(out, "\n{of}")?;
    writeln!(out, "      THEN                               |      ELSE")?;
    writeln!(
        out,
        "    closes     opens activates      sets |    closes     opens activates      sets"
    )
}

// ---- by rule

// The number of the line that has the byte at `at`.
// A sum and no `filter` and `count`: it runs over the text for each rule, and so the compiler takes many bytes at a time.
fn line_of(text: &[u8], at: usize) -> usize {
    let before = leaf_letters::cut(text, 0, at);
    let mut n = 0;
    for b in before {
        n += usize::from(*b == b'\n');
    }
    n + 1
}

fn show_rules<W: Write>(out: &mut W, stored: Stored) -> io::Result<()> {
    for i in 0..stored.counts().rules {
        let row = Row {
            then: sheet_moves::rule_moves(stored, i, false),
            otherwise: sheet_moves::rule_moves(stored, i, true),
        };
        let rule = stored_records::rule_at(stored, i);
        let name = Plain(leaf_fields::letters_of(stored.text, rule.id));
        let line = line_of(stored.text, rule.id.at);
        writeln!(out, "{row}  rule {name}, which starts at line {line}")?;
    }
    Ok(())
}

// ---- by link

// The links that some rule moves, and how many no rule does.
fn show_links<W: Write>(out: &mut W, stored: Stored) -> io::Result<()> {
    let mut left = 0usize;
    for i in 0..stored.counts().links {
        let row = Row {
            then: sheet_moves::link_moves(stored, i, false),
            otherwise: sheet_moves::link_moves(stored, i, true),
        };
        if row.is_empty() {
            left += 1;
        } else {
            let link = stored_records::link_at(stored, i);
            let name = Plain(leaf_fields::letters_of(stored.text, link.id));
            let made = sheet_moves::link_made(stored, i);
            writeln!(out, "{row}  link {name}, moves of a crew: {made}")?;
        }
    }
    writeln!(out, "Links that no rule moves, left out: {left}")
}

// ---- all rules

fn show_sums<W: Write>(out: &mut W, stored: Stored) -> io::Result<()> {
    let then = sheet_moves::all_moves(stored, false);
    let otherwise = sheet_moves::all_moves(stored, true);
    writeln!(out, "{}  all rules", Row { then, otherwise })?;
    writeln!(
        out,
        "THEN and ELSE together: closes {}, opens {}, activates {}, sets {}",
        then.closes + otherwise.closes,
        then.opens + otherwise.opens,
        then.activates + otherwise.activates,
        then.sets + otherwise.sets
    )
}

fn show_made<W: Write>(out: &mut W, stored: Stored) -> io::Result<()> {
    let made = sheet_moves::all_made(stored);
    writeln!(
        out,
        "Moves of a crew that opens every closure again: {made}"
    )?;
    writeln!(
        out,
        "    At each link its closings, and its openings or as many as its closings, whichever are more."
    )?;
    writeln!(out, "    What activates and sets is not among them.")
}

fn show_sheet<W: Write>(out: &mut W, stored: Stored) -> io::Result<()> {
    heading(out, "BY RULE")?;
    show_rules(out, stored)?;
    heading(out, "BY LINK")?;
    show_links(out, stored)?;
    heading(out, "IN ALL")?;
    show_sums(out, stored)?;
    show_made(out, stored)
}

// ---- the program

fn show<W: Write>(out: &mut W, text: &[u8]) -> io::Result<()> {
    let mut words = [0u64; table_rows::WORDS_ROOM];
    let mut numbers = [0.0f64; table_rows::NUMBERS_ROOM];
    let mut classes = [0u8; table_rows::LINES_ROOM];
    let mut reasons = [0u8; table_rows::LINES_ROOM];
    let s = read_survey::read_survey(text, &mut words, &mut numbers, &mut classes, &mut reasons);
    write_reasons::show_survey(out, text, s, &classes, &reasons)?;
    if s.number == 0 {
        let stored = Stored {
            text,
            words: &words,
            numbers: &numbers,
        };
        let missing = missing_pieces(s, &reasons);
        warn(out, missing)?;
        show_sheet(out, stored)?;
        warn(out, missing)?;
    }
    Ok(())
}

const HELP: &str = "\
crew [FILE]   the crew sheet of an EPANET input file: how often its rules move links
Without FILE it reads standard input. The sheet shows
- each line and each rule that is refused, and why. Where one is, the sheet is not whole:
  moves are missing from it, and it says so in capitals before and after the counts;
- for each rule, with the line that it starts at, and for each link: how many of its actions
  close, open, activate (status CLOSED, OPEN, ACTIVE) and set (a setting), under THEN and under ELSE;
- the same for all rules, and the moves that a crew makes when every closure is opened again.
";

fn answer<W: Write>(rt: &HostRuntime, out: &mut W) -> io::Result<()> {
    if program_input::argument_is(rt, 1, b"--help") {
        return write!(out, "{HELP}");
    }
    let mut buffer = [0u8; program_input::TEXT_ROOM];
    match program_input::read_argument(rt, b"crew", 1, &mut buffer)? {
        Some(n) => show(out, &buffer[..n]),
        None => Ok(()),
    }
}

fn main(rt: HostRuntime) -> io::Result<()> {
    let mut out = BufWriter::new(rt.alloc(), rt.stdout())?;
    answer(&rt, &mut out)?;
    out.flush()
}
