// Reads a text strictly or as a survey, and prints every record that is stored: docs/DUMP.md has the form.
#![tactic(auto)]

use std::io;
use std::io::{BufWriter, Write};
use stored_counts::Stored;

fn show_network<W: Write>(out: &mut W, stored: Stored) -> io::Result<()> {
    write_nodes::show_nodes(out, stored)?;
    write_links::show_links(out, stored)?;
    write_series::show_curves(out, stored)?;
    write_series::show_patterns(out, stored)?;
    write_series::show_times(out, stored)?;
    write_rules::show_rules(out, stored)
}

// The class and the reason of each of the lines.
fn show_lines<W: Write>(
    out: &mut W,
    classes: &[u8; table_rows::LINES_ROOM],
    reasons: &[u8; table_rows::LINES_ROOM],
    lines: usize,
) -> io::Result<()> {
    for (i, (class, reason)) in classes.iter().zip(reasons).take(lines).enumerate() {
        writeln!(out, "line {} class {class} reason {reason}", i + 1)?;
    }
    Ok(())
}

fn show_strict<W: Write>(out: &mut W, text: &[u8]) -> io::Result<()> {
    let mut words = [0u64; table_rows::WORDS_ROOM];
    let mut numbers = [0.0f64; table_rows::NUMBERS_ROOM];
    let a = read_strict::read_strict(text, &mut words, &mut numbers);
    let stored = Stored {
        text,
        words: &words,
        numbers: &numbers,
    };
    writeln!(out, "answer {} line {}", a.number, a.line)?;
    show_network(out, stored)
}

fn show_survey<W: Write>(out: &mut W, text: &[u8]) -> io::Result<()> {
    let mut words = [0u64; table_rows::WORDS_ROOM];
    let mut numbers = [0.0f64; table_rows::NUMBERS_ROOM];
    let mut classes = [0u8; table_rows::LINES_ROOM];
    let mut reasons = [0u8; table_rows::LINES_ROOM];
    let s = read_survey::read_survey(text, &mut words, &mut numbers, &mut classes, &mut reasons);
    let stored = Stored {
        text,
        words: &words,
        numbers: &numbers,
    };
    writeln!(out, "answer {} line 0", s.number)?;
    show_network(out, stored)?;
    write_series::show_sets(out, stored)?;
    show_lines(out, &classes, &reasons, s.lines)
}

// ---- the command line

const HELP: &str = "\
records strict [FILE]   read up to the first line or rule that is refused
records survey [FILE]   read every line, and give each its class and reason
Prints the records that are stored. Without FILE it reads standard input.
";

fn answer<W: Write>(rt: &HostRuntime, out: &mut W) -> io::Result<()> {
    let strict = program_input::argument_is(rt, 1, b"strict");
    if !strict && !program_input::argument_is(rt, 1, b"survey") {
        return write!(out, "{HELP}");
    }
    let mut buffer = [0u8; program_input::TEXT_ROOM];
    match program_input::read_argument(rt, b"records", 2, &mut buffer)? {
        Some(n) if strict => show_strict(out, &buffer[..n]),
        Some(n) => show_survey(out, &buffer[..n]),
        None => Ok(()),
    }
}

fn main(rt: HostRuntime) -> io::Result<()> {
    let mut out = BufWriter::new(rt.alloc(), rt.stdout())?;
    answer(&rt, &mut out)?;
    out.flush()
}
