// Surveys a text and prints how much of it was read: the records, the conditions and actions, the lines by class, and every refusal.
#![tactic(auto)]

use scope::Survey;
use std::io;
use std::io::{BufWriter, Write};
use stored_counts::Stored;

fn show_records<W: Write>(out: &mut W, stored: Stored) -> io::Result<()> {
    let all = stored.counts();
    let conditions = stored_parts::conditions_between(stored, 0, all.clauses);
    let actions = stored_parts::actions_between(stored, 0, all.clauses);
    writeln!(
        out,
        "records {} {} {} {} {}",
        all.nodes, all.links, all.curves, all.patterns, all.rules
    )?;
    writeln!(out, "clauses {conditions} {actions}")
}

fn show_lines<W: Write>(out: &mut W, s: Survey) -> io::Result<()> {
    writeln!(
        out,
        "lines {} {} {} {} {} {} {} {} {}",
        s.lines,
        s.blank,
        s.header,
        s.passed,
        s.taken,
        s.refused,
        s.ruletaken,
        s.rulerefused,
        s.ruleopen
    )
}

fn show_refusals<W: Write>(out: &mut W, reasons: &[u8]) -> io::Result<()> {
    for (i, reason) in reasons.iter().enumerate() {
        if *reason != 0 {
            writeln!(out, "refused {} {reason}", i + 1)?;
        }
    }
    Ok(())
}

// What the survey says of the text: in counts, or in words.
fn show<W: Write>(out: &mut W, text: &[u8], in_words: bool) -> io::Result<()> {
    let mut words = [0u64; table_rows::WORDS_ROOM];
    let mut numbers = [0.0f64; table_rows::NUMBERS_ROOM];
    let mut classes = [0u8; table_rows::LINES_ROOM];
    let mut reasons = [0u8; table_rows::LINES_ROOM];
    let s = read_survey::read_survey(text, &mut words, &mut numbers, &mut classes, &mut reasons);
    if in_words {
        return write_reasons::show_survey(out, text, s, &classes, &reasons);
    }
    if s.number != 0 {
        return writeln!(out, "refused 0 {}", s.number);
    }
    let stored = Stored {
        text,
        words: &words,
        numbers: &numbers,
    };
    show_records(out, stored)?;
    show_lines(out, s)?;
    show_refusals(out, &reasons)
}

const HELP: &str = "\
tally [FILE]             survey an EPANET input file: records, lines by class, refusals
tally --explain [FILE]   say in words what is refused, and why
Without FILE it reads standard input.
";

fn answer<W: Write>(rt: &HostRuntime, out: &mut W) -> io::Result<()> {
    if program_input::argument_is(rt, 1, b"--help") {
        return write!(out, "{HELP}");
    }
    let in_words = program_input::argument_is(rt, 1, b"--explain");
    let file = if in_words { 2 } else { 1 };
    let mut buffer = [0u8; program_input::TEXT_ROOM];
    match program_input::read_argument(rt, b"tally", file, &mut buffer)? {
        Some(n) => show(out, &buffer[..n], in_words),
        None => Ok(()),
    }
}

fn main(rt: HostRuntime) -> io::Result<()> {
    let mut out = BufWriter::new(rt.alloc(), rt.stdout())?;
    answer(&rt, &mut out)?;
    out.flush()
}
