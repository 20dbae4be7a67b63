// Reads a list of texts from standard input, each after a line that begins with #, and prints for each what strict reading answers and what the tables then hold:
// how many nodes, links, curves, patterns, rules, conditions and actions there are; and of each action whether it is an else action, the place of its link, and
// its status (1 OPEN, 2 CLOSED, 0 where it is a setting).
#![tactic(auto)]

use leaf_fields::Span;
use std::io;
use std::io::{BufWriter, Read, Write};
use stored_counts::Stored;
use stored_records::Clause;
use table_codes::Coded;

fn show_records<W: Write>(out: &mut W, stored: Stored) -> io::Result<()> {
    let all = stored.counts();
    let conditions = stored_parts::conditions_between(stored, 0, all.clauses);
    let actions = stored_parts::actions_between(stored, 0, all.clauses);
    writeln!(
        out,
        "records {} {} {} {} {} {conditions} {actions}",
        all.nodes, all.links, all.curves, all.patterns, all.rules
    )
}

fn show_actions<W: Write>(out: &mut W, stored: Stored) -> io::Result<()> {
    for k in 0..stored.counts().clauses {
        if let Clause::Action(a) = stored_records::clause_at(stored, k) {
            let otherwise = u8::from(a.otherwise);
            let link = a.link;
            let (status, _) = a.value.code();
            writeln!(out, "do {otherwise} {link} {status}")?;
        }
    }
    Ok(())
}

fn show_case<W: Write>(out: &mut W, text: &[u8]) -> io::Result<()> {
    let mut words = [0u64; table_rows::WORDS_ROOM];
    let mut numbers = [0.0f64; table_rows::NUMBERS_ROOM];
    let a = read_strict::read_strict(text, &mut words, &mut numbers);
    let stored = Stored {
        text,
        words: &words,
        numbers: &numbers,
    };
    writeln!(out, "answer {} line {}", a.number, a.line)?;
    show_records(out, stored)?;
    show_actions(out, stored)
}

// The text from a place up to `end`; before the first title there is none.
fn show_part<W: Write>(out: &mut W, all: &[u8], from: Option<usize>, end: usize) -> io::Result<()> {
    match from {
        Some(at) => show_case(out, leaf_fields::letters_of(all, Span { at, end })),
        None => Ok(()),
    }
}

fn replay<W: Write>(out: &mut W, all: &[u8]) -> io::Result<()> {
    let mut from = None;
    let mut at = 0;
    // A cursor, as the pieces of std's `split_inclusive` do not say where they stand in the whole.
    while at < all.len() {
        let end = leaf_scans::line_end(all, at);
        if all[at] == b'#' {
            show_part(out, all, from, at)?;
            out.write_all(leaf_fields::letters_of(all, Span { at, end }))?;
            from = Some(end);
        }
        at = end;
    }
    show_part(out, all, from, at)
}

// How much of the input is read.
const ROOM: u64 = 262144;

fn main(rt: HostRuntime) -> io::Result<()> {
    let mut text = Vec::new(rt.alloc());
    rt.stdin().take(ROOM).read_to_end(&mut text)?;
    let mut out = BufWriter::new(rt.alloc(), rt.stdout())?;
    replay(&mut out, &text)?;
    out.flush()
}
