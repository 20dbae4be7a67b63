// The links of a network, as the dump writes them: docs/DUMP.md has the form.
#![tactic(auto)]

use scope::{LinkKind, PipeStatus, ValveType};
use std::io;
use std::io::Write;
use stored_counts::Stored;
use write_text::{Bits, Id};

// A pipe's status, and whether it has a check valve: such a pipe is open.
fn pipe_words(s: PipeStatus) -> (&'static str, u8) {
    match s {
        PipeStatus::Open => ("OPEN", 0),
        PipeStatus::Closed => ("CLOSED", 0),
        PipeStatus::CheckValve => ("OPEN", 1),
    }
}

fn type_word(t: ValveType) -> &'static str {
    match t {
        ValveType::Gpv => "GPV",
        ValveType::Tcv => "TCV",
        ValveType::Fcv => "FCV",
        ValveType::Prv => "PRV",
        ValveType::Psv => "PSV",
        ValveType::Pbv => "PBV",
        ValveType::Pcv => "PCV",
    }
}

// A pump is open, and a valve is active.
fn show_link<W: Write>(out: &mut W, stored: Stored, i: usize) -> io::Result<()> {
    let link = stored_records::link_at(stored, i);
    let id = Id::of(stored.text, link.id);
    let start = link.start;
    let end = link.end;
    match link.kind {
        LinkKind::Pipe(p) => {
            let (status, check_valve) = pipe_words(p.status);
            writeln!(
                out,
                "link PIPE {id} {start} {end} {status} {} {} {} {} {check_valve}",
                Bits(p.long),
                Bits(p.diameter),
                Bits(p.roughness),
                Bits(p.minor)
            )
        }
        LinkKind::Pump(p) => {
            let speed = Bits(p.speed);
            let head = write_text::name_in(stored.text, p.head);
            let power = Bits(p.power);
            writeln!(
                out,
                "link PUMP {id} {start} {end} OPEN {speed} {head} {power}"
            )
        }
        LinkKind::Valve(v) => {
            let kind = type_word(v.valve_type);
            let curve = write_text::name_in(stored.text, v.curve);
            writeln!(
                out,
                "link VALVE {id} {start} {end} ACTIVE {} {kind} {} {} {curve}",
                Bits(v.diameter),
                Bits(v.setting),
                Bits(v.minor)
            )
        }
    }
}

// Every link, in file order.
pub fn show_links<W: Write>(out: &mut W, stored: Stored) -> io::Result<()> {
    for i in 0..stored.counts().links {
        show_link(out, stored, i)?;
    }
    Ok(())
}
