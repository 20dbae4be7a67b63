// The curves, patterns and times of a network, as the dump writes them: docs/DUMP.md has the form.
#![tactic(auto)]

use std::io;
use std::io::Write;
use stored_counts::Stored;
use stored_parts::Part;
use write_text::{Bits, Id, Pair};

// Every curve with its points, in file order.
pub fn show_curves<W: Write>(out: &mut W, stored: Stored) -> io::Result<()> {
    let counts = stored.counts();
    for i in 0..counts.curves {
        let curve = stored_series::curve_at(stored, i);
        let id = Id::of(stored.text, curve.id);
        let points = stored_parts::parts_of(stored, Part::Point, i);
        write!(out, "curve {id} {points}")?;
        for k in 0..counts.points {
            let point = stored_series::point_at(stored, k);
            if point.curve == i {
                write!(out, " {}", Pair(point.x, point.y))?;
            }
        }
        writeln!(out)?;
    }
    Ok(())
}

// Every pattern with its multipliers, in file order.
pub fn show_patterns<W: Write>(out: &mut W, stored: Stored) -> io::Result<()> {
    let counts = stored.counts();
    for i in 0..counts.patterns {
        let pattern = stored_series::pattern_at(stored, i);
        let id = Id::of(stored.text, pattern.id);
        let multipliers = stored_parts::parts_of(stored, Part::Multiplier, i);
        write!(out, "pattern {id} {multipliers}")?;
        for k in 0..counts.multipliers {
            let multiplier = stored_series::multiplier_at(stored, k);
            if multiplier.pattern == i {
                write!(out, " {}", Bits(multiplier.value))?;
            }
        }
        writeln!(out)?;
    }
    Ok(())
}

// The Rust's defaults of the six times.
const DEFAULTS: [u64; 6] = [0, 3600, 3600, 3600, 0, 0];

// The six times, each the default where its option was not set.
pub fn show_times<W: Write>(out: &mut W, stored: Stored) -> io::Result<()> {
    write!(out, "times")?;
    for (i, default) in DEFAULTS.iter().enumerate() {
        let seconds = stored_series::time_at(stored, i).unwrap_or(*default);
        write!(out, " {seconds}")?;
    }
    writeln!(out)
}

// Which of the six options were set.
pub fn show_sets<W: Write>(out: &mut W, stored: Stored) -> io::Result<()> {
    write!(out, "set")?;
    for i in 0..DEFAULTS.len() {
        let set = u8::from(stored_series::time_at(stored, i).is_some());
        write!(out, " {set}")?;
    }
    writeln!(out)
}
