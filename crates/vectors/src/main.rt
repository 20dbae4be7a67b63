// Reads vectors, a line each, and writes each that this reader does not agree with, and then how many it agrees with.
//
//     N TEXT ANSWER      a number: the double's bits, nan, 2 or 22
//     C TEXT ANSWER      a count: its value, or 2
//     T TEXT UNIT ANSWER a time with its unit or suffix, - where none stands: its seconds, 2, 7 or 22
//
// Bits and values are 16 hexadecimal digits; 2, 7 and 22 are the numbers of document 01. One space stands between two fields,
// and a text may be empty. A line that begins with # says where the lines after it come from.
#![tactic(auto)]

use leaf_clock::TimeError;
use leaf_decimals::NumberError;
use std::io;
use std::io::{BufWriter, Read, Write};

// Whether the answer is the number's 16 digits.
fn is_hex(n: u64, answer: &[u8]) -> bool {
    let digits: [u8; 16] = std::array::from_fn(|i| b"0123456789abcdef"[((n >> (60 - 4 * i))
        % 16) as usize]);
    answer == digits.as_slice()
}

fn double_agrees(x: f64, answer: &[u8]) -> bool {
    if x.is_nan() {
        matches!(answer, b"nan")
    } else {
        is_hex(x.to_bits(), answer)
    }
}

fn number_agrees(text: &[u8], answer: &[u8]) -> bool {
    match leaf_decimals::read_number(text) {
        Ok(x) => double_agrees(x, answer),
        Err(NumberError::Malformed) => matches!(answer, b"2"),
        Err(NumberError::Beyond) => matches!(answer, b"22"),
    }
}

fn count_agrees(text: &[u8], answer: &[u8]) -> bool {
    match leaf_counts::read_count(text) {
        Some(n) => is_hex(n, answer),
        None => matches!(answer, b"2"),
    }
}

// A unit of one hyphen says that none stands there, which clock takes as an empty one.
fn unit_in(field: &[u8]) -> &[u8] {
    if matches!(field, b"-") {
        &field[..0]
    } else {
        field
    }
}

fn time_agrees(text: &[u8], unit: &[u8], answer: &[u8]) -> bool {
    match leaf_clock::read_time(text, unit) {
        Ok(n) => is_hex(n, answer),
        Err(TimeError::Malformed) => matches!(answer, b"2"),
        Err(TimeError::UnknownUnit) => matches!(answer, b"7"),
        Err(TimeError::Beyond) => matches!(answer, b"22"),
    }
}

// The line up to its next space, and what follows that space.
fn first_field(line: &[u8]) -> (&[u8], &[u8]) {
    match line.iter().position(|b| *b == b' ') {
        Some(i) => (&line[..i], &line[i + 1..]),
        None => (line, &line[..0]),
    }
}

fn agrees(line: &[u8]) -> bool {
    let (kind, rest) = first_field(line);
    let (text, answer) = first_field(rest);
    match kind {
        b"N" => number_agrees(text, answer),
        b"C" => count_agrees(text, answer),
        b"T" => {
            let (unit, answer) = first_field(answer);
            time_agrees(text, unit_in(unit), answer)
        }
        _ => false,
    }
}

fn is_vector(line: &[u8]) -> bool {
    line.first().is_some_and(|b| *b != b'#')
}

// Only lines that a line feed ends are read.
fn replay<W: Write>(out: &mut W, text: &[u8]) -> io::Result<()> {
    let mut agreed = 0u32;
    let mut of = 0u32;
    for line in text.split_inclusive(|b| *b == b'\n') {
        if let Some(line) = line.strip_suffix(b"\n")
            && is_vector(line)
        {
            of = of.saturating_add(1);
            if agrees(line) {
                agreed = agreed.saturating_add(1);
            } else {
                out.write_all(line)?;
                out.write_all(b"\n")?;
            }
        }
    }
    writeln!(out, "agree {agreed} of {of}")
}

// How much of the input is read.
const ROOM: u64 = 262144;

fn main(rt: HostRuntime) -> io::Result<()> {
    let mut text = Vec::new(rt.alloc());
    rt.stdin().take(ROOM).read_to_end(&mut text)?;
    let mut out = BufWriter::new(rt.alloc(), rt.stdout())?;
    replay(&mut out, &text)?;
    out.flush()
}
