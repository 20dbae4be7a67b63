// The text that a program reads: a file named on the command line, or standard input.
#![tactic(auto)]

ghost use Rattle.std.specs.Prelude.{◌≡◌, ◌≤◌, ℕ, IfOk, Ok, Some, length};

use std::env::{Env, FillError};
use std::io::{ErrorKind, Read, Write};
use std::{fs, io};

// A program's room for a text: one byte more than a reading takes, so that a longer text is seen to be longer.
pub const TEXT_ROOM: usize = table_rows::TEXT_ROOM + 1;

// The room for an argument, as for a path: a longer one is no file's.
const NAME_ROOM: usize = 4096;

// The system's number for a name that is too long.
const NAME_TOO_LONG: i32 = 36;

// Reads until the buffer is full or the input ends.
// A loop by hand, as std's `read_to_end` asks for memory, and its `read_exact` for the whole buffer.
fn read_all<R: Read>(from: &mut R, buffer: &mut [u8]) -> io::Result<usize>
    ensures { IfOk result (λ n. n ≤ length buffer.new) }
{
    let mut at = 0;
    while at < buffer.len() {
        let n = from.read(&mut buffer[at..])?;
        if n == 0 {
            return Ok(at);
        }
        at += n;
    }
    Ok(at)
}

// The system's words for an error, without the number that std puts behind them.
fn words_of(said: &str) -> &str {
    said.split_once(" (os error ")
        .map_or(said, |(words, _)| words)
}

// Says what failed and why: the program's name, what it failed on, and the system's words.
fn complain(rt: &HostRuntime, program: &[u8], what: &[u8], why: io::Error) -> io::Result<()> {
    let said = format!(in rt.alloc(); "{why}")?;
    let words = words_of(said.as_str());
    let mut to = rt.stderr();
    to.write_all(program)?;
    to.write_all(b": ")?;
    to.write_all(what)?;
    writeln!(to, ": {words}")
}

// How many bytes were read; where they could not be, none, and why is said on standard error.
fn told(
    rt: &HostRuntime,
    program: &[u8],
    what: &[u8],
    read: io::Result<usize>,
) -> io::Result<Option<usize>>
    ensures { (n : ℕ) → result ≡ Ok (Some n) → read ≡ Ok n }
{
    match read {
        Ok(n) => Ok(Some(n)),
        Err(why) => {
            complain(rt, program, what, why)?;
            Ok(None)
        }
    }
}

fn read_path(rt: &HostRuntime, path: &[u8], buffer: &mut [u8]) -> io::Result<usize>
    ensures { IfOk result (λ n. n ≤ length buffer.new) }
{
    let Ok(path) = std::str::from_utf8(path) else {
        return Err(io::Error::from(ErrorKind::InvalidFilename));
    };
    read_all(&mut fs::open(rt, path)?, buffer)
}

// Reads the file that argument `i` names, or standard input where there is none, and tells how many bytes of the buffer it
// filled. What goes wrong is said on standard error.
pub fn read_argument(
    rt: &HostRuntime,
    program: &[u8],
    i: usize,
    buffer: &mut [u8],
) -> io::Result<Option<usize>>
    ensures { (n : ℕ) → result ≡ Ok (Some n) → n ≤ length buffer.new }
{
    let mut space = [0u8; NAME_ROOM];
    match rt.arg(i, &mut space) {
        Ok(n) => {
            let path = &space[..n];
            let read = read_path(rt, path, buffer);
            told(rt, program, path, read)
        }
        Err(FillError::NotPresent) => {
            let read = read_all(&mut rt.stdin(), buffer);
            told(rt, program, b"standard input", read)
        }
        Err(FillError::TooLong) => {
            let why = io::Error::from_raw_os_error(NAME_TOO_LONG);
            told(rt, program, b"file name", Err(why))
        }
    }
}

// Whether argument `i` is the word.
pub fn argument_is(rt: &HostRuntime, i: usize, word: &[u8]) -> bool {
    let mut space = [0u8; NAME_ROOM];
    matches!(rt.arg(i, &mut space), Ok(n) if &space[..n] == word)
}
