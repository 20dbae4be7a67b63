// How the programs write numbers and names: each is a value that is displayed.
#![tactic(auto)]

use leaf_fields::Span;
use scope::LinkStatus;
use std::fmt;

// The eight bytes of a number as hexadecimal digits; every NaN is the same.
#[derive(Clone, Copy)]
pub struct Bits(pub f64);

impl fmt::Display for Bits {
    fn fmt<W: fmt::Write>(&self, f: &mut fmt::Formatter<W>) -> fmt::Result {
        if self.0.is_nan() {
            return write!(f, "7ff8000000000000");
        }
        let bits = self.0.to_bits();
        write!(f, "{bits:016x}")
    }
}

// A place on the map or a point of a curve.
#[derive(Clone, Copy)]
pub struct Pair(pub f64, pub f64);

impl fmt::Display for Pair {
    fn fmt<W: fmt::Write>(&self, f: &mut fmt::Formatter<W>) -> fmt::Result {
        write!(f, "{},{}", Bits(self.0), Bits(self.1))
    }
}

// The letters of a name behind `=`. A backslash, a space and what does not print are escaped.
#[derive(Clone, Copy)]
pub struct Id<'a>(pub &'a [u8]);

impl Id<'_> {
    pub fn of(text: &[u8], place: Span) -> Id<'_> {
        Id(leaf_fields::letters_of(text, place))
    }
}

impl fmt::Display for Id<'_> {
    fn fmt<W: fmt::Write>(&self, f: &mut fmt::Formatter<W>) -> fmt::Result {
        f.write_char('=')?;
        for b in self.0 {
            match b {
                0..=b' ' | b'\\' | 127..=255 => write!(f, "\\x{b:02x}")?,
                _ => f.write_char(char::from(*b))?,
            }
        }
        Ok(())
    }
}

// A value; `-` where there is none.
#[derive(Clone, Copy)]
pub struct OrDash<T>(pub Option<T>);

impl<T: fmt::Display> fmt::Display for OrDash<T> {
    fn fmt<W: fmt::Write>(&self, f: &mut fmt::Formatter<W>) -> fmt::Result {
        match &self.0 {
            Some(x) => x.fmt(f),
            None => f.write_char('-'),
        }
    }
}

// A name, if there is one.
pub fn name_in(text: &[u8], name: Option<Span>) -> OrDash<Id<'_>> {
    OrDash(name.map(|place| Id::of(text, place)))
}

// A line as it stands, but for a byte that does not print: a blank.
#[derive(Clone, Copy)]
pub struct Plain<'a>(pub &'a [u8]);

impl fmt::Display for Plain<'_> {
    fn fmt<W: fmt::Write>(&self, f: &mut fmt::Formatter<W>) -> fmt::Result {
        for b in self.0 {
            match b {
                b' '..=b'~' => f.write_char(char::from(*b))?,
                _ => f.write_char(' ')?,
            }
        }
        Ok(())
    }
}

pub fn status_word(s: LinkStatus) -> &'static str {
    match s {
        LinkStatus::Open => "OPEN",
        LinkStatus::Closed => "CLOSED",
        LinkStatus::Active => "ACTIVE",
    }
}
