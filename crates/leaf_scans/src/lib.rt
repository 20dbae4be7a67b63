// White bytes and lines, found by scans: where a line ends, where it is cut, what is left of it when it is trimmed. `leaf_fields` scans
// for its fields the same way. A line is the caller's text up to the line's end, with the place where it starts: so every place is a place of the text.
#![tactic(auto)]

ghost use Rattle.std.specs.Prelude.{◌≡◌, ℕ, ◌+◌, length, take, drop};
ghost use Rattle.leaf_scans.specs.Lines.{is_space, line_len, end_trimmed, trimmed, cut_of};
ghost use Rattle.leaf_scans.specs.Scan.{is_kind, span_len};
ghost use Rattle.leaf_words.specs.Scan.{clear_len};

use leaf_digits::Class;

// ---- bytes, and scans over them

// Most bytes of a field are told by the first comparison alone.
pub fn is_space(b: u8) -> bool
    ensures { result ≡ is_space b }
{
    if b' ' < b {
        return false;
    }
    let k = leaf_digits::class_of(b);
    if let Class::Space = k { true } else { false }
}

// What the scan below passes over: whitespace; a field.
#[derive(Clone, Copy)]
pub enum Kind {
    Space,
    Word,
}

fn is_kind(k: Kind, b: u8) -> bool
    ensures { result ≡ is_kind k b }
{
    match k {
        Kind::Space => is_space(b),
        Kind::Word => !is_space(b),
    }
}

// Where the bytes of the kind end, from `at` on. It takes a kind and no closure: `span_len`, which the laws of fields and lines cite, is of kinds.
pub fn reach(l: &[u8], at: usize, k: Kind) -> usize
    ensures { result ≡ at + span_len k (drop at l.now) }
{
    let mut i = at;
    while i < l.len() {
        let ok = is_kind(k, l[i]);
        if ok {
            i += 1;
        } else {
            return i;
        }
    }
    i
}

// ---- lines

// Where the line at `at` ends, its line feed with it.
pub fn line_end(text: &[u8], at: usize) -> usize
    ensures { result ≡ at + line_len (drop at text.now) }
{
    let e = leaf_words::find_either(text, at, b'\n', b'\n');
    if e < text.len() { e + 1 } else { e }
}

// Where the line from `at` on stops: at its first `;` or line feed, or where the text ends.
fn line_stop(text: &[u8], at: usize) -> usize
    ensures { result ≡ at + clear_len 59 10 (drop at text.now) }
{
    leaf_words::find_either(text, at, b';', b'\n')
}

#[derive(Clone, Copy)]
pub struct Ends {
    pub cut: usize,
    pub end: usize,
}

// Where a line that stops there is cut, at its first `;`, and where it ends, its line feed with it.
fn ends_from(text: &[u8], stop: usize) -> Ends
    ensures { (at : ℕ) → stop ≡ at + clear_len 59 10 (drop at text.now)
        → (result.end ≡ at + line_len (drop at text.now)) × (result.cut ≡ at + length (cut_of (drop at (take result.end text.now)))) }
{
    match text.get(stop) {
        None => Ends {
            cut: stop,
            end: stop,
        },
        Some(b'\n') => Ends {
            cut: stop + 1,
            end: stop + 1,
        },
        Some(_) => {
            let end = line_end(text, stop);
            Ends { cut: stop, end }
        }
    }
}

// Where the line at `at` is cut, and where it ends.
pub fn line_ends(text: &[u8], at: usize) -> Ends
    ensures { (result.end ≡ at + line_len (drop at text.now)) × (result.cut ≡ at + length (cut_of (drop at (take result.end text.now)))) }
{
    ends_from(text, line_stop(text, at))
}

// A text without the whitespace at its end.
fn trim_end(l: &[u8]) -> &[u8]
    ensures { result.now ≡ end_trimmed l.now }
{
    let mut rest = l;
    while let [front @ .., last] = rest {
        if !is_space(*last) {
            return rest;
        }
        rest = front;
    }
    rest
}

// A line without the whitespace at its ends.
pub fn trimmed(l: &[u8]) -> &[u8]
    ensures { result.now ≡ trimmed l.now }
{
    trim_end(&l[reach(l, 0, Kind::Space)..])
}
