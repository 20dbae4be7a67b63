// Fields, as parts of the text. A line is the caller's text up to the line's end, with the place where it starts: so every place is a place of the text.
#![tactic(auto)]

ghost use Rattle.std.specs.Prelude.{◌≡◌, List, ℕ};
ghost use Rattle.leaf_fields.specs.Fields.{part, start_at, fields_at, letters_or, Next, Past};

use leaf_scans::Kind;

// The bytes from `at` up to `end`.
#[derive(Clone, Copy)]
pub struct Span {
    pub at: usize,
    pub end: usize,
}

// The bytes of a span, as many as the text has.
pub fn letters_of(l: &[u8], s: Span) -> &[u8]
    ensures { result.now ≡ part s.at s.end l.now }
{
    if s.end < s.at {
        return leaf_letters::cut(l, s.at, 0);
    }
    leaf_letters::cut(l, s.at, s.end - s.at)
}

// Where the whitespace from `at` on ends: the next field starts there, if there is one.
pub fn field_start(l: &[u8], at: usize) -> usize
    ensures { result ≡ start_at l.now at }
{
    leaf_scans::reach(l, at, Kind::Space)
}

// The next field from `at` on. Where it starts stands no whitespace, so its end is looked for from the byte after.
pub fn next_field(l: &[u8], at: usize) -> Option<Span>
    ensures { Next l.now at result }
{
    let start = field_start(l, at);
    if start < l.len() {
        let end = leaf_scans::reach(l, start + 1, Kind::Word);
        return Some(Span { at: start, end });
    }
    None
}

// Where a field ends that was the next from `at` on: the fields from there on are the rest.
pub fn field_end(f: Option<Span>, at: usize) -> usize
    ensures { (l : List ℕ) → Next l at f → Past l at result }
{
    let Some(s) = f else {
        return at;
    };
    s.end
}

// Where the next field ends.
pub fn past_field(l: &[u8], at: usize) -> usize
    ensures { Past l.now at result }
{
    let f = next_field(l, at);
    field_end(f, at)
}

// The next field's bytes, a part of the line; or, where there is none, the other text.
pub fn field_or<'a>(l: &'a [u8], at: usize, other: &'a [u8]) -> &'a [u8]
    ensures { result.now ≡ letters_or other.now (fields_at l.now at) }
{
    let f = next_field(l, at);
    let Some(s) = f else {
        return other;
    };
    letters_of(l, s)
}
