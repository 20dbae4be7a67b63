// The section that a header opens, what a line is, and the lines of a group.
#![tactic(auto)]

ghost use Rattle.std.specs.Prelude.{◌≡◌, false, cond, take, drop};
ghost use Rattle.leaf_scans.specs.Lines as kind;
ghost use Rattle.leaf_scans.specs.Lines.{start_trimmed};
ghost use Rattle.scope_lines.specs.Stretch.{sec_by, own_by};
ghost use Rattle.scope.specs.Sections.{section_of, is_rules};
ghost use Rattle.scope.specs.Lines.{sort_by, sort_of};
ghost use Rattle.read_headers.specs.Sections.{link_section, series_section, other_section};
ghost use Rattle.read_headers.specs.Own.{sort_in, is_data, plain_by, OwnFrom, NextOwn};

use leaf_fields::Span;
use scope::Section;

// ---- the section that a header opens: `w` is the header's line, trimmed. A chain of four, as a check grows with the square of a chain's length

#[tactic(auto, unfolding(crate::specs::Sections::other_section))]
fn other_section(w: &[u8]) -> Section
    ensures { result ≡ other_section w.now }
{
    if leaf_letters::equal(w, b"[EMITTERS]") {
        return Section::Emitters;
    }
    if leaf_letters::equal(w, b"[COORDINATES]") {
        return Section::Coordinates;
    }
    if leaf_letters::equal(w, b"[TIMES]") {
        return Section::Times;
    }
    if leaf_letters::equal(w, b"[RULES]") {
        return Section::Rules;
    }
    Section::Passed
}

#[tactic(auto, unfolding(crate::specs::Sections::series_section))]
fn series_section(w: &[u8]) -> Section
    ensures { result ≡ series_section w.now }
{
    if leaf_letters::equal(w, b"[CURVES]") {
        return Section::Curves;
    }
    if leaf_letters::equal(w, b"[PATTERNS]") {
        return Section::Patterns;
    }
    if leaf_letters::equal(w, b"[DEMANDS]") {
        return Section::Demands;
    }
    other_section(w)
}

#[tactic(auto, unfolding(crate::specs::Sections::link_section))]
fn link_section(w: &[u8]) -> Section
    ensures { result ≡ link_section w.now }
{
    if leaf_letters::equal(w, b"[PIPES]") {
        return Section::Pipes;
    }
    if leaf_letters::equal(w, b"[PUMPS]") {
        return Section::Pumps;
    }
    if leaf_letters::equal(w, b"[VALVES]") {
        return Section::Valves;
    }
    series_section(w)
}

#[tactic(auto, unfolding(scope::specs::Sections::section_of, crate::specs::Sections::link_section, crate::specs::Sections::series_section, crate::specs::Sections::other_section))]
pub fn section_of(w: &[u8]) -> Section
    ensures { result ≡ section_of w.now }
{
    if leaf_letters::equal(w, b"[JUNCTIONS]") {
        return Section::Junctions;
    }
    if leaf_letters::equal(w, b"[RESERVOIRS]") {
        return Section::Reservoirs;
    }
    if leaf_letters::equal(w, b"[TANKS]") {
        return Section::Tanks;
    }
    link_section(w)
}

// ---- what a line is

#[derive(Clone, Copy)]
pub enum Sort {
    Empty,
    Heading(Section),
    Start,
    Other,
}

// A line that is neither blank nor a header, from its first field on.
#[tactic(auto, unfolding(scope::specs::Lines::sort_by))]
fn plain_sort(w: &[u8]) -> Sort
    ensures { sort_in result ≡ sort_by kind.other w.now }
{
    if leaf_letters::starts_with(w, b"RULE") {
        return Sort::Start;
    }
    Sort::Other
}

// What the line of `l` from `at` on is. Its first byte that is no whitespace tells most lines: only one with an R is compared with RULE.
// Only a header is trimmed at its end: no other line asks for it.
pub fn sort_of(l: &[u8], at: usize) -> Sort
    ensures { sort_in result ≡ sort_of (drop at l.now) }
{
    let start = leaf_fields::field_start(l, at);
    if l.len() <= start {
        return Sort::Empty;
    }
    match l[start] {
        b';' => Sort::Empty,
        b'[' => Sort::Heading(section_of(leaf_scans::trimmed(&l[start..]))),
        b'R' => plain_sort(&l[start..]),
        _ => Sort::Other,
    }
}

// Whether the line of `l` from `at` on is neither blank nor a header: its first byte that is no whitespace tells. `sort_of` is too long for the compiler to put it where
// it is called.
pub fn is_data(l: &[u8], at: usize) -> bool
    ensures { result ≡ is_data (sort_of (drop at l.now)) }
{
    let start = leaf_fields::field_start(l, at);
    if l.len() <= start {
        return false;
    }
    match l[start] {
        b';' => false,
        b'[' => false,
        _ => true,
    }
}

// Whether that byte tells that the line starts no group either, as it does of most lines.
pub fn is_plain(l: &[u8], at: usize) -> bool
    ensures { result ≡ plain_by (start_trimmed (drop at l.now)) }
{
    let start = leaf_fields::field_start(l, at);
    if l.len() <= start {
        return false;
    }
    match l[start] {
        b';' => false,
        b'[' => false,
        b'R' => false,
        _ => true,
    }
}

// Whether the line of `l` from `at` on is told to join its group, which is open.
pub fn is_joined(l: &[u8], at: usize, grouped: bool) -> bool
    ensures { result ≡ cond grouped (plain_by (start_trimmed (drop at l.now))) false }
{
    grouped && is_plain(l, at)
}

pub fn in_rules(s: Section) -> bool
    ensures { result ≡ is_rules s }
{
    matches!(s, Section::Rules)
}

// The section after a line.
pub fn section_by(k: Sort, s: Section) -> Section
    ensures { result ≡ sec_by (sort_in k) s }
{
    match k {
        Sort::Heading(opened) => opened,
        Sort::Empty | Sort::Start | Sort::Other => s,
    }
}

// Whether a line is one of the open group's.
pub fn own_by(k: Sort, s: Section) -> bool
    ensures { result ≡ own_by is_rules (sort_in k) s }
{
    matches!(k, Sort::Start | Sort::Other) && in_rules(s)
}

// ---- the lines of a group

// The next of the group's lines from `from` on, up to the end of the text.
fn own_from(text: &[u8], from: usize) -> Option<Span>
    ensures { OwnFrom text.now from result }
{
    let mut section = Section::Rules;
    let mut p = from;
    // From a line's end to the next: where a line ends is found by a scan that answers a place.
    while p < text.len() {
        let e = leaf_scans::line_end(text, p);
        let k = sort_of(leaf_letters::cut(text, 0, e), p);
        if own_by(k, section) {
            return Some(Span { at: p, end: e });
        }
        section = section_by(k, section);
        p = e;
    }
    None
}

// The next of the group's lines from `from` on, in a text read up to `at`. Lines of other sections may stand between.
pub fn next_own(text: &[u8], at: usize, from: usize) -> Option<Span>
    ensures { NextOwn text.now at from result }
{
    own_from(leaf_letters::cut(text, 0, at), from)
}

// The text up to the end of such a line: unlike other lines it is not cut at a `;`.
pub fn own_bytes(text: &[u8], line: Span) -> &[u8]
    ensures { result.now ≡ take line.end text.now }
{
    leaf_letters::cut(text, 0, line.end)
}
