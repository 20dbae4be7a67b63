// One line of a text: what it does to a reading, and to the tables that the caller lends.
#![tactic(auto)]

ghost use Rattle.std.specs.Prelude.{◌≡◌, false, cond, ◌+◌, ◌<◌, drop, Some};
ghost use Rattle.leaf_scans.specs.Lines.{line_len};
ghost use Rattle.scope_lines.specs.Reader.{step, closes, shut};
ghost use Rattle.scope_lines.specs.Text.{body_at};
ghost use Rattle.scope.specs.Sections.{room_lines};
ghost use Rattle.scope.specs.Records.{no_network, counts_of};
ghost use Rattle.scope.specs.Lines.{sort_of, inp};
ghost use Rattle.read_headers.specs.Own.{sort_in};
ghost use Rattle.read_steps.specs.Held.{Fits, Unstored, Goes, own_line, moved_to, joined_to, shut_to, new_state, quiet, plain_turn, closes_by};

use read_headers::Sort;
use read_marks::{Closed, Refusal};
use scope::{Counts, Section};

// The open group, by its first line: its place, and its number.
#[derive(Clone, Copy)]
pub struct OpenGroup {
    pub first: usize,
    pub no: usize,
}

// The reading: the section, the open group, the counts, and the next line.
#[derive(Clone, Copy)]
pub struct State {
    pub section: Section,
    pub group: Option<OpenGroup>,
    pub counts: Counts,
    pub at: usize,
    pub line: usize,
}

// What a line did: its class, the group that it closed, and why the piece that it ended was refused. The class is the byte that stands in the caller's table (inp_read_survey), so it stays a number.
#[derive(Clone, Copy)]
pub struct Turn {
    pub state: State,
    pub class: u8,
    pub closed: Option<Closed>,
    pub refused: Option<Refusal>,
}

pub fn no_counts() -> Counts
    ensures { result ≡ counts_of no_network }
{
    Counts {
        nodes: 0,
        links: 0,
        curves: 0,
        points: 0,
        patterns: 0,
        multipliers: 0,
        demands: 0,
        rules: 0,
        clauses: 0,
    }
}

// ---- the state, one line on

impl State {
    pub fn new() -> Self
        ensures { result ≡ new_state }
    {
        State {
            section: Section::Passed,
            group: None,
            counts: no_counts(),
            at: 0,
            line: 0,
        }
    }

    // Past the line that ends at `e`, in a section, with the counts after it.
    pub fn moved(self, section: Section, counts: Counts, e: usize) -> Self
        requires { self.line < room_lines }
        ensures { result ≡ moved_to self section counts e }
    {
        State {
            section,
            group: self.group,
            counts,
            at: e,
            line: self.line + 1,
        }
    }

    // The line joins the open group, or opens one.
    fn joined(self, e: usize) -> Self
        requires { self.line < room_lines }
        ensures { result ≡ joined_to self e }
    {
        let group = self.group.unwrap_or(OpenGroup {
            first: self.at,
            no: self.line + 1,
        });
        State {
            group: Some(group),
            at: e,
            line: self.line + 1,
            ..self
        }
    }

    // The group is shut.
    fn shut(self, counts: Counts, e: usize) -> Self
        requires { self.line < room_lines }
        ensures { result ≡ shut_to self counts e }
    {
        State {
            group: None,
            counts,
            at: e,
            line: self.line + 1,
            ..self
        }
    }
}

// ---- one line

// The class of the line that closes a group: the group's, or blank.
fn own_class(dropped: bool, k: u8) -> u8
    ensures { result ≡ cond dropped k 1 }
{
    if dropped { k } else { table_codes::BLANK }
}

// The open group is closed, at a RULE line, which is dropped, or at a blank one.
fn close(
    text: &[u8],
    s: State,
    group: OpenGroup,
    e: usize,
    dropped: bool,
    words: &mut [u64],
    numbers: &mut [f64],
) -> Turn
    requires { Fits text.now s words.old numbers.old × (e ≡ s.at + line_len (drop s.at text.now)) × (s.group ≡ Some group) }
    ensures { Goes text.now s words.old numbers.old (λ m l. closes (shut inp m) (own_line dropped m.sec)) result words.new numbers.new }
{
    let no = group.no;
    let k = rule_store::close_group(text, group.first, s.at, s.counts, words, numbers);
    match k {
        Ok(c) => Turn {
            state: s.shut(c, e),
            class: own_class(dropped, table_codes::RULE_TAKEN),
            closed: Some(Closed {
                first: no,
                class: table_codes::RULE_TAKEN,
            }),
            refused: None,
        },
        Err(reason) => Turn {
            state: s.shut(s.counts, e),
            class: own_class(dropped, table_codes::RULE_REFUSED),
            closed: Some(Closed {
                first: no,
                class: table_codes::RULE_REFUSED,
            }),
            refused: Some(Refusal { reason, piece: no }),
        },
    }
}

// A line that closes no group and is not refused.
fn quiet(state: State, class: u8) -> Turn
    ensures { result ≡ quiet state class }
{
    Turn {
        state,
        class,
        closed: None,
        refused: None,
    }
}

// A line that does nothing but perhaps set the section.
fn still(s: State, section: Section, e: usize, class: u8) -> Turn
    requires { s.line < room_lines }
    ensures { result ≡ quiet (moved_to s section s.counts e) class }
{
    quiet(s.moved(section, s.counts, e), class)
}

// A line that is neither blank nor a header and closes nothing: in RULES it joins its group, elsewhere it is passed over.
fn plain(s: State, e: usize) -> Turn
    requires { s.line < room_lines }
    ensures { result ≡ plain_turn s e }
{
    if read_headers::in_rules(s.section) {
        return quiet(s.joined(e), table_codes::RULE_OPEN);
    }
    still(s, s.section, e, table_codes::PASSED)
}

// The open group, where the line closes it: a blank one does, and in RULES one that starts with RULE.
fn closes(k: Sort, section: Section, group: Option<OpenGroup>) -> Option<OpenGroup>
    ensures { result ≡ closes_by (sort_in k) section group }
{
    match k {
        Sort::Empty => group,
        Sort::Heading(_) => None,
        Sort::Start => {
            if read_headers::in_rules(section) {
                return group;
            }
            None
        }
        Sort::Other => None,
    }
}

// The next line, which is of the sort `k` and ends at `e`. A RULE line that closes a group is the group's own.
fn take_turn(
    text: &[u8],
    s: State,
    e: usize,
    k: Sort,
    words: &mut [u64],
    numbers: &mut [f64],
) -> Turn
    requires { Fits text.now s words.old numbers.old × (e ≡ s.at + line_len (drop s.at text.now)) × (sort_of (body_at text.now s.at) ≡ sort_in k) × Unstored (sort_in k) s.section }
    ensures { Goes text.now s words.old numbers.old (step inp false) result words.new numbers.new }
{
    if let Some(group) = closes(k, s.section, s.group) {
        let own = read_headers::own_by(k, s.section);
        return close(text, s, group, e, own, words, numbers);
    }
    match k {
        Sort::Empty => still(s, s.section, e, table_codes::BLANK),
        Sort::Heading(x) => still(s, x, e, table_codes::HEADER),
        Sort::Start => plain(s, e),
        Sort::Other => plain(s, e),
    }
}

// The next line, where no section stores it.
pub fn step(text: &[u8], s: State, words: &mut [u64], numbers: &mut [f64]) -> Turn
    requires { Fits text.now s words.old numbers.old × Unstored (sort_of (body_at text.now s.at)) s.section }
    ensures { Goes text.now s words.old numbers.old (step inp false) result words.new numbers.new }
{
    let e = leaf_scans::line_end(text, s.at);
    let k = read_headers::sort_of(&text[..e], s.at);
    take_turn(text, s, e, k, words, numbers)
}
