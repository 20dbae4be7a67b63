// Lines one after another that are stored at once, or join their group, as most lines do. What a reading carries stays where it is meanwhile: each section has a loop of its own.
#![tactic(auto)]

ghost use Rattle.std.specs.Prelude.{◌≡◌, true, false, List, ℕ, ◌≤◌, length, Float};
ghost use Rattle.scope_lines.specs.Reader.{step};
ghost use Rattle.scope.specs.Sections.{is_rules, room_text};
ghost use Rattle.scope.specs.Lines.{inp};
ghost use Rattle.read_headers.specs.Sections.{passes_over};
ghost use Rattle.read_steps.specs.Held.{Fits, Goes};
ghost use Rattle.read_runs.specs.Onward.{Ready, Onward, LeftAt};

use read_marks::Refusal;
use read_steps::{State, Turn};
use scope::{Reason, Section};

// Where the lines end that were read, and the class that each of them has; where the next line is refused, why, and its end. The class is the byte that stands in the caller's table (inp_read_survey), so it stays a number.
#[derive(Clone, Copy)]
pub struct PlainRun {
    pub state: State,
    pub class: u8,
    pub refused: Option<(Reason, usize)>,
}

// The lines that are stored, up to a blank line, a header, or one that is refused. Where the section is a constant, the compiler makes a loop for it.
fn file_lines(
    section: Section,
    text: &[u8],
    s: State,
    words: &mut [u64],
    numbers: &mut [f64],
) -> PlainRun
    requires { Ready text.now s words.old numbers.old × (section ≡ s.section) × (is_rules section ≡ false) × (passes_over section ≡ false) }
    ensures { Onward text.now result.class s words.old numbers.old result.state words.new numbers.new
        × LeftAt text.now words.new numbers.new result.state result.refused }
{
    let mut t = s;
    // Over the state: a line's end is found from where the last one ended, and a refusal leaves it; an iterator would carry the same and be no plainer.
    while t.at < text.len() {
        let at = t.at;
        let ends = leaf_scans::line_ends(text, at);
        let e = ends.end;
        if read_headers::is_data(&text[..e], at) {
            let counts = t.counts;
            let kept = read_sections::store_line(
                section, text, at, ends.cut, counts, words, numbers,
            );
            match kept {
                Ok(c) => {
                    t = t.moved(section, c, e);
                }
                Err(r) => {
                    return PlainRun {
                        state: t,
                        class: table_codes::TAKEN,
                        refused: Some((r, e)),
                    };
                }
            }
        } else {
            return PlainRun {
                state: t,
                class: table_codes::TAKEN,
                refused: None,
            };
        }
    }
    PlainRun {
        state: t,
        class: table_codes::TAKEN,
        refused: None,
    }
}

// The lines that join the open group: only the place and the line's number go on.
fn join_lines(text: &[u8], s: State) -> PlainRun
    requires { (s.line ≤ s.at) × (length text.now ≤ room_text) × (is_rules s.section ≡ true) }
    ensures { (w : List ℕ) (f : List Float) → Ready text.now s w f
        → Onward text.now result.class s w f result.state w f × LeftAt text.now w f result.state result.refused }
{
    let section = s.section;
    let mut t = s;
    // Over the state, as in `file_lines`.
    while t.at < text.len() {
        let at = t.at;
        let e = leaf_scans::line_end(text, at);
        if read_headers::is_joined(&text[..e], at, t.group.is_some()) {
            let counts = t.counts;
            t = t.moved(section, counts, e);
        } else {
            return PlainRun {
                state: t,
                class: table_codes::RULE_OPEN,
                refused: None,
            };
        }
    }
    PlainRun {
        state: t,
        class: table_codes::RULE_OPEN,
        refused: None,
    }
}

// The lines from s on that need no more than that, and whether the next one is refused.
pub fn plain_lines(text: &[u8], s: State, words: &mut [u64], numbers: &mut [f64]) -> PlainRun
    requires { Ready text.now s words.old numbers.old }
    ensures { Onward text.now result.class s words.old numbers.old result.state words.new numbers.new
        × LeftAt text.now words.new numbers.new result.state result.refused }
{
    let section = s.section;
    match section {
        Section::Junctions => file_lines(Section::Junctions, text, s, words, numbers),
        Section::Reservoirs => file_lines(Section::Reservoirs, text, s, words, numbers),
        Section::Tanks => file_lines(Section::Tanks, text, s, words, numbers),
        Section::Pipes => file_lines(Section::Pipes, text, s, words, numbers),
        Section::Pumps => file_lines(Section::Pumps, text, s, words, numbers),
        Section::Valves => file_lines(Section::Valves, text, s, words, numbers),
        Section::Curves => file_lines(Section::Curves, text, s, words, numbers),
        Section::Patterns => file_lines(Section::Patterns, text, s, words, numbers),
        Section::Demands => file_lines(Section::Demands, text, s, words, numbers),
        Section::Emitters => file_lines(Section::Emitters, text, s, words, numbers),
        Section::Coordinates => file_lines(Section::Coordinates, text, s, words, numbers),
        Section::Times => file_lines(Section::Times, text, s, words, numbers),
        Section::Rules => join_lines(text, s),
        Section::Passed => PlainRun {
            state: s,
            class: table_codes::PASSED,
            refused: None,
        },
    }
}

// The line after those: it is refused, or a step reads it.
pub fn turn_after(text: &[u8], run: PlainRun, words: &mut [u64], numbers: &mut [f64]) -> Turn
    requires { Fits text.now run.state words.old numbers.old × LeftAt text.now words.old numbers.old run.state run.refused }
    ensures { Goes text.now run.state words.old numbers.old (step inp false) result words.new numbers.new }
{
    let s = run.state;
    let Some((reason, end)) = run.refused else {
        return read_steps::step(text, s, words, numbers);
    };
    Turn {
        state: s.moved(s.section, s.counts, end),
        class: table_codes::REFUSED,
        closed: None,
        refused: Some(Refusal {
            reason,
            piece: s.line + 1,
        }),
    }
}
