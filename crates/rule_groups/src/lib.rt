// Judges a rule group: its lines, seen one after another, make a sketch, and the sketch says whether the group is taken.
#![tactic(auto)]

ghost use Rattle.std.specs.Prelude.{◌≡◌, List, ℕ, ◌+◌, ◌≤◌, ◌<◌, length};
ghost use Rattle.scope.specs.Records.{Network, Clause, with_clauses};
ghost use Rattle.scope.specs.Sections.{room_clauses};
ghost use Rattle.scope.specs.Values.{good, on_read};
ghost use Rattle.scope.specs.Rules.{Draft, no_draft, judged};
ghost use Rattle.table_rows.specs.Holding.{Words};
ghost use Rattle.rule_lines.specs.Lines.{with_said, said_in, said_read, SayingFits, LineFits};
ghost use Rattle.rule_groups.specs.Sketches.{Sketched, SketchAs, JudgedAs};

use leaf_fields::Span;
use rule_lines::Saying;
use scope::{Counts, Kind, Reason};

// ---- the lines

// What the lines of a group have said so far; of its clauses only how many there are, and of which kinds.
#[derive(Clone, Copy)]
pub struct Sketch {
    pub id: Option<Span>,
    pub priority: Option<u64>,
    pub acting: bool,
    pub otherwise: bool,
    pub clauses: usize,
    pub conditions: bool,
    pub actions: bool,
}

pub fn no_sketch() -> Sketch
    ensures { (text : List ℕ) → Sketched text no_draft result }
{
    Sketch {
        id: None,
        priority: None,
        acting: false,
        otherwise: false,
        clauses: 0,
        conditions: false,
        actions: false,
    }
}

// The sketch with what a line says besides.
pub fn with_line(q: Sketch, said: Saying) -> Sketch
    requires { q.clauses + 1 < 18446744073709551616 }
    ensures { (text : List ℕ) (d : Draft) → Sketched text d q → SayingFits text said → Sketched text (with_said (said_in text said) d) result }
{
    match said {
        Saying::Named(id) => Sketch { id: Some(id), ..q },
        Saying::Ranked(n) => Sketch {
            priority: Some(n),
            ..q
        },
        Saying::Condition(_) => Sketch {
            clauses: q.clauses + 1,
            conditions: true,
            ..q
        },
        Saying::Action(a) => Sketch {
            acting: a.acting,
            otherwise: a.otherwise,
            clauses: q.clauses + 1,
            actions: true,
            ..q
        },
    }
}

// The sketch with one line more, or why the line is refused.
pub fn see(q: Sketch, read: Result<Saying, Reason>) -> Result<Sketch, Reason>
    requires { q.clauses + 1 < 18446744073709551616 }
    ensures { (text : List ℕ) (d : Draft) → Sketched text d q → LineFits text read → SketchAs text (on_read (said_read text read) (λ s. good (with_said s d))) result }
{
    let said = read?;
    Ok(with_line(q, said))
}

// ---- the group

// The group of that sketch: no condition, no action, no id, its id used, no room, in that order. Some of its clauses may stand in the words already.
pub fn judge_group(text: &[u8], q: Sketch, words: &[u64], s: Counts) -> Result<Span, Reason>
    requires { (m : Network) × Words text.now m words.now × (s.rules ≡ length m.rules) × (s.clauses ≤ room_clauses) }
    ensures { (m : Network) (cs : List Clause) (d : Draft) → Words text.now (with_clauses cs m) words.now
        → s.rules ≡ length m.rules → s.clauses ≡ length m.clauses → Sketched text.now d q
        → JudgedAs text.now d m (judged d m) result }
{
    if !q.conditions {
        return Err(Reason::NoCondition);
    }
    if !q.actions {
        return Err(Reason::NoAction);
    }
    let id = q.id.ok_or(Reason::NoId)?;
    let used = table_find::find_named(
        text,
        words,
        Kind::Rules,
        s.rules,
        leaf_fields::letters_of(text, id),
    );
    if used.is_some() {
        return Err(Reason::Used);
    }
    if table_rows::RULES_MOST <= s.rules || table_rows::CLAUSES_MOST - s.clauses < q.clauses {
        return Err(Reason::NoRoom);
    }
    Ok(id)
}
