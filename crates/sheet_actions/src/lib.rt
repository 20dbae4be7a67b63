// What one clause adds to the counts of closings, openings, activations and settings.
#![tactic(auto)]

ghost use Rattle.std.specs.Prelude.{◌≡◌, ◌&&◌, ◌-◌};
ghost use Rattle.scope.specs.Sections.{room_clauses};
ghost use Rattle.sheet_actions.specs.Steps.{is_branch, is_at, Few, with_move, with_clause};

use scope::{Action, LinkStatus, Value};
use stored_records::Clause;

// How many actions give the status CLOSED, OPEN and ACTIVE, and how many a setting.
#[derive(Clone, Copy)]
pub struct Moves {
    pub closes: usize,
    pub opens: usize,
    pub activates: usize,
    pub sets: usize,
}

// An action under ELSE or under THEN, as asked, and of the link at the place `which` or, without one, of any link.
fn is_chosen(a: Action, which: Option<usize>, otherwise: bool) -> bool
    ensures { result ≡ (is_branch otherwise a.otherwise && is_at which a.link) }
{
    a.otherwise == otherwise && which.is_none_or(|i| a.link == i)
}

fn with_move(n: Moves, value: Value) -> Moves
    requires { Few (room_clauses - 1) n }
    ensures { result ≡ with_move n value }
{
    match value {
        Value::Status(LinkStatus::Closed) => Moves {
            closes: n.closes + 1,
            ..n
        },
        Value::Status(LinkStatus::Open) => Moves {
            opens: n.opens + 1,
            ..n
        },
        Value::Status(LinkStatus::Active) => Moves {
            activates: n.activates + 1,
            ..n
        },
        Value::Number(_) => Moves {
            sets: n.sets + 1,
            ..n
        },
    }
}

// The counts with what a clause adds to them.
pub fn with_clause(n: Moves, clause: Clause, which: Option<usize>, otherwise: bool) -> Moves
    requires { Few (room_clauses - 1) n }
    ensures { result ≡ with_clause which otherwise n clause }
{
    match clause {
        Clause::Action(a) if is_chosen(a, which, otherwise) => with_move(n, a.value),
        _ => n,
    }
}
