// The numbers of document 01's words and enums, both ways: what stands in a table for each, and what stands for a number of a table; the numbers of kinds and of the classes of
// lines.
#![tactic(auto)]

ghost use Rattle.std.specs.Prelude.{◌≡◌};
ghost use Rattle.scope.specs.Answers.{reason_no};
ghost use Rattle.scope.specs.Tables.{pipe_status_no, status_no, type_no, target_no, comparison_no, operator_no, value_no, value_number};
ghost use Rattle.table_codes.specs.Codes.{pipe_status_from, status_from, type_from, target_from, comparison_from, operator_from, value_from, reason_from};
ghost use Rattle.table_codes.specs.CodeLaws.{pipe_status_back, status_back, type_back, target_back, comparison_back, operator_back, value_back, reason_back};

use scope::{
    Comparison, LinkAttribute, LinkStatus, NodeAttribute, Operator, PipeStatus, Reason,
    SystemAttribute, TankAttribute, Target, Value, ValveType,
};

// What stands in a table for a value, and back.
pub trait Coded {
    type Code;

    ghost code: { Self → Self.Code };

    ghost from_code: { Self.Code → Self };

    fn code(self) -> Self::Code
        ensures { result ≡ code self };

    // What it stands for; where it stands for nothing, one of the values.
    fn from_code(stored: Self::Code) -> Self
        ensures { result ≡ from_code stored };

    // Nothing is lost: what stands for a value is read back as it.
    ghost back: { (x : Self) → from_code (code x) ≡ x };
}

// ---- statuses and types

impl Coded for PipeStatus {
    type Code = u64;

    ghost code = { pipe_status_no };

    ghost from_code = { pipe_status_from };

    ghost back = { pipe_status_back };

    fn code(self) -> u64 {
        match self {
            PipeStatus::Open => 1,
            PipeStatus::Closed => 2,
            PipeStatus::CheckValve => 3,
        }
    }

    fn from_code(stored: u64) -> Self {
        match stored {
            2 => PipeStatus::Closed,
            3 => PipeStatus::CheckValve,
            _ => PipeStatus::Open,
        }
    }
}

impl Coded for LinkStatus {
    type Code = u64;

    ghost code = { status_no };

    ghost from_code = { status_from };

    ghost back = { status_back };

    fn code(self) -> u64 {
        match self {
            LinkStatus::Open => 1,
            LinkStatus::Closed => 2,
            LinkStatus::Active => 3,
        }
    }

    fn from_code(stored: u64) -> Self {
        match stored {
            1 => LinkStatus::Open,
            2 => LinkStatus::Closed,
            _ => LinkStatus::Active,
        }
    }
}

impl Coded for ValveType {
    type Code = u64;

    ghost code = { type_no };

    ghost from_code = { type_from };

    ghost back = { type_back };

    fn code(self) -> u64 {
        match self {
            ValveType::Gpv => 1,
            ValveType::Tcv => 2,
            ValveType::Fcv => 3,
            ValveType::Prv => 4,
            ValveType::Psv => 5,
            ValveType::Pbv => 6,
            ValveType::Pcv => 7,
        }
    }

    fn from_code(stored: u64) -> Self {
        match stored {
            1 => ValveType::Gpv,
            2 => ValveType::Tcv,
            3 => ValveType::Fcv,
            4 => ValveType::Prv,
            5 => ValveType::Psv,
            6 => ValveType::Pbv,
            _ => ValveType::Pcv,
        }
    }
}

// ---- what a clause says

impl Coded for Target {
    type Code = u64;

    ghost code = { target_no };

    ghost from_code = { target_from };

    ghost back = { target_back };

    fn code(self) -> u64 {
        match self {
            Target::System(SystemAttribute::Demand) => 1,
            Target::System(SystemAttribute::Time) => 2,
            Target::System(SystemAttribute::Clocktime) => 3,
            Target::Node(NodeAttribute::Demand) => 4,
            Target::Node(NodeAttribute::Head) => 5,
            Target::Node(NodeAttribute::Pressure) => 6,
            Target::Tank(TankAttribute::Level) => 7,
            Target::Tank(TankAttribute::Filltime) => 8,
            Target::Tank(TankAttribute::Draintime) => 9,
            Target::Link(LinkAttribute::Flow) => 10,
            Target::Link(LinkAttribute::Status) => 11,
            Target::Link(LinkAttribute::Setting) => 12,
        }
    }

    fn from_code(stored: u64) -> Self {
        match stored {
            1 => Target::System(SystemAttribute::Demand),
            2 => Target::System(SystemAttribute::Time),
            3 => Target::System(SystemAttribute::Clocktime),
            4 => Target::Node(NodeAttribute::Demand),
            5 => Target::Node(NodeAttribute::Head),
            0 | 6 => Target::Node(NodeAttribute::Pressure),
            7 => Target::Tank(TankAttribute::Level),
            8 => Target::Tank(TankAttribute::Filltime),
            9 => Target::Tank(TankAttribute::Draintime),
            10 => Target::Link(LinkAttribute::Flow),
            11 => Target::Link(LinkAttribute::Status),
            _ => Target::Link(LinkAttribute::Setting),
        }
    }
}

impl Coded for Comparison {
    type Code = u64;

    ghost code = { comparison_no };

    ghost from_code = { comparison_from };

    ghost back = { comparison_back };

    fn code(self) -> u64 {
        match self {
            Comparison::Equal => 1,
            Comparison::NotEqual => 2,
            Comparison::Above => 3,
            Comparison::Below => 4,
            Comparison::AtLeast => 5,
            Comparison::AtMost => 6,
        }
    }

    fn from_code(stored: u64) -> Self {
        match stored {
            1 => Comparison::Equal,
            2 => Comparison::NotEqual,
            3 => Comparison::Above,
            4 => Comparison::Below,
            5 => Comparison::AtLeast,
            _ => Comparison::AtMost,
        }
    }
}

impl Coded for Operator {
    type Code = u64;

    ghost code = { operator_no };

    ghost from_code = { operator_from };

    ghost back = { operator_back };

    fn code(self) -> u64 {
        match self {
            Operator::And => 1,
            Operator::Or => 2,
        }
    }

    fn from_code(stored: u64) -> Self {
        match stored {
            1 => Operator::And,
            _ => Operator::Or,
        }
    }
}

// A status word and a number: 0 and the number, or a status and 0.
impl Coded for Value {
    type Code = (u64, f64);

    ghost code = { λ v. (value_no v, value_number v) };

    ghost from_code = { λ c. value_from c.0 c.1 };

    ghost back = { value_back };

    fn code(self) -> (u64, f64) {
        match self {
            Value::Number(x) => (0, x),
            Value::Status(s) => (s.code(), 0.0),
        }
    }

    fn from_code((status, number): (u64, f64)) -> Self {
        match status {
            0 => Value::Number(number),
            _ => Value::Status(LinkStatus::from_code(status)),
        }
    }
}

// ---- refusals

impl Coded for Reason {
    type Code = u8;

    ghost code = { reason_no };

    ghost from_code = { reason_from };

    ghost back = { reason_back };

    fn code(self) -> u8 {
        match self {
            Reason::Missing => 1,
            Reason::Malformed => 2,
            Reason::Used => 3,
            Reason::NotFound => 4,
            Reason::WrongKind => 5,
            Reason::XFalls => 6,
            Reason::UnknownWord => 7,
            Reason::NoCondition => 8,
            Reason::NoAction => 9,
            Reason::NoId => 10,
            Reason::TooLong => 20,
            Reason::HighByte => 21,
            Reason::BeyondReach => 22,
            Reason::NoRoom => 23,
            Reason::SmallTable => 28,
        }
    }

    fn from_code(stored: u8) -> Self {
        match stored {
            1 => Reason::Missing,
            2 => Reason::Malformed,
            3 => Reason::Used,
            4 => Reason::NotFound,
            5 => Reason::WrongKind,
            6 => Reason::XFalls,
            7 => Reason::UnknownWord,
            8 => Reason::NoCondition,
            9 => Reason::NoAction,
            10 => Reason::NoId,
            20 => Reason::TooLong,
            21 => Reason::HighByte,
            22 => Reason::BeyondReach,
            23 => Reason::NoRoom,
            _ => Reason::SmallTable,
        }
    }
}

// ---- kinds and classes

// The kinds of a node, of a link and of a clause, and the classes of lines. They stay numbers: those of the C interface (include/inp.h, enum inp_node_kind, inp_link_kind,
// inp_clause_kind and inp_class), each written and compared as it stands.
pub const JUNCTION: u64 = 1;

pub const RESERVOIR: u64 = 2;

pub const TANK: u64 = 3;

pub const PIPE: u64 = 1;

pub const PUMP: u64 = 2;

pub const VALVE: u64 = 3;

pub const CONDITION: u64 = 1;

pub const ACTION: u64 = 2;

pub const BLANK: u8 = 1;

pub const HEADER: u8 = 2;

pub const PASSED: u8 = 3;

pub const TAKEN: u8 = 4;

pub const REFUSED: u8 = 5;

pub const RULE_TAKEN: u8 = 6;

pub const RULE_REFUSED: u8 = 7;

pub const RULE_OPEN: u8 = 8;
