// The vocabulary of document 01, declared once. What each word means is said in specs/, heading by heading of the paper.
#![tactic(auto)]

ghost use Rattle.std.specs.Prelude.{◌≡◌};
ghost use Rattle.scope.specs.Values.{number_reason, time_reason};

use leaf_clock::TimeError;
use leaf_decimals::NumberError;
use leaf_fields::Span;

// "Sections read and sections passed over": the thirteen that are read, and whatever is passed over. `Passed` is a section like the others, and no None: lines are counted under it.
#[derive(Clone, Copy)]
pub enum Section {
    Junctions,
    Reservoirs,
    Tanks,
    Pipes,
    Pumps,
    Valves,
    Curves,
    Patterns,
    Demands,
    Emitters,
    Coordinates,
    Times,
    Rules,
    Passed,
}

// "Numbers of the answers": why something is refused. specs/Answers.antt gives each its number.
#[derive(Clone, Copy)]
pub enum Reason {
    Missing,
    Malformed,
    Used,
    NotFound,
    WrongKind,
    XFalls,
    UnknownWord,
    NoCondition,
    NoAction,
    NoId,
    TooLong,
    HighByte,
    BeyondReach,
    NoRoom,
    SmallTable,
}

// What `?` makes of a number, and of a time, that cannot be taken.
impl From<NumberError> for Reason {
    ghost from_gives = { λ e r. r ≡ number_reason e };

    fn from(e: NumberError) -> Reason {
        match e {
            NumberError::Malformed => Reason::Malformed,
            NumberError::Beyond => Reason::BeyondReach,
        }
    }
}

impl From<TimeError> for Reason {
    ghost from_gives = { λ e r. r ≡ time_reason e };

    fn from(e: TimeError) -> Reason {
        match e {
            TimeError::Malformed => Reason::Malformed,
            TimeError::Beyond => Reason::BeyondReach,
            TimeError::UnknownUnit => Reason::UnknownWord,
        }
    }
}

// The records that are looked up by their names.
#[derive(Clone, Copy)]
pub enum Kind {
    Nodes,
    Links,
    Curves,
    Patterns,
    Rules,
}

// A tank's six numbers, its volume curve and whether it may overflow.
#[derive(Clone, Copy)]
pub struct Tank {
    pub elevation: f64,
    pub initial: f64,
    pub minimum: f64,
    pub maximum: f64,
    pub diameter: f64,
    pub volume: f64,
    pub curve: Option<Span>,
    pub overflow: bool,
}

#[derive(Clone, Copy)]
pub enum PipeStatus {
    Open,
    Closed,
    CheckValve,
}

#[derive(Clone, Copy)]
pub struct Pipe {
    pub long: f64,
    pub diameter: f64,
    pub roughness: f64,
    pub minor: f64,
    pub status: PipeStatus,
}

#[derive(Clone, Copy)]
pub struct Pump {
    pub speed: f64,
    pub head: Option<Span>,
    pub power: f64,
}

#[derive(Clone, Copy)]
pub struct Valve {
    pub valve_type: ValveType,
    pub diameter: f64,
    pub setting: f64,
    pub minor: f64,
    pub curve: Option<Span>,
}

#[derive(Clone, Copy)]
pub enum LinkKind {
    Pipe(Pipe),
    Pump(Pump),
    Valve(Valve),
}

#[derive(Clone, Copy)]
pub enum LinkStatus {
    Open,
    Closed,
    Active,
}

#[derive(Clone, Copy)]
pub enum ValveType {
    Gpv,
    Tcv,
    Fcv,
    Prv,
    Psv,
    Pbv,
    Pcv,
}

// The six times that are kept. `Dropped` is a case, and no None: `set_time` (specs/Times.antt) says what each does to the network, this one nothing.
#[derive(Clone, Copy)]
pub enum TimeOption {
    Duration,
    HydraulicTimestep,
    PatternTimestep,
    ReportTimestep,
    PatternStart,
    StartClocktime,
    Dropped,
}

#[derive(Clone, Copy)]
pub enum SystemAttribute {
    Demand,
    Time,
    Clocktime,
}

#[derive(Clone, Copy)]
pub enum NodeAttribute {
    Demand,
    Head,
    Pressure,
}

#[derive(Clone, Copy)]
pub enum TankAttribute {
    Level,
    Filltime,
    Draintime,
}

#[derive(Clone, Copy)]
pub enum LinkAttribute {
    Flow,
    Status,
    Setting,
}

// What a condition looks at: one of four kinds, each with its own attribute.
#[derive(Clone, Copy)]
pub enum Target {
    System(SystemAttribute),
    Node(NodeAttribute),
    Tank(TankAttribute),
    Link(LinkAttribute),
}

#[derive(Clone, Copy)]
pub enum Comparison {
    Equal,
    NotEqual,
    Above,
    Below,
    AtLeast,
    AtMost,
}

#[derive(Clone, Copy)]
pub enum Operator {
    And,
    Or,
}

// A number, or one of the three status words.
#[derive(Clone, Copy)]
pub enum Value {
    Number(f64),
    Status(LinkStatus),
}

// A condition of a rule. The system has no name.
#[derive(Clone, Copy)]
pub struct Condition {
    pub operator: Operator,
    pub target: Target,
    pub name: Option<Span>,
    pub comparison: Comparison,
    pub value: Value,
}

// An action of a rule: a link by its place and its name, the status or the setting that it gets, and whether it is an else action.
#[derive(Clone, Copy)]
pub struct Action {
    pub link: usize,
    pub name: Span,
    pub value: Value,
    pub otherwise: bool,
}

// How many records of each kind there are.
#[derive(Clone, Copy)]
pub struct Counts {
    pub nodes: usize,
    pub links: usize,
    pub curves: usize,
    pub points: usize,
    pub patterns: usize,
    pub multipliers: usize,
    pub demands: usize,
    pub rules: usize,
    pub clauses: usize,
}

// What strict reading answers: 0 and line 0, or the number and the line of the first refused piece. Numbers, and no Result: `inp_read_strict` hands them to C.
#[derive(Clone, Copy)]
pub struct Answer {
    pub number: u8,
    pub line: usize,
}

// What a survey answers: 0, or the number of a text refused whole; the lines of the text and how many are of each class. The number is what `inp_read_survey` hands to C.
#[derive(Clone, Copy)]
pub struct Survey {
    pub number: u8,
    pub lines: usize,
    pub blank: usize,
    pub header: usize,
    pub passed: usize,
    pub taken: usize,
    pub refused: usize,
    pub ruletaken: usize,
    pub rulerefused: usize,
    pub ruleopen: usize,
}
