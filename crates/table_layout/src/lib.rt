// Every number of the tables' layout, by its name. Each method answers the definition's number, so the layout of the code (crates/table_rows/src) is that of the definitions
// (crates/scope/specs/Layout.antt). The program layout prints them.
#![tactic(auto)]

ghost use Rattle.std.specs.Prelude.{◌≡◌, ℕ};
ghost use Rattle.table_layout.specs.Places.{region_at, region_width, region_most, numbers_at, numbers_width, room_long, count_place, node_word_place};
ghost use Rattle.table_layout.specs.Places.{node_number_place, link_word_place, link_number_place, series_place, rule_word_place, clause_word_place, inner_place};
ghost use Rattle.table_layout.specs.Places.{slots_place};

// A name that stands for one number.
pub trait Place: Copy {
    ghost number: { Self → ℕ };

    // The definition's number for the name.
    fn number(self) -> usize
        ensures { result ≡ number self };
}

// ---- rooms: how long each table must be, and how long a text may be

#[derive(Clone, Copy)]
pub enum Room {
    Text,
    Words,
    Numbers,
    Classes,
    Reasons,
}

impl Place for Room {
    ghost number = { room_long };

    fn number(self) -> usize {
        match self {
            Room::Text => table_rows::TEXT_ROOM,
            Room::Words => table_rows::WORDS_ROOM,
            Room::Numbers => table_rows::NUMBERS_ROOM,
            Room::Classes => table_rows::LINES_ROOM,
            Room::Reasons => table_rows::LINES_ROOM,
        }
    }
}

// ---- the regions of the words that hold records: where each starts, how many words a record has, how many there can be

#[derive(Clone, Copy)]
pub enum Region {
    Nodes,
    Links,
    Curves,
    Points,
    Patterns,
    Multipliers,
    Demands,
    Times,
    Rules,
    Clauses,
}

impl Region {
    pub fn at(self) -> usize
        ensures { result ≡ region_at self }
    {
        match self {
            Region::Nodes => table_rows::NODES_AT,
            Region::Links => table_rows::LINKS_AT,
            Region::Curves => table_rows::CURVES_AT,
            Region::Points => table_rows::POINTS_AT,
            Region::Patterns => table_rows::PATTERNS_AT,
            Region::Multipliers => table_rows::MULTIPLIERS_AT,
            Region::Demands => table_rows::DEMANDS_AT,
            Region::Times => table_rows::TIMES_AT,
            Region::Rules => table_rows::RULES_AT,
            Region::Clauses => table_rows::CLAUSES_AT,
        }
    }

    pub fn width(self) -> usize
        ensures { result ≡ region_width self }
    {
        match self {
            Region::Nodes => table_rows::NODES_WIDTH,
            Region::Links => table_rows::LINKS_WIDTH,
            Region::Curves => table_rows::CURVES_WIDTH,
            Region::Points => table_rows::POINTS_WIDTH,
            Region::Patterns => table_rows::PATTERNS_WIDTH,
            Region::Multipliers => table_rows::MULTIPLIERS_WIDTH,
            Region::Demands => table_rows::DEMANDS_WIDTH,
            Region::Times => table_rows::TIMES_WIDTH,
            Region::Rules => table_rows::RULES_WIDTH,
            Region::Clauses => table_rows::CLAUSES_WIDTH,
        }
    }

    pub fn most(self) -> usize
        ensures { result ≡ region_most self }
    {
        match self {
            Region::Nodes => table_rows::NODES_MOST,
            Region::Links => table_rows::LINKS_MOST,
            Region::Curves => table_rows::CURVES_MOST,
            Region::Points => table_rows::POINTS_MOST,
            Region::Patterns => table_rows::PATTERNS_MOST,
            Region::Multipliers => table_rows::MULTIPLIERS_MOST,
            Region::Demands => table_rows::DEMANDS_MOST,
            Region::Times => table_rows::TIMES_MOST,
            Region::Rules => table_rows::RULES_MOST,
            Region::Clauses => table_rows::CLAUSES_MOST,
        }
    }
}

// ---- the regions of the numbers, for the same records

#[derive(Clone, Copy)]
pub enum Numbers {
    Node,
    Link,
    Point,
    Multiplier,
    Demand,
    Clause,
}

impl Numbers {
    pub fn at(self) -> usize
        ensures { result ≡ numbers_at self }
    {
        match self {
            Numbers::Node => table_rows::NODE_NUMBERS_AT,
            Numbers::Link => table_rows::LINK_NUMBERS_AT,
            Numbers::Point => table_rows::POINT_NUMBERS_AT,
            Numbers::Multiplier => table_rows::MULTIPLIER_NUMBERS_AT,
            Numbers::Demand => table_rows::DEMAND_NUMBERS_AT,
            Numbers::Clause => table_rows::CLAUSE_NUMBERS_AT,
        }
    }

    pub fn width(self) -> usize
        ensures { result ≡ numbers_width self }
    {
        match self {
            Numbers::Node => table_rows::NODE_NUMBERS_WIDTH,
            Numbers::Link => table_rows::LINK_NUMBERS_WIDTH,
            Numbers::Point => table_rows::POINT_NUMBERS_WIDTH,
            Numbers::Multiplier => table_rows::MULTIPLIER_NUMBERS_WIDTH,
            Numbers::Demand => table_rows::DEMAND_NUMBERS_WIDTH,
            Numbers::Clause => table_rows::CLAUSE_NUMBERS_WIDTH,
        }
    }
}

// ---- the counts, which stand last among the words

#[derive(Clone, Copy)]
pub enum Count {
    CountsAt,
    CountsWidth,
    CountNodes,
    CountLinks,
    CountCurves,
    CountPoints,
    CountPatterns,
    CountMultipliers,
    CountDemands,
    CountRules,
    CountClauses,
}

impl Place for Count {
    ghost number = { count_place };

    fn number(self) -> usize {
        match self {
            Count::CountsAt => table_rows::COUNTS_AT,
            Count::CountsWidth => table_rows::COUNTS_WIDTH,
            Count::CountNodes => table_rows::COUNT_NODES,
            Count::CountLinks => table_rows::COUNT_LINKS,
            Count::CountCurves => table_rows::COUNT_CURVES,
            Count::CountPoints => table_rows::COUNT_POINTS,
            Count::CountPatterns => table_rows::COUNT_PATTERNS,
            Count::CountMultipliers => table_rows::COUNT_MULTIPLIERS,
            Count::CountDemands => table_rows::COUNT_DEMANDS,
            Count::CountRules => table_rows::COUNT_RULES,
            Count::CountClauses => table_rows::COUNT_CLAUSES,
        }
    }
}

// ---- the words of an id and of a node

#[derive(Clone, Copy)]
pub enum NodeWord {
    IdPlace,
    IdLength,
    Kind,
    NamePlace,
    NameLength,
    Detail,
    Placed,
}

impl Place for NodeWord {
    ghost number = { node_word_place };

    fn number(self) -> usize {
        match self {
            NodeWord::IdPlace => table_rows::ID_PLACE,
            NodeWord::IdLength => table_rows::ID_LENGTH,
            NodeWord::Kind => table_rows::NODE_KIND,
            NodeWord::NamePlace => table_rows::NODE_NAME + table_rows::NAME_PLACE,
            NodeWord::NameLength => table_rows::NODE_NAME + table_rows::NAME_LENGTH,
            NodeWord::Detail => table_rows::NODE_DETAIL,
            NodeWord::Placed => table_rows::NODE_PLACED,
        }
    }
}

// ---- the numbers of a node

#[derive(Clone, Copy)]
pub enum NodeNumber {
    NodeElevation,
    JunctionEmitter,
    TankInitialLevel,
    TankMinimumLevel,
    TankMaximumLevel,
    TankDiameter,
    TankMinimumVolume,
    NodeX,
    NodeY,
}

impl Place for NodeNumber {
    ghost number = { node_number_place };

    fn number(self) -> usize {
        match self {
            NodeNumber::NodeElevation => table_rows::NODE_ELEVATION,
            NodeNumber::JunctionEmitter => table_rows::JUNCTION_EMITTER,
            NodeNumber::TankInitialLevel => table_rows::TANK_INITIAL_LEVEL,
            NodeNumber::TankMinimumLevel => table_rows::TANK_MINIMUM_LEVEL,
            NodeNumber::TankMaximumLevel => table_rows::TANK_MAXIMUM_LEVEL,
            NodeNumber::TankDiameter => table_rows::TANK_DIAMETER,
            NodeNumber::TankMinimumVolume => table_rows::TANK_MINIMUM_VOLUME,
            NodeNumber::NodeX => table_rows::NODE_X,
            NodeNumber::NodeY => table_rows::NODE_Y,
        }
    }
}

// ---- the words of a link

#[derive(Clone, Copy)]
pub enum LinkWord {
    Start,
    End,
    Kind,
    Detail,
    NamePlace,
    NameLength,
}

impl Place for LinkWord {
    ghost number = { link_word_place };

    fn number(self) -> usize {
        match self {
            LinkWord::Start => table_rows::LINK_START,
            LinkWord::End => table_rows::LINK_END,
            LinkWord::Kind => table_rows::LINK_KIND,
            LinkWord::Detail => table_rows::LINK_DETAIL,
            LinkWord::NamePlace => table_rows::LINK_NAME + table_rows::NAME_PLACE,
            LinkWord::NameLength => table_rows::LINK_NAME + table_rows::NAME_LENGTH,
        }
    }
}

// ---- the numbers of a link

#[derive(Clone, Copy)]
pub enum LinkNumber {
    PipeLength,
    PipeDiameter,
    PipeRoughness,
    PipeMinorLoss,
    PumpSpeed,
    PumpPower,
    ValveSetting,
    ValveDiameter,
    ValveMinorLoss,
}

impl Place for LinkNumber {
    ghost number = { link_number_place };

    fn number(self) -> usize {
        match self {
            LinkNumber::PipeLength => table_rows::PIPE_LENGTH,
            LinkNumber::PipeDiameter => table_rows::PIPE_DIAMETER,
            LinkNumber::PipeRoughness => table_rows::PIPE_ROUGHNESS,
            LinkNumber::PipeMinorLoss => table_rows::PIPE_MINOR_LOSS,
            LinkNumber::PumpSpeed => table_rows::PUMP_SPEED,
            LinkNumber::PumpPower => table_rows::PUMP_POWER,
            LinkNumber::ValveSetting => table_rows::VALVE_SETTING,
            LinkNumber::ValveDiameter => table_rows::VALVE_DIAMETER,
            LinkNumber::ValveMinorLoss => table_rows::VALVE_MINOR_LOSS,
        }
    }
}

// ---- the numbers of a point, the words of a demand and of a time

#[derive(Clone, Copy)]
pub enum Series {
    PointX,
    PointY,
    DemandNode,
    DemandOwn,
    DemandNamePlace,
    DemandNameLength,
    DemandIndex,
    TimeSet,
    TimeSeconds,
}

impl Place for Series {
    ghost number = { series_place };

    fn number(self) -> usize {
        match self {
            Series::PointX => table_rows::POINT_X,
            Series::PointY => table_rows::POINT_Y,
            Series::DemandNode => table_rows::DEMAND_NODE,
            Series::DemandOwn => table_rows::DEMAND_OWN,
            Series::DemandNamePlace => table_rows::DEMAND_NAME + table_rows::NAME_PLACE,
            Series::DemandNameLength => table_rows::DEMAND_NAME + table_rows::NAME_LENGTH,
            Series::DemandIndex => table_rows::DEMAND_INDEX,
            Series::TimeSet => table_rows::TIME_SET,
            Series::TimeSeconds => table_rows::TIME_SECONDS,
        }
    }
}

// ---- the words of a rule

#[derive(Clone, Copy)]
pub enum RuleWord {
    First,
    Count,
    PrioritySet,
    Priority,
}

impl Place for RuleWord {
    ghost number = { rule_word_place };

    fn number(self) -> usize {
        match self {
            RuleWord::First => table_rows::RULE_FIRST,
            RuleWord::Count => table_rows::RULE_COUNT,
            RuleWord::PrioritySet => table_rows::RULE_PRIORITY_SET,
            RuleWord::Priority => table_rows::RULE_PRIORITY,
        }
    }
}

// ---- the words of a clause

#[derive(Clone, Copy)]
pub enum ClauseWord {
    Kind,
    Status,
    NamePlace,
    NameLength,
    ConditionOperator,
    ConditionTarget,
    ConditionComparison,
    ActionElse,
    ActionLink,
}

impl Place for ClauseWord {
    ghost number = { clause_word_place };

    fn number(self) -> usize {
        match self {
            ClauseWord::Kind => table_rows::CLAUSE_KIND,
            ClauseWord::Status => table_rows::CLAUSE_STATUS,
            ClauseWord::NamePlace => table_rows::CLAUSE_NAME + table_rows::NAME_PLACE,
            ClauseWord::NameLength => table_rows::CLAUSE_NAME + table_rows::NAME_LENGTH,
            ClauseWord::ConditionOperator => table_rows::CONDITION_OPERATOR,
            ClauseWord::ConditionTarget => table_rows::CONDITION_TARGET,
            ClauseWord::ConditionComparison => table_rows::CONDITION_COMPARISON,
            ClauseWord::ActionElse => table_rows::ACTION_ELSE,
            ClauseWord::ActionLink => table_rows::ACTION_LINK,
        }
    }
}

// ---- what only the library needs of an id, a name and the tables

#[derive(Clone, Copy)]
pub enum Inner {
    LinesRoom,
    IdKey,
    IdWidth,
    NamePlace,
    NameLength,
    NameWidth,
    NodeName,
    LinkName,
    DemandName,
    ClauseName,
    RecordWords,
}

impl Place for Inner {
    ghost number = { inner_place };

    fn number(self) -> usize {
        match self {
            Inner::LinesRoom => table_rows::LINES_ROOM,
            Inner::IdKey => table_rows::ID_KEY,
            Inner::IdWidth => table_rows::ID_WIDTH,
            Inner::NamePlace => table_rows::NAME_PLACE,
            Inner::NameLength => table_rows::NAME_LENGTH,
            Inner::NameWidth => table_rows::NAME_WIDTH,
            Inner::NodeName => table_rows::NODE_NAME,
            Inner::LinkName => table_rows::LINK_NAME,
            Inner::DemandName => table_rows::DEMAND_NAME,
            Inner::ClauseName => table_rows::CLAUSE_NAME,
            Inner::RecordWords => table_rows::RECORD_WORDS,
        }
    }
}

// ---- the slots, which only the library needs

#[derive(Clone, Copy)]
pub enum Slots {
    NodeSlotsAt,
    LinkSlotsAt,
    CurveSlotsAt,
    PatternSlotsAt,
    DemandSlotsAt,
    SlotsMost,
    DemandSlotsMost,
}

impl Place for Slots {
    ghost number = { slots_place };

    fn number(self) -> usize {
        match self {
            Slots::NodeSlotsAt => table_rows::NODE_SLOTS_AT,
            Slots::LinkSlotsAt => table_rows::LINK_SLOTS_AT,
            Slots::CurveSlotsAt => table_rows::CURVE_SLOTS_AT,
            Slots::PatternSlotsAt => table_rows::PATTERN_SLOTS_AT,
            Slots::DemandSlotsAt => table_rows::DEMAND_SLOTS_AT,
            Slots::SlotsMost => table_rows::SLOTS_MOST,
            Slots::DemandSlotsMost => table_rows::DEMAND_SLOTS_MOST,
        }
    }
}
