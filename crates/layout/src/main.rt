// Prints every number of the layout by its name, one a line, as table_layout answers it. bindings/layout holds what is printed against include/inp.h, bindings/rust, compare/model and
// docs/LAYOUT.md.
#![tactic(auto)]

use std::io;
use std::io::{BufWriter, Write};
use table_layout::{
    ClauseWord, Count, Inner, LinkNumber, LinkWord, NodeNumber, NodeWord, Numbers, Place, Region,
    Room, RuleWord, Series, Slots,
};

// Names that stand for one number each.
fn print_places<W: Write, P: Place>(out: &mut W, places: &[(&str, P)]) -> io::Result<()> {
    for (name, place) in places {
        let number = place.number();
        writeln!(out, "{name} {number}")?;
    }
    Ok(())
}

// The regions of the words that hold records: where each starts, how many words a record has, how many there can be.
fn print_regions<W: Write>(out: &mut W, regions: &[(&str, Region)]) -> io::Result<()> {
    for (name, region) in regions {
        let at = region.at();
        let width = region.width();
        let most = region.most();
        writeln!(
            out,
            "{name}_AT {at}\n{name}_WIDTH {width}\n{name}_MOST {most}"
        )?;
    }
    Ok(())
}

// The regions of the numbers, for the same records.
fn print_number_regions<W: Write>(out: &mut W, regions: &[(&str, Numbers)]) -> io::Result<()> {
    for (name, region) in regions {
        let at = region.at();
        let width = region.width();
        writeln!(out, "{name}_NUMBERS_AT {at}\n{name}_NUMBERS_WIDTH {width}")?;
    }
    Ok(())
}

// Rooms: how long each table must be, and how long a text may be.
const ROOMS: [(&str, Room); 5] = [
    ("TEXT_ROOM", Room::Text),
    ("WORDS_ROOM", Room::Words),
    ("NUMBERS_ROOM", Room::Numbers),
    ("CLASSES_ROOM", Room::Classes),
    ("REASONS_ROOM", Room::Reasons),
];

// The regions of the words.
const REGIONS: [(&str, Region); 10] = [
    ("NODES", Region::Nodes),
    ("LINKS", Region::Links),
    ("CURVES", Region::Curves),
    ("POINTS", Region::Points),
    ("PATTERNS", Region::Patterns),
    ("MULTIPLIERS", Region::Multipliers),
    ("DEMANDS", Region::Demands),
    ("TIMES", Region::Times),
    ("RULES", Region::Rules),
    ("CLAUSES", Region::Clauses),
];

// The regions of the numbers.
const NUMBER_REGIONS: [(&str, Numbers); 6] = [
    ("NODE", Numbers::Node),
    ("LINK", Numbers::Link),
    ("POINT", Numbers::Point),
    ("MULTIPLIER", Numbers::Multiplier),
    ("DEMAND", Numbers::Demand),
    ("CLAUSE", Numbers::Clause),
];

// The counts, which stand last among the words.
const COUNTS: [(&str, Count); 11] = [
    ("COUNTS_AT", Count::CountsAt),
    ("COUNTS_WIDTH", Count::CountsWidth),
    ("COUNT_NODES", Count::CountNodes),
    ("COUNT_LINKS", Count::CountLinks),
    ("COUNT_CURVES", Count::CountCurves),
    ("COUNT_POINTS", Count::CountPoints),
    ("COUNT_PATTERNS", Count::CountPatterns),
    ("COUNT_MULTIPLIERS", Count::CountMultipliers),
    ("COUNT_DEMANDS", Count::CountDemands),
    ("COUNT_RULES", Count::CountRules),
    ("COUNT_CLAUSES", Count::CountClauses),
];

// The words of an id and of a node.
const NODE_WORDS: [(&str, NodeWord); 7] = [
    ("ID_PLACE", NodeWord::IdPlace),
    ("ID_LENGTH", NodeWord::IdLength),
    ("NODE_KIND", NodeWord::Kind),
    ("NODE_NAME_PLACE", NodeWord::NamePlace),
    ("NODE_NAME_LENGTH", NodeWord::NameLength),
    ("NODE_DETAIL", NodeWord::Detail),
    ("NODE_PLACED", NodeWord::Placed),
];

// The numbers of a node.
const NODE_NUMBERS: [(&str, NodeNumber); 9] = [
    ("NODE_ELEVATION", NodeNumber::NodeElevation),
    ("JUNCTION_EMITTER", NodeNumber::JunctionEmitter),
    ("TANK_INITIAL_LEVEL", NodeNumber::TankInitialLevel),
    ("TANK_MINIMUM_LEVEL", NodeNumber::TankMinimumLevel),
    ("TANK_MAXIMUM_LEVEL", NodeNumber::TankMaximumLevel),
    ("TANK_DIAMETER", NodeNumber::TankDiameter),
    ("TANK_MINIMUM_VOLUME", NodeNumber::TankMinimumVolume),
    ("NODE_X", NodeNumber::NodeX),
    ("NODE_Y", NodeNumber::NodeY),
];

// The words of a link.
const LINK_WORDS: [(&str, LinkWord); 6] = [
    ("LINK_START", LinkWord::Start),
    ("LINK_END", LinkWord::End),
    ("LINK_KIND", LinkWord::Kind),
    ("LINK_DETAIL", LinkWord::Detail),
    ("LINK_NAME_PLACE", LinkWord::NamePlace),
    ("LINK_NAME_LENGTH", LinkWord::NameLength),
];

// The numbers of a link.
const LINK_NUMBERS: [(&str, LinkNumber); 9] = [
    ("PIPE_LENGTH", LinkNumber::PipeLength),
    ("PIPE_DIAMETER", LinkNumber::PipeDiameter),
    ("PIPE_ROUGHNESS", LinkNumber::PipeRoughness),
    ("PIPE_MINOR_LOSS", LinkNumber::PipeMinorLoss),
    ("PUMP_SPEED", LinkNumber::PumpSpeed),
    ("PUMP_POWER", LinkNumber::PumpPower),
    ("VALVE_SETTING", LinkNumber::ValveSetting),
    ("VALVE_DIAMETER", LinkNumber::ValveDiameter),
    ("VALVE_MINOR_LOSS", LinkNumber::ValveMinorLoss),
];

// The numbers of a point, the words of a demand and of a time.
const SERIES: [(&str, Series); 9] = [
    ("POINT_X", Series::PointX),
    ("POINT_Y", Series::PointY),
    ("DEMAND_NODE", Series::DemandNode),
    ("DEMAND_OWN", Series::DemandOwn),
    ("DEMAND_NAME_PLACE", Series::DemandNamePlace),
    ("DEMAND_NAME_LENGTH", Series::DemandNameLength),
    ("DEMAND_INDEX", Series::DemandIndex),
    ("TIME_SET", Series::TimeSet),
    ("TIME_SECONDS", Series::TimeSeconds),
];

// The words of a rule.
const RULE_WORDS: [(&str, RuleWord); 4] = [
    ("RULE_FIRST", RuleWord::First),
    ("RULE_COUNT", RuleWord::Count),
    ("RULE_PRIORITY_SET", RuleWord::PrioritySet),
    ("RULE_PRIORITY", RuleWord::Priority),
];

// The words of a clause.
const CLAUSE_WORDS: [(&str, ClauseWord); 9] = [
    ("CLAUSE_KIND", ClauseWord::Kind),
    ("CLAUSE_STATUS", ClauseWord::Status),
    ("CLAUSE_NAME_PLACE", ClauseWord::NamePlace),
    ("CLAUSE_NAME_LENGTH", ClauseWord::NameLength),
    ("CONDITION_OPERATOR", ClauseWord::ConditionOperator),
    ("CONDITION_TARGET", ClauseWord::ConditionTarget),
    ("CONDITION_COMPARISON", ClauseWord::ConditionComparison),
    ("ACTION_ELSE", ClauseWord::ActionElse),
    ("ACTION_LINK", ClauseWord::ActionLink),
];

// What only the library needs of an id, a name and the tables.
const INNER: [(&str, Inner); 11] = [
    ("LINES_ROOM", Inner::LinesRoom),
    ("ID_KEY", Inner::IdKey),
    ("ID_WIDTH", Inner::IdWidth),
    ("NAME_PLACE", Inner::NamePlace),
    ("NAME_LENGTH", Inner::NameLength),
    ("NAME_WIDTH", Inner::NameWidth),
    ("NODE_NAME", Inner::NodeName),
    ("LINK_NAME", Inner::LinkName),
    ("DEMAND_NAME", Inner::DemandName),
    ("CLAUSE_NAME", Inner::ClauseName),
    ("RECORD_WORDS", Inner::RecordWords),
];

// The slots, which only the library needs.
const SLOTS: [(&str, Slots); 7] = [
    ("NODE_SLOTS_AT", Slots::NodeSlotsAt),
    ("LINK_SLOTS_AT", Slots::LinkSlotsAt),
    ("CURVE_SLOTS_AT", Slots::CurveSlotsAt),
    ("PATTERN_SLOTS_AT", Slots::PatternSlotsAt),
    ("DEMAND_SLOTS_AT", Slots::DemandSlotsAt),
    ("SLOTS_MOST", Slots::SlotsMost),
    ("DEMAND_SLOTS_MOST", Slots::DemandSlotsMost),
];

fn print_all<W: Write>(out: &mut W) -> io::Result<()> {
    print_places(out, &ROOMS)?;
    print_regions(out, &REGIONS)?;
    print_number_regions(out, &NUMBER_REGIONS)?;
    print_places(out, &COUNTS)?;
    print_places(out, &NODE_WORDS)?;
    print_places(out, &NODE_NUMBERS)?;
    print_places(out, &LINK_WORDS)?;
    print_places(out, &LINK_NUMBERS)?;
    print_places(out, &SERIES)?;
    print_places(out, &RULE_WORDS)?;
    print_places(out, &CLAUSE_WORDS)?;
    print_places(out, &INNER)?;
    print_places(out, &SLOTS)
}

fn main(rt: HostRuntime) -> io::Result<()> {
    let mut out = BufWriter::new(rt.alloc(), rt.stdout())?;
    print_all(&mut out)?;
    out.flush()
}
