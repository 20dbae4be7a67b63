// Nodes, links, rules and their clauses read back by value from the two tables that a reading filled.
#![tactic(auto)]

ghost use Rattle.std.specs.Prelude.{◌≡◌, List, ◌+◌, ◌<◌, Float, length, get_or};
ghost use Rattle.scope.specs.Records.{Network, no_node, no_link, no_rule, no_clause};
ghost use Rattle.stored_words.specs.Words.{span_from, field_from};
ghost use Rattle.stored_records.specs.Back.{Stands, words_in, numbers_in, junction_by, reservoir_by, tank_by, kind_by, pipe_by, pump_by, valve_by, link_kind_by};
ghost use Rattle.stored_records.specs.Back.{condition_by, action_by, clause_by, node_back, link_back, rule_back, clause_back};
ghost use Rattle.scope.specs.Layout.{name_length};

use leaf_fields::Span;
use scope::{
    Action, Comparison, Condition, LinkKind, Operator, Pipe, PipeStatus, Pump, Tank, Target, Value,
    Valve, ValveType,
};
use stored_counts::Stored;
use table_codes::Coded;

// ---- what the records are

#[derive(Clone, Copy)]
pub struct Junction {
    pub elevation: f64,
    pub emitter: f64,
    pub disabled: bool,
}

// The index is the pattern's place, once the text is read to its end.
#[derive(Clone, Copy)]
pub struct Reservoir {
    pub elevation: f64,
    pub pattern: Option<Span>,
    pub index: Option<usize>,
}

#[derive(Clone, Copy)]
pub enum NodeKind {
    Junction(Junction),
    Reservoir(Reservoir),
    Tank(Tank),
}

// Where a node stands on the map.
#[derive(Clone, Copy)]
pub struct Place {
    pub x: f64,
    pub y: f64,
}

#[derive(Clone, Copy)]
pub struct Node {
    pub id: Span,
    pub kind: NodeKind,
    pub place: Option<Place>,
}

// The ends are places of nodes.
#[derive(Clone, Copy)]
pub struct Link {
    pub id: Span,
    pub start: usize,
    pub end: usize,
    pub kind: LinkKind,
}

// A rule's clauses are `count` of the clauses from the place `first` on.
#[derive(Clone, Copy)]
pub struct Rule {
    pub id: Span,
    pub first: usize,
    pub count: usize,
    pub priority: Option<u64>,
}

#[derive(Clone, Copy)]
pub enum Clause {
    Condition(Condition),
    Action(Action),
}

// ---- names by their words, for every record

pub fn span_at(words: &[u64], at: usize) -> Span
    requires { at + name_length < length words.now }
    ensures { result ≡ span_from (get_or words.now at 0) (get_or words.now (at + name_length) 0) }
{
    stored_words::span_from(
        words[at] as usize,
        words[at + table_rows::NAME_LENGTH] as usize,
    )
}

pub fn field_at(words: &[u64], at: usize) -> Option<Span>
    requires { at + name_length < length words.now }
    ensures { result ≡ field_from (get_or words.now at 0) (get_or words.now (at + name_length) 0) }
{
    stored_words::field_from(
        words[at] as usize,
        words[at + table_rows::NAME_LENGTH] as usize,
    )
}

// ---- nodes

type NodeWords = [u64; table_rows::NODES_WIDTH];

type NodeNumbers = [f64; table_rows::NODE_NUMBERS_WIDTH];

fn junction_from(words: &NodeWords, numbers: &NodeNumbers) -> Junction
    ensures { result ≡ junction_by (words_in words.now) (numbers_in numbers.now) }
{
    Junction {
        elevation: numbers[table_rows::NODE_ELEVATION],
        emitter: numbers[table_rows::JUNCTION_EMITTER],
        disabled: words[table_rows::NODE_DETAIL] == 1,
    }
}

fn reservoir_from(words: &NodeWords, numbers: &NodeNumbers) -> Reservoir
    ensures { result ≡ reservoir_by (words_in words.now) (numbers_in numbers.now) }
{
    let pattern = field_at(words, table_rows::NODE_NAME);
    let index = stored_words::found_from(words[table_rows::NODE_DETAIL]);
    Reservoir {
        elevation: numbers[table_rows::NODE_ELEVATION],
        pattern,
        index,
    }
}

fn tank_from(words: &NodeWords, numbers: &NodeNumbers) -> Tank
    ensures { result ≡ tank_by (words_in words.now) (numbers_in numbers.now) }
{
    let curve = field_at(words, table_rows::NODE_NAME);
    Tank {
        elevation: numbers[table_rows::NODE_ELEVATION],
        initial: numbers[table_rows::TANK_INITIAL_LEVEL],
        minimum: numbers[table_rows::TANK_MINIMUM_LEVEL],
        maximum: numbers[table_rows::TANK_MAXIMUM_LEVEL],
        diameter: numbers[table_rows::TANK_DIAMETER],
        volume: numbers[table_rows::TANK_MINIMUM_VOLUME],
        curve,
        overflow: words[table_rows::NODE_DETAIL] == 1,
    }
}

fn node_kind_from(words: &NodeWords, numbers: &NodeNumbers) -> NodeKind
    ensures { result ≡ kind_by (words_in words.now) (numbers_in numbers.now) }
{
    match words[table_rows::NODE_KIND] {
        table_codes::RESERVOIR => NodeKind::Reservoir(reservoir_from(words, numbers)),
        table_codes::TANK => NodeKind::Tank(tank_from(words, numbers)),
        _ => NodeKind::Junction(junction_from(words, numbers)),
    }
}

// Node number i; past the end, an empty one. So it is for every record below.
pub fn node_at(stored: Stored, i: usize) -> Node
    ensures { (m : Network) → Stands m stored.entry.words.now stored.entry.numbers.now → result ≡ node_back (get_or m.nodes i no_node) }
{
    let row: Option<(&NodeWords, &NodeNumbers)> = stored.rows(
        table_rows::NODES_AT,
        table_rows::NODE_NUMBERS_AT,
        table_rows::NODES_MOST,
        i,
    );
    match row {
        Some((words, numbers)) => Node {
            id: span_at(words, table_rows::ID_PLACE),
            kind: node_kind_from(words, numbers),
            place: (words[table_rows::NODE_PLACED] == 1).then_some(Place {
                x: numbers[table_rows::NODE_X],
                y: numbers[table_rows::NODE_Y],
            }),
        },
        None => Node {
            id: Span { at: 0, end: 0 },
            kind: NodeKind::Junction(Junction {
                elevation: 0.0,
                emitter: 0.0,
                disabled: false,
            }),
            place: None,
        },
    }
}

// ---- links

type LinkWords = [u64; table_rows::LINKS_WIDTH];

type LinkNumbers = [f64; table_rows::LINK_NUMBERS_WIDTH];

fn pipe_from(words: &LinkWords, numbers: &LinkNumbers) -> Pipe
    ensures { result ≡ pipe_by (words_in words.now) (numbers_in numbers.now) }
{
    Pipe {
        long: numbers[table_rows::PIPE_LENGTH],
        diameter: numbers[table_rows::PIPE_DIAMETER],
        roughness: numbers[table_rows::PIPE_ROUGHNESS],
        minor: numbers[table_rows::PIPE_MINOR_LOSS],
        status: PipeStatus::from_code(words[table_rows::LINK_DETAIL]),
    }
}

fn pump_from(words: &LinkWords, numbers: &LinkNumbers) -> Pump
    ensures { result ≡ pump_by (words_in words.now) (numbers_in numbers.now) }
{
    let head = field_at(words, table_rows::LINK_NAME);
    Pump {
        speed: numbers[table_rows::PUMP_SPEED],
        head,
        power: numbers[table_rows::PUMP_POWER],
    }
}

fn valve_from(words: &LinkWords, numbers: &LinkNumbers) -> Valve
    ensures { result ≡ valve_by (words_in words.now) (numbers_in numbers.now) }
{
    Valve {
        valve_type: ValveType::from_code(words[table_rows::LINK_DETAIL]),
        diameter: numbers[table_rows::VALVE_DIAMETER],
        setting: numbers[table_rows::VALVE_SETTING],
        minor: numbers[table_rows::VALVE_MINOR_LOSS],
        curve: field_at(words, table_rows::LINK_NAME),
    }
}

fn link_kind_from(words: &LinkWords, numbers: &LinkNumbers) -> LinkKind
    ensures { result ≡ link_kind_by (words_in words.now) (numbers_in numbers.now) }
{
    match words[table_rows::LINK_KIND] {
        table_codes::PUMP => LinkKind::Pump(pump_from(words, numbers)),
        table_codes::VALVE => LinkKind::Valve(valve_from(words, numbers)),
        _ => LinkKind::Pipe(pipe_from(words, numbers)),
    }
}

// Link number i.
pub fn link_at(stored: Stored, i: usize) -> Link
    ensures { (m : Network) → Stands m stored.entry.words.now stored.entry.numbers.now → result ≡ link_back (get_or m.links i no_link) }
{
    let row: Option<(&LinkWords, &LinkNumbers)> = stored.rows(
        table_rows::LINKS_AT,
        table_rows::LINK_NUMBERS_AT,
        table_rows::LINKS_MOST,
        i,
    );
    match row {
        Some((words, numbers)) => Link {
            id: span_at(words, table_rows::ID_PLACE),
            start: words[table_rows::LINK_START] as usize,
            end: words[table_rows::LINK_END] as usize,
            kind: link_kind_from(words, numbers),
        },
        None => Link {
            id: Span { at: 0, end: 0 },
            start: 0,
            end: 0,
            kind: LinkKind::Pipe(Pipe {
                long: 0.0,
                diameter: 0.0,
                roughness: 0.0,
                minor: 0.0,
                status: PipeStatus::Open,
            }),
        },
    }
}

// ---- rules

type RuleWords = [u64; table_rows::RULES_WIDTH];

// Rule number i.
pub fn rule_at(stored: Stored, i: usize) -> Rule
    ensures { (m : Network) (f : List Float) → Stands m stored.entry.words.now f → result ≡ rule_back (get_or m.rules i no_rule) }
{
    let row: Option<&RuleWords> = stored.words_of(table_rows::RULES_AT, table_rows::RULES_MOST, i);
    match row {
        Some(words) => Rule {
            id: span_at(words, table_rows::ID_PLACE),
            first: words[table_rows::RULE_FIRST] as usize,
            count: words[table_rows::RULE_COUNT] as usize,
            priority: stored_words::amount_from(
                words[table_rows::RULE_PRIORITY_SET],
                words[table_rows::RULE_PRIORITY],
            ),
        },
        None => Rule {
            id: Span { at: 0, end: 0 },
            first: 0,
            count: 0,
            priority: None,
        },
    }
}

type ClauseWords = [u64; table_rows::CLAUSES_WIDTH];

type ClauseNumbers = [f64; table_rows::CLAUSE_NUMBERS_WIDTH];

fn condition_from(words: &ClauseWords, x: f64) -> Condition
    ensures { result ≡ condition_by (words_in words.now) x }
{
    Condition {
        operator: Operator::from_code(words[table_rows::CONDITION_OPERATOR]),
        target: Target::from_code(words[table_rows::CONDITION_TARGET]),
        name: field_at(words, table_rows::CLAUSE_NAME),
        comparison: Comparison::from_code(words[table_rows::CONDITION_COMPARISON]),
        value: Value::from_code((words[table_rows::CLAUSE_STATUS], x)),
    }
}

fn action_from(words: &ClauseWords, x: f64) -> Action
    ensures { result ≡ action_by (words_in words.now) x }
{
    Action {
        link: words[table_rows::ACTION_LINK] as usize,
        name: span_at(words, table_rows::CLAUSE_NAME),
        value: Value::from_code((words[table_rows::CLAUSE_STATUS], x)),
        otherwise: words[table_rows::ACTION_ELSE] == 1,
    }
}

fn clause_from(words: &ClauseWords, x: f64) -> Clause
    ensures { result ≡ clause_by (words_in words.now) x }
{
    match words[table_rows::CLAUSE_KIND] {
        table_codes::CONDITION => Clause::Condition(condition_from(words, x)),
        _ => Clause::Action(action_from(words, x)),
    }
}

// Clause number i.
pub fn clause_at(stored: Stored, i: usize) -> Clause
    ensures { (m : Network) → Stands m stored.entry.words.now stored.entry.numbers.now → result ≡ clause_back (get_or m.clauses i no_clause) }
{
    let row: Option<(&ClauseWords, &ClauseNumbers)> = stored.rows(
        table_rows::CLAUSES_AT,
        table_rows::CLAUSE_NUMBERS_AT,
        table_rows::CLAUSES_MOST,
        i,
    );
    match row {
        Some((words, numbers)) => clause_from(words, numbers[0]),
        None => Clause::Action(Action {
            link: 0,
            name: Span { at: 0, end: 0 },
            value: Value::Number(0.0),
            otherwise: false,
        }),
    }
}
