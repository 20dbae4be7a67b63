// The rules of a network with their conditions and actions, as the dump writes them: docs/DUMP.md has the form.
#![tactic(auto)]

use scope::{
    Action, Comparison, Condition, LinkAttribute, NodeAttribute, Operator, SystemAttribute,
    TankAttribute, Target, Value,
};
use std::io::Write;
use std::{fmt, io};
use stored_counts::Stored;
use stored_records::Clause;
use write_text::{Bits, Id, OrDash};

// ---- words

fn operator_word(o: Operator) -> &'static str {
    match o {
        Operator::And => "AND",
        Operator::Or => "OR",
    }
}

fn kind_word(t: Target) -> &'static str {
    match t {
        Target::System(_) => "SYSTEM",
        Target::Node(_) => "NODE",
        Target::Tank(_) => "TANK",
        Target::Link(_) => "LINK",
    }
}

fn attribute_word(t: Target) -> &'static str {
    match t {
        Target::System(SystemAttribute::Demand) => "DEMAND",
        Target::System(SystemAttribute::Time) => "TIME",
        Target::System(SystemAttribute::Clocktime) => "CLOCKTIME",
        Target::Node(NodeAttribute::Demand) => "DEMAND",
        Target::Node(NodeAttribute::Head) => "HEAD",
        Target::Node(NodeAttribute::Pressure) => "PRESSURE",
        Target::Tank(TankAttribute::Level) => "LEVEL",
        Target::Tank(TankAttribute::Filltime) => "FILLTIME",
        Target::Tank(TankAttribute::Draintime) => "DRAINTIME",
        Target::Link(LinkAttribute::Flow) => "FLOW",
        Target::Link(LinkAttribute::Status) => "STATUS",
        Target::Link(LinkAttribute::Setting) => "SETTING",
    }
}

fn comparison_word(c: Comparison) -> &'static str {
    match c {
        Comparison::Equal => "=",
        Comparison::NotEqual => "<>",
        Comparison::Above => ">",
        Comparison::Below => "<",
        Comparison::AtLeast => ">=",
        Comparison::AtMost => "<=",
    }
}

// What an action with this value sets.
fn deed_word(v: Value) -> &'static str {
    match v {
        Value::Number(_) => "SETTING",
        Value::Status(_) => "STATUS",
    }
}

#[derive(Clone, Copy)]
struct Written(Value);

impl fmt::Display for Written {
    fn fmt<W: fmt::Write>(&self, f: &mut fmt::Formatter<W>) -> fmt::Result {
        match self.0 {
            Value::Number(x) => Bits(x).fmt(f),
            Value::Status(s) => f.write_str(write_text::status_word(s)),
        }
    }
}

// ---- clauses

fn show_condition<W: Write>(out: &mut W, text: &[u8], c: Condition) -> io::Result<()> {
    let operator = operator_word(c.operator);
    let kind = kind_word(c.target);
    let name = write_text::name_in(text, c.name);
    let attribute = attribute_word(c.target);
    let comparison = comparison_word(c.comparison);
    let value = Written(c.value);
    writeln!(
        out,
        "  if {operator} {kind} {name} {attribute} {comparison} {value}"
    )
}

fn show_action<W: Write>(out: &mut W, text: &[u8], a: Action) -> io::Result<()> {
    let name = Id::of(text, a.name);
    let deed = deed_word(a.value);
    let value = Written(a.value);
    let branch = if a.otherwise { "ELSE" } else { "THEN" };
    writeln!(out, "  do {name} {deed} {value} {branch}")
}

// ---- rules

// A rule, its conditions and its actions.
fn show_rule<W: Write>(out: &mut W, stored: Stored, i: usize) -> io::Result<()> {
    let rule = stored_records::rule_at(stored, i);
    let first = rule.first;
    let end = stored_parts::end_of(first, rule.count, stored.counts().clauses);
    let id = Id::of(stored.text, rule.id);
    let conditions = stored_parts::conditions_between(stored, first, end);
    let actions = stored_parts::actions_between(stored, first, end);
    let priority = OrDash(rule.priority);
    writeln!(out, "rule {id} {conditions} {actions} {priority}")?;
    for k in first..end {
        if let Clause::Condition(c) = stored_records::clause_at(stored, k) {
            show_condition(out, stored.text, c)?;
        }
    }
    for k in first..end {
        if let Clause::Action(a) = stored_records::clause_at(stored, k) {
            show_action(out, stored.text, a)?;
        }
    }
    Ok(())
}

// Every rule, in file order.
pub fn show_rules<W: Write>(out: &mut W, stored: Stored) -> io::Result<()> {
    for i in 0..stored.counts().rules {
        show_rule(out, stored, i)?;
    }
    Ok(())
}
