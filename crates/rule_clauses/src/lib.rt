// Reads the conditions and the actions of a rule. A line is the caller's text up to the line's end, with the place where its next field is looked for: so every place
// is a place of the text.
#![tactic(auto)]

ghost use Rattle.std.specs.Prelude.{◌≡◌, cond, Some, None};
ghost use Rattle.leaf_letters.specs.Words.{same};
ghost use Rattle.leaf_fields.specs.Fields.{fields_at};
ghost use Rattle.scope.specs.Records.{LinkKind};
ghost use Rattle.scope.specs.Rules.{is_link_word, named_from, aim_from, is_time, value_of, condition_of};
ghost use Rattle.scope.specs.Rules.{is_pipe, is_pump, is_valve, kind_fits};
ghost use Rattle.rule_clauses.specs.Clauses.{attribute_of, attribute_from, opt_in, target_read, TargetFits, aim_in, value_read, condition_read, ConditionFits};
ghost use Rattle.rule_clauses.specs.Clauses.{condition_on, head_from, head_read, HeadFits, kind_read, deed_from, rule_word, MayFit};

use leaf_fields::Span;
use scope::{
    Condition, LinkAttribute, LinkStatus, NodeAttribute, Operator, Reason, SystemAttribute,
    TankAttribute, Target, Value,
};

// ---- the target of a condition

// Of three attributes the one whose word it is.
fn one_of<'a>(
    w: &'a [u8],
    a: (&'a [u8], Target),
    b: (&'a [u8], Target),
    c: (&'a [u8], Target),
) -> Option<Target>
    ensures { result ≡ cond (same w.now a.entry.0.now) (Some a.entry.1) (cond (same w.now b.entry.0.now) (Some b.entry.1) (cond (same w.now c.entry.0.now) (Some c.entry.1) None)) }
{
    if leaf_letters::equal(w, a.0) {
        return Some(a.1);
    }
    if leaf_letters::equal(w, b.0) {
        return Some(b.1);
    }
    if leaf_letters::equal(w, c.0) {
        return Some(c.1);
    }
    None
}

// What has attributes.
#[derive(Clone, Copy)]
enum Owner {
    System,
    Node,
    Tank,
    Link,
}

fn attribute(owner: Owner, w: &[u8]) -> Option<Target>
    ensures { result ≡ attribute_of owner w.now }
{
    match owner {
        Owner::System => one_of(
            w,
            (b"DEMAND", Target::System(SystemAttribute::Demand)),
            (b"TIME", Target::System(SystemAttribute::Time)),
            (b"CLOCKTIME", Target::System(SystemAttribute::Clocktime)),
        ),
        Owner::Node => one_of(
            w,
            (b"DEMAND", Target::Node(NodeAttribute::Demand)),
            (b"HEAD", Target::Node(NodeAttribute::Head)),
            (b"PRESSURE", Target::Node(NodeAttribute::Pressure)),
        ),
        Owner::Tank => one_of(
            w,
            (b"LEVEL", Target::Tank(TankAttribute::Level)),
            (b"FILLTIME", Target::Tank(TankAttribute::Filltime)),
            (b"DRAINTIME", Target::Tank(TankAttribute::Draintime)),
        ),
        Owner::Link => one_of(
            w,
            (b"FLOW", Target::Link(LinkAttribute::Flow)),
            (b"STATUS", Target::Link(LinkAttribute::Status)),
            (b"SETTING", Target::Link(LinkAttribute::Setting)),
        ),
    }
}

// A target with its id, the system having none, and where the next field is looked for.
#[derive(Clone, Copy)]
pub struct Aim {
    pub target: Target,
    pub name: Option<Span>,
    pub next: usize,
}

// The attribute after SYSTEM, or after the id that is `name`.
fn attribute_from(l: &[u8], at: usize, owner: Owner, name: Option<Span>) -> Result<Aim, Reason>
    ensures result_value { target_read l.now result ≡ attribute_from (attribute_of owner) (opt_in l.now name) (fields_at l.now at) }
    ensures target_fits { MayFit l.now name → TargetFits l.now result }
{
    let s = leaf_fields::next_field(l, at).ok_or(Reason::Missing)?;
    let target = attribute(owner, leaf_fields::letters_of(l, s)).ok_or(Reason::UnknownWord)?;
    Ok(Aim {
        target,
        name,
        next: s.end,
    })
}

// The id and the attribute after another word.
#[tactic(auto, using(crate::proofs::ClauseLaws::named_is))]
fn named_from(l: &[u8], at: usize, owner: Owner) -> Result<Aim, Reason>
    ensures result_value { target_read l.now result ≡ named_from (attribute_of owner) (fields_at l.now at) }
    ensures target_fits { TargetFits l.now result }
{
    let id = leaf_fields::next_field(l, at).ok_or(Reason::Missing)?;
    attribute_from(l, id.end, owner, Some(id))
}

fn is_link_word(w: &[u8]) -> bool
    ensures { result ≡ is_link_word w.now }
{
    leaf_letters::equal(w, b"LINK")
        || leaf_letters::equal(w, b"PIPE")
        || leaf_letters::equal(w, b"VALVE")
        || leaf_letters::equal(w, b"PUMP")
}

#[tactic(auto, using(crate::proofs::ClauseLaws::system_is), unfolding(scope::specs::Rules::aim_from))]
pub fn read_target(l: &[u8], at: usize) -> Result<Aim, Reason>
    ensures result_value { target_read l.now result ≡ aim_from (fields_at l.now at) }
    ensures target_fits { TargetFits l.now result }
{
    let s = leaf_fields::next_field(l, at).ok_or(Reason::Missing)?;
    let w = leaf_fields::letters_of(l, s);
    if leaf_letters::equal(w, b"SYSTEM") {
        return attribute_from(l, s.end, Owner::System, None);
    }
    if leaf_letters::equal(w, b"NODE") {
        return named_from(l, s.end, Owner::Node);
    }
    if leaf_letters::equal(w, b"TANK") {
        return named_from(l, s.end, Owner::Tank);
    }
    if is_link_word(w) {
        return named_from(l, s.end, Owner::Link);
    }
    Err(Reason::UnknownWord)
}

// ---- the value

fn is_time(t: Target) -> bool
    ensures { result ≡ is_time t }
{
    matches!(
        t,
        Target::System(SystemAttribute::Time | SystemAttribute::Clocktime)
    )
}

// The value of a condition on the target.
#[tactic(auto, unfolding(scope::specs::Rules::value_of))]
pub fn read_value(target: Target, l: &[u8], at: usize) -> Result<Value, Reason>
    ensures { value_read result ≡ value_of target (fields_at l.now at) }
{
    let s = leaf_fields::next_field(l, at).ok_or(Reason::Missing)?;
    let w = leaf_fields::letters_of(l, s);
    if leaf_letters::equal(w, b"OPEN") {
        return Ok(Value::Status(LinkStatus::Open));
    }
    if leaf_letters::equal(w, b"CLOSED") {
        return Ok(Value::Status(LinkStatus::Closed));
    }
    if leaf_letters::equal(w, b"ACTIVE") {
        return Ok(Value::Status(LinkStatus::Active));
    }
    if is_time(target) {
        return rule_values::time_value(w, leaf_fields::field_or(l, s.end, b""));
    }
    rule_values::number_value(w)
}

// ---- a condition

// What stands after the target: the comparison and the value.
#[tactic(auto, unfolding(crate::specs::Clauses::condition_on))]
fn condition_on(l: &[u8], aim: Aim, operator: Operator) -> Result<Condition, Reason>
    ensures result_value { condition_read l.now result ≡ condition_on operator (aim_in l.now aim) (fields_at l.now aim.next) }
    ensures condition_fits { MayFit l.now aim.name → ConditionFits l.now result }
{
    let s = leaf_fields::next_field(l, aim.next).ok_or(Reason::Missing)?;
    let comparison = rule_values::read_comparison(leaf_fields::letters_of(l, s)).ok_or(
        Reason::UnknownWord,
    )?;
    let value = read_value(aim.target, l, s.end)?;
    Ok(Condition {
        operator,
        target: aim.target,
        name: aim.name,
        comparison,
        value,
    })
}

// The condition after a line's first word.
#[tactic(auto, unfolding(scope::specs::Rules::condition_of, crate::specs::Clauses::condition_on))]
pub fn read_rule_condition(l: &[u8], at: usize, operator: Operator) -> Result<Condition, Reason>
    ensures result_value { condition_read l.now result ≡ condition_of operator (fields_at l.now at) }
    ensures condition_fits { ConditionFits l.now result }
{
    let aim = read_target(l, at)?;
    condition_on(l, aim, operator)
}

// ---- an action: what stands before the link is looked up, the kind of the link, and what stands after

#[derive(Clone, Copy)]
pub struct ActionHead {
    pub kind: Span,
    pub id: Span,
}

// The kind word and the link's id after a line's first word.
pub fn read_action_head(l: &[u8], at: usize) -> Result<ActionHead, Reason>
    ensures result_value { head_read l.now result ≡ head_from (fields_at l.now at) }
    ensures head_fits { HeadFits l.now result }
{
    let kind = leaf_fields::next_field(l, at).ok_or(Reason::Missing)?;
    let id = leaf_fields::next_field(l, kind.end).ok_or(Reason::Missing)?;
    Ok(ActionHead { kind, id })
}

// Whether a link, which is a pipe, a pump or a valve, is of the kind that the word names. Three flags, as `table_find` tells a stored link's kind by three tests.
#[tactic(auto, unfolding(scope::specs::Rules::kind_fits))]
pub fn kind_fits(w: &[u8], pipe: bool, pump: bool, valve: bool) -> Result<(), Reason>
    ensures { (k : LinkKind) → pipe ≡ is_pipe k → pump ≡ is_pump k → valve ≡ is_valve k → kind_read result ≡ kind_fits w.now k }
{
    let fits = if leaf_letters::equal(w, b"LINK") {
        true
    } else if leaf_letters::equal(w, b"PIPE") {
        pipe
    } else if leaf_letters::equal(w, b"VALVE") {
        valve
    } else if leaf_letters::equal(w, b"PUMP") {
        pump
    } else {
        return Err(Reason::UnknownWord);
    };
    if fits { Ok(()) } else { Err(Reason::WrongKind) }
}

// What stands after the link's id: STATUS or SETTING, IS, and the value.
#[tactic(auto, unfolding(crate::specs::Clauses::deed_from))]
pub fn read_deed(l: &[u8], at: usize) -> Result<Value, Reason>
    ensures { value_read result ≡ deed_from (fields_at l.now at) }
{
    let what = leaf_fields::next_field(l, at).ok_or(Reason::Missing)?;
    let is = leaf_fields::next_field(l, what.end).ok_or(Reason::Missing)?;
    if !leaf_letters::equal(leaf_fields::letters_of(l, is), b"IS") {
        return Err(Reason::UnknownWord);
    }
    let v = leaf_fields::next_field(l, is.end).ok_or(Reason::Missing)?;
    rule_values::deed(
        leaf_fields::letters_of(l, what),
        leaf_fields::letters_of(l, v),
    )
}

// ---- the first word of a rule's line

#[derive(Clone, Copy)]
pub enum RuleWord {
    Rule,
    If,
    Or,
    Then,
    And,
    Else,
    Priority,
}

#[tactic(auto, unfolding(crate::specs::Clauses::rule_word))]
pub fn rule_word(w: &[u8]) -> Option<RuleWord>
    ensures { result ≡ rule_word w.now }
{
    if leaf_letters::equal(w, b"RULE") {
        return Some(RuleWord::Rule);
    }
    if leaf_letters::equal(w, b"IF") {
        return Some(RuleWord::If);
    }
    if leaf_letters::equal(w, b"OR") {
        return Some(RuleWord::Or);
    }
    if leaf_letters::equal(w, b"THEN") {
        return Some(RuleWord::Then);
    }
    if leaf_letters::equal(w, b"AND") {
        return Some(RuleWord::And);
    }
    if leaf_letters::equal(w, b"ELSE") {
        return Some(RuleWord::Else);
    }
    if leaf_letters::equal(w, b"PRIORITY") {
        return Some(RuleWord::Priority);
    }
    None
}
