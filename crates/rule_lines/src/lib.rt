// Reads one line of a rule group: what it says, by its first word and by whether a THEN and an ELSE were read before it. An action's link is looked up; nothing is
// stored here.
#![tactic(auto)]

ghost use Rattle.std.specs.Prelude.{◌≡◌, List, ℕ, Some, length};
ghost use Rattle.leaf_fields.specs.Fields.{fields_at, name_in, part, Fits};
ghost use Rattle.scope.specs.Records.{Network, link_ids, lookup};
ghost use Rattle.scope.specs.Values.{good, on_read, count_from};
ghost use Rattle.scope.specs.Rules.{condition_of, action_of};
ghost use Rattle.table_rows.specs.Holding.{Words};
ghost use Rattle.rule_clauses.specs.Clauses.{head_in, action_at};
ghost use Rattle.rule_lines.specs.Lines.{action_read, ActionFits, said_rank, said_condition, said_action, id_said, said_read, LineFits, said_of, said_by, and_said};

use leaf_fields::Span;
use rule_clauses::{ActionHead, RuleWord};
use scope::{Action, Condition, Kind, Operator, Reason};

// ---- actions. The text, the words and the count of links are handed on apart: the words are written between two lines, so a struct of the three would be made for each line.

// What an action does to the link of its id.
fn action_at(
    l: &[u8],
    head: ActionHead,
    otherwise: bool,
    text: &[u8],
    words: &[u64],
    links: usize,
) -> Result<Action, Reason>
    requires { (m : Network) × Words text.now m words.now × (links ≡ length m.links) }
    ensures result_value { (m : Network) → Words text.now m words.now → links ≡ length m.links
        → action_read l.now result ≡ action_at otherwise m (head_in l.now head) (fields_at l.now head.id.end)
        (lookup (link_ids m) (part head.id.at head.id.end l.now)) }
    ensures action_fits { Fits l.now head.id → ActionFits l.now result }
{
    let link = table_find::find_named(
        text,
        words,
        Kind::Links,
        links,
        leaf_fields::letters_of(l, head.id),
    )
    .ok_or(Reason::NotFound)?;
    let pipe = table_find::is_pipe(words, link);
    let pump = table_find::is_pump(words, link);
    let valve = table_find::is_valve(words, link);
    rule_clauses::kind_fits(leaf_fields::letters_of(l, head.kind), pipe, pump, valve)?;
    let value = rule_clauses::read_deed(l, head.id.end)?;
    Ok(Action {
        link,
        name: head.id,
        value,
        otherwise,
    })
}

// The action after a line's first word.
fn read_rule_action(
    l: &[u8],
    at: usize,
    otherwise: bool,
    text: &[u8],
    words: &[u64],
    links: usize,
) -> Result<Action, Reason>
    requires { (m : Network) × Words text.now m words.now × (links ≡ length m.links) }
    ensures result_value { (m : Network) → Words text.now m words.now → links ≡ length m.links
        → action_read l.now result ≡ action_of otherwise m (fields_at l.now at) }
    ensures action_fits { ActionFits l.now result }
{
    let head = rule_clauses::read_action_head(l, at)?;
    action_at(l, head, otherwise, text, words, links)
}

// ---- a line of a group

// An action, and whether a THEN and an ELSE were read with it or before it.
#[derive(Clone, Copy)]
pub struct Acted {
    pub action: Action,
    pub acting: bool,
    pub otherwise: bool,
}

// What a line says.
#[derive(Clone, Copy)]
pub enum Saying {
    Named(Span),
    Ranked(u64),
    Condition(Condition),
    Action(Acted),
}

fn condition_line(l: &[u8], at: usize, operator: Operator) -> Result<Saying, Reason>
    ensures result_value { said_read l.now result ≡ on_read (condition_of operator (fields_at l.now at)) (λ c. good (said_condition c)) }
    ensures line_fits { LineFits l.now result }
{
    let condition = rule_clauses::read_rule_condition(l, at, operator)?;
    Ok(Saying::Condition(condition))
}

// An action, `otherwise` where it is an else action; what is read with it or before it is said beside it.
fn action_line(
    l: &[u8],
    at: usize,
    as_else: bool,
    acting: bool,
    otherwise: bool,
    text: &[u8],
    words: &[u64],
    links: usize,
) -> Result<Saying, Reason>
    requires { (m : Network) × Words text.now m words.now × (links ≡ length m.links) }
    ensures result_value { (m : Network) → Words text.now m words.now → links ≡ length m.links
        → said_read l.now result ≡ on_read (action_of as_else m (fields_at l.now at)) (λ a. good (said_action acting otherwise a)) }
    ensures line_fits { LineFits l.now result }
{
    let action = read_rule_action(l, at, as_else, text, words, links)?;
    Ok(Saying::Action(Acted {
        action,
        acting,
        otherwise,
    }))
}

fn named_line(l: &[u8], at: usize) -> Result<Saying, Reason>
    ensures result_value { said_read l.now result ≡ id_said (fields_at l.now at) }
    ensures line_fits { LineFits l.now result }
{
    let id = leaf_fields::next_field(l, at).ok_or(Reason::Missing)?;
    Ok(Saying::Named(id))
}

fn ranked_line(l: &[u8], at: usize) -> Result<Saying, Reason>
    ensures result_value { said_read l.now result ≡ on_read (count_from (fields_at l.now at)) (λ n. good (said_rank n)) }
    ensures line_fits { LineFits l.now result }
{
    let s = leaf_fields::next_field(l, at).ok_or(Reason::Missing)?;
    let n = leaf_counts::read_count(leaf_fields::letters_of(l, s)).ok_or(Reason::Malformed)?;
    Ok(Saying::Ranked(n))
}

// AND is a condition until a THEN has been read, else an action.
fn and_line(
    l: &[u8],
    at: usize,
    acting: bool,
    otherwise: bool,
    text: &[u8],
    words: &[u64],
    links: usize,
) -> Result<Saying, Reason>
    requires { (m : Network) × Words text.now m words.now × (links ≡ length m.links) }
    ensures result_value { (m : Network) → Words text.now m words.now → links ≡ length m.links
        → said_read l.now result ≡ and_said acting m otherwise (fields_at l.now at) }
    ensures line_fits { LineFits l.now result }
{
    if acting {
        return action_line(l, at, otherwise, true, otherwise, text, words, links);
    }
    condition_line(l, at, Operator::And)
}

// The line after its first word.
fn line_by(
    word: RuleWord,
    l: &[u8],
    at: usize,
    acting: bool,
    otherwise: bool,
    text: &[u8],
    words: &[u64],
    links: usize,
) -> Result<Saying, Reason>
    requires { (m : Network) × Words text.now m words.now × (links ≡ length m.links) }
    ensures result_value { (m : Network) → Words text.now m words.now → links ≡ length m.links
        → said_read l.now result ≡ said_by (Some word) m acting otherwise (fields_at l.now at) }
    ensures line_fits { LineFits l.now result }
{
    match word {
        RuleWord::Rule => named_line(l, at),
        RuleWord::If => condition_line(l, at, Operator::And),
        RuleWord::Or => condition_line(l, at, Operator::Or),
        RuleWord::Then => action_line(l, at, false, true, otherwise, text, words, links),
        RuleWord::And => and_line(l, at, acting, otherwise, text, words, links),
        RuleWord::Else => action_line(l, at, true, acting, true, text, words, links),
        RuleWord::Priority => ranked_line(l, at),
    }
}

// The line of `l` from `at` on, where a THEN was read before it or not, and an ELSE.
#[tactic(auto, unfolding(crate::specs::Lines::said_of))]
pub fn read_line(
    l: &[u8],
    at: usize,
    acting: bool,
    otherwise: bool,
    text: &[u8],
    words: &[u64],
    links: usize,
) -> Result<Saying, Reason>
    requires { (m : Network) × Words text.now m words.now × (links ≡ length m.links) }
    ensures result_value { (m : Network) → Words text.now m words.now → links ≡ length m.links
        → said_read l.now result ≡ said_of m acting otherwise (fields_at l.now at) }
    ensures line_fits { LineFits l.now result }
{
    let s = leaf_fields::next_field(l, at).ok_or(Reason::Missing)?;
    let word = rule_clauses::rule_word(leaf_fields::letters_of(l, s)).ok_or(Reason::UnknownWord)?;
    line_by(word, l, s.end, acting, otherwise, text, words, links)
}
