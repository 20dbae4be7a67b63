// The classes and the reasons of the lines, in the bytes that the caller lends: a line marked, a closed group filled back, the classes counted.
#![tactic(auto)]

ghost use Rattle.std.specs.Prelude.{◌≡◌, cond, ◌-◌, ◌≤◌, ◌<◌, length, take, set, replicate, eqb, None, IfSome};
ghost use Rattle.scope_lines.specs.Tables.{swapped, refilled, count_in};
ghost use Rattle.read_marks.specs.Counted.{counted};
ghost use Rattle.read_marks.specs.Filled.{filled};
ghost use Rattle.read_marks.specs.Marked.{closed_in, refused_in};

use scope::{Reason, Survey};
use table_codes::Coded;

// A piece that was refused: why, and the line that its reason stands at.
#[derive(Clone, Copy)]
pub struct Refusal {
    pub reason: Reason,
    pub piece: usize,
}

// A group that a line closed: the number of its first line, and its class. A class is the byte that stands in the caller's table (inp_read_survey), so it stays a number.
#[derive(Clone, Copy)]
pub struct Closed {
    pub first: usize,
    pub class: u8,
}

pub fn clear_bytes(bytes: &mut [u8])
    ensures { bytes.new ≡ replicate (length bytes.old) 0 }
{
    bytes.fill(0);
}

fn swap(b: u8, k: u8) -> u8
    ensures { result ≡ swapped k b }
{
    if b == table_codes::RULE_OPEN { k } else { b }
}

// The group that was open is of class k: from its first line to the one that closes it, 8 becomes k.
fn refill(classes: &mut [u8], from: usize, to: usize, k: u8)
    requires { (from ≤ to) × (to ≤ length classes.old) }
    ensures { classes.new ≡ refilled classes.old from to k }
{
    for class in classes[from..to].iter_mut() {
        *class = swap(*class, k);
    }
}

// The lines after number `from`, up to number `to`, are of one class.
pub fn mark_lines(classes: &mut [u8], from: usize, to: usize, class: u8)
    requires { (from ≤ to) × (to ≤ length classes.old) }
    ensures { classes.new ≡ filled classes.old from (to - from) class }
{
    classes[from..to].fill(class);
}

// The class of a line, and of the group that it closed.
pub fn mark_class(classes: &mut [u8], line: usize, class: u8, closed: Option<Closed>)
    requires { (line < length classes.old) × IfSome closed (λ c. (0 < c.first) × (c.first ≤ line)) }
    ensures { classes.new ≡ set (closed_in closed line classes.old) line class }
{
    if let Some(group) = closed {
        refill(classes, group.first - 1, line, group.class);
    }
    classes[line] = class;
}

// The reason of a refusal, at its piece.
pub fn mark_reason(reasons: &mut [u8], refused: Option<Refusal>)
    requires { IfSome refused (λ r. (0 < r.piece) × (r.piece ≤ length reasons.old)) }
    ensures { reasons.new ≡ refused_in refused reasons.old }
{
    if let Some(refusal) = refused {
        reasons[refusal.piece - 1] = refusal.reason.code();
    }
}

// The refusal at which a reading stops: none where it marks lines, as it then goes on.
pub fn stops(marking: bool, refused: Option<Refusal>) -> Option<Refusal>
    ensures { result ≡ cond marking None refused }
{
    if marking { None } else { refused }
}

fn one(b: u8, k: u8) -> usize
    ensures { result ≡ cond (eqb b k) 1 0 }
{
    if b == k { 1 } else { 0 }
}

// One is added or none, so that the compiler takes many bytes at a time: `filter` and `count` take 11 instructions a byte, this 4.
fn count(xs: &[u8], k: u8) -> usize
    ensures { result ≡ count_in k xs.now }
{
    let mut n = 0;
    for b in xs {
        n += one(*b, k);
    }
    n
}

// How many lines are of each class.
pub fn counts_of(classes: &[u8], lines: usize) -> Survey
    ensures { result ≡ counted (take lines classes.now) lines }
{
    let xs = leaf_letters::cut(classes, 0, lines);
    Survey {
        number: 0,
        lines,
        blank: count(xs, table_codes::BLANK),
        header: count(xs, table_codes::HEADER),
        passed: count(xs, table_codes::PASSED),
        taken: count(xs, table_codes::TAKEN),
        refused: count(xs, table_codes::REFUSED),
        ruletaken: count(xs, table_codes::RULE_TAKEN),
        rulerefused: count(xs, table_codes::RULE_REFUSED),
        ruleopen: count(xs, table_codes::RULE_OPEN),
    }
}
