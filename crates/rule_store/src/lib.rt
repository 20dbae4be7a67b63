// Closes a rule group: its stretch of text is read again, line by line, and each clause is stored as its line is read. Then the group is judged: its rule is stored, or its
// clauses are erased again.
#![tactic(auto)]

ghost use Rattle.std.specs.Prelude.{◌≡◌, List, [], ◌∷◌, ℕ, ◌+◌, ◌-◌, ◌*◌, ◌≤◌, ◌<◌, min, length, Float};
ghost use Rattle.scope.specs.declared.Counts.{Counts};
ghost use Rattle.scope.specs.Records.{Network, Clause};
ghost use Rattle.scope.specs.Sections.{room_rules, room_clauses};
ghost use Rattle.scope.specs.Records as clause;
ghost use Rattle.scope.specs.Tables.{value_no, name_words, value_number, count_words, rule_words};
ghost use Rattle.scope.specs.Rules.{Draft, lines_of, no_draft, judged, group_step};
ghost use Rattle.table_rows.specs.Table.{splice};
ghost use Rattle.scope.specs.Layout.{rules_at, rules_width, clauses_at, clauses_width, clause_numbers_at, record_words, room_numbers};
ghost use Rattle.table_rows.specs.Holding.{Holds, Sound, After};
ghost use Rattle.rule_clauses.specs.Clauses.{opt_in, condition_in};
ghost use Rattle.read_headers.specs.Own.{group_fields};
ghost use Rattle.rule_lines.specs.Lines.{action_in};
ghost use Rattle.rule_store.specs.Group.{rule_in, PutClause, Put, HoldsMore, fitting, Taken, ClausesPut};

use leaf_fields::Span;
use rule_groups::Sketch;
use rule_lines::Saying;
use scope::{Action, Condition, Counts, Reason, Value};
use table_codes::Coded;

// ---- clauses

// A clause at the place `n`. Numbers and no enums: they are the words that the table holds.
fn put_clause(
    text: &[u8],
    n: usize,
    kind: u64,
    one: u64,
    two: u64,
    three: u64,
    value: Value,
    name: Option<Span>,
    words: &mut [u64],
    numbers: &mut [f64],
)
    requires { (n < room_clauses) × (length words.old ≡ record_words) × (length numbers.old ≡ room_numbers) }
    ensures { (words.new ≡ splice words.old (clauses_at + n * clauses_width) (kind ∷ one ∷ two ∷ three ∷ value_no value ∷ name_words (opt_in text.now name)))
        × (numbers.new ≡ splice numbers.old (clause_numbers_at + n) (value_number value ∷ [])) }
{
    let k = table_rows::name_words(text, name);
    let (status, number) = value.code();
    table_rows::paste(
        words,
        table_rows::CLAUSES_AT + n * table_rows::CLAUSES_WIDTH,
        &[
            kind,
            one,
            two,
            three,
            status,
            k[table_rows::NAME_PLACE],
            k[table_rows::NAME_LENGTH],
        ],
    );
    table_rows::paste(numbers, table_rows::CLAUSE_NUMBERS_AT + n, &[number]);
}

fn put_condition(text: &[u8], c: Condition, n: usize, words: &mut [u64], numbers: &mut [f64])
    requires { (n < room_clauses) × (length words.old ≡ record_words) × (length numbers.old ≡ room_numbers) }
    ensures { PutClause n (clause.condition (condition_in text.now c)) words.old numbers.old words.new numbers.new }
{
    put_clause(
        text,
        n,
        table_codes::CONDITION,
        c.operator.code(),
        c.target.code(),
        c.comparison.code(),
        c.value,
        c.name,
        words,
        numbers,
    );
}

fn put_action(text: &[u8], a: Action, n: usize, words: &mut [u64], numbers: &mut [f64])
    requires { (n < room_clauses) × (length words.old ≡ record_words) × (length numbers.old ≡ room_numbers) }
    ensures { PutClause n (clause.action (action_in text.now a)) words.old numbers.old words.new numbers.new }
{
    put_clause(
        text,
        n,
        table_codes::ACTION,
        table_rows::flag_of(a.otherwise),
        a.link as u64,
        0,
        a.value,
        Some(a.name),
        words,
        numbers,
    );
}

// The clause of a line, where it has one, at the place `n`, where there is room.
fn put_line(
    text: &[u8],
    read: Result<Saying, Reason>,
    n: usize,
    words: &mut [u64],
    numbers: &mut [f64],
)
    requires { (length words.old ≡ record_words) × (length numbers.old ≡ room_numbers) }
    ensures { Put text.now n read words.old numbers.old words.new numbers.new }
{
    if table_rows::CLAUSES_MOST <= n {
        return;
    }
    match read {
        Ok(Saying::Condition(c)) => put_condition(text, c, n, words, numbers),
        Ok(Saying::Action(a)) => put_action(text, a.action, n, words, numbers),
        Ok(Saying::Named(_) | Saying::Ranked(_)) | Err(_) => {}
    }
}

// Where the clauses of a group end that has `count` of them, after `base` others.
fn clauses_end(base: usize, count: usize) -> usize
    requires { base ≤ room_clauses }
    ensures { result ≡ base + min (room_clauses - base) count }
{
    base + (table_rows::CLAUSES_MOST - base).min(count)
}

// The clauses of a group are erased: `count` of them, after `base` others.
fn erase_clauses(base: usize, count: usize, words: &mut [u64], numbers: &mut [f64])
    requires { (base ≤ room_clauses) × (length words.old ≡ record_words) × (length numbers.old ≡ room_numbers) }
    ensures { (text : List ℕ) (m : Network) (s : Counts) (w : List ℕ) (f : List Float) (cs : List Clause) → Holds text m s w f → base ≡ length m.clauses → length cs ≡ count
        → HoldsMore text m (fitting m cs) words.old numbers.old → (words.new ≡ w) × (numbers.new ≡ f) }
{
    let end = clauses_end(base, count);
    let from = table_rows::CLAUSES_AT + base * table_rows::CLAUSES_WIDTH;
    let to = table_rows::CLAUSES_AT + end * table_rows::CLAUSES_WIDTH;
    words[from..to].fill(0);
    let low = table_rows::CLAUSE_NUMBERS_AT + base;
    let high = table_rows::CLAUSE_NUMBERS_AT + end;
    numbers[low..high].fill(0.0);
}

// The lines of the group whose first line stands at `first`, in a text read up to `at`. Their clauses are put after those that are there; where a line is refused, none is left.
fn take_lines(
    text: &[u8],
    first: usize,
    at: usize,
    s: Counts,
    words: &mut [u64],
    numbers: &mut [f64],
) -> Result<Sketch, Reason>
    requires { Sound text.now s words.old numbers.old }
    ensures { (m : Network) → Holds text.now m s words.old numbers.old
        → Taken text.now m (lines_of m no_draft (group_fields text.now at first)) result words.old numbers.old words.new numbers.new }
{
    let base = s.clauses;
    let links = s.links;
    let mut q = rule_groups::no_sketch();
    let mut p = first;
    // No `for`: where the next line stands is known once this one is found.
    while let Some(line) = read_headers::next_own(text, at, p) {
        let read = rule_lines::read_line(
            read_headers::own_bytes(text, line),
            line.at,
            q.acting,
            q.otherwise,
            text,
            words,
            links,
        );
        match rule_groups::see(q, read) {
            Ok(next) => {
                put_line(text, read, base + q.clauses, words, numbers);
                q = next;
                p = line.end;
            }
            Err(why) => {
                erase_clauses(base, q.clauses, words, numbers);
                return Err(why);
            }
        }
    }
    Ok(q)
}

// ---- the rule of a group

// None is 0 and 0; a priority is 1 and itself.
fn rank_words(priority: Option<u64>) -> [u64; 2]
    ensures { result ≡ count_words priority }
{
    match priority {
        Some(n) => [1, n],
        None => [0, 0],
    }
}

// The rule of a group, its clauses being there.
fn put_rule(text: &[u8], id: Span, q: Sketch, s: Counts, words: &mut [u64])
    requires { (s.rules < room_rules) × (length words.old ≡ record_words) }
    ensures { words.new ≡ splice words.old (rules_at + s.rules * rules_width) (rule_words (rule_in text.now id q s.clauses)) }
{
    let k = table_rows::id_words(text, id);
    let r = rank_words(q.priority);
    let first = s.clauses as u64;
    let count = q.clauses as u64;
    table_rows::paste(
        words,
        table_rows::RULES_AT + s.rules * table_rows::RULES_WIDTH,
        &[
            k[table_rows::ID_PLACE],
            k[table_rows::ID_LENGTH],
            k[table_rows::ID_KEY],
            first,
            count,
            r[0],
            r[1],
        ],
    );
}

// The rule of a group whose clauses are there; where the group is refused, they are erased.
fn store_group(
    text: &[u8],
    q: Sketch,
    s: Counts,
    words: &mut [u64],
    numbers: &mut [f64],
) -> Result<Counts, Reason>
    requires { (m : Network) × (d : Draft) × (w : List ℕ) × (f : List Float) × ClausesPut text.now m d q s w f words.old numbers.old }
    ensures { (m : Network) (d : Draft) (w : List ℕ) (f : List Float) → ClausesPut text.now m d q s w f words.old numbers.old
        → After text.now (judged d m) result w f words.new numbers.new }
{
    match rule_groups::judge_group(text, q, words, s) {
        Ok(id) => {
            put_rule(text, id, q, s, words);
            Ok(Counts {
                rules: s.rules + 1,
                clauses: s.clauses + q.clauses,
                ..s
            })
        }
        Err(why) => {
            erase_clauses(s.clauses, q.clauses, words, numbers);
            Err(why)
        }
    }
}

// Closes the group whose first line stands at `first`, in a text read up to `at`.
pub fn close_group(
    text: &[u8],
    first: usize,
    at: usize,
    s: Counts,
    words: &mut [u64],
    numbers: &mut [f64],
) -> Result<Counts, Reason>
    requires { Sound text.now s words.old numbers.old }
    ensures { (m : Network) → Holds text.now m s words.old numbers.old
        → After text.now (group_step (group_fields text.now at first) m) result words.old numbers.old words.new numbers.new }
{
    let q = take_lines(text, first, at, s, words, numbers)?;
    store_group(text, q, s, words, numbers)
}
