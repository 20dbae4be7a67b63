// Surveys a text into the tables that the caller lends: every line is read, whatever is refused, and each has its class and its reason.
#![tactic(auto)]

ghost use Rattle.std.specs.Prelude.{◌≡◌, length, false};
ghost use Rattle.scope_lines.specs.Tables.{code_of, reason_in, marks_in};
ghost use Rattle.scope.specs.Sections.{room_lines};
ghost use Rattle.scope.specs.Answers.{reason_no};
ghost use Rattle.scope.specs.Layout.{record_words, room_numbers};
ghost use Rattle.scope.specs.Reading.{by_text, survey_of, no_survey, survey_network, survey_marked, survey_small, survey_answer, survey_words, survey_numbers, survey_classes, survey_reasons};
ghost use Rattle.table_rows.specs.Holding.{Holds};
ghost use Rattle.stored_records.specs.Back.{Stands};

use scope::{Counts, Reason, Survey};
use table_codes::Coded;

// What a survey gives beside the tables: the answer, and how many records they hold.
#[derive(Clone, Copy)]
struct Surveyed {
    pub survey: Survey,
    pub counts: Counts,
}

fn no_survey(why: Reason) -> Survey
    ensures { result ≡ no_survey (reason_no why) }
{
    Survey {
        number: why.code(),
        lines: 0,
        blank: 0,
        header: 0,
        passed: 0,
        taken: 0,
        refused: 0,
        ruletaken: 0,
        rulerefused: 0,
        ruleopen: 0,
    }
}

// A survey into tables that are just as long as their room.
fn survey_in(
    text: &[u8],
    words: &mut [u64],
    numbers: &mut [f64],
    classes: &mut [u8],
    reasons: &mut [u8],
) -> Surveyed
    requires { (length words.old ≡ record_words) × (length numbers.old ≡ room_numbers) × (length classes.old ≡ room_lines) × (length reasons.old ≡ room_lines) }
    ensures { (result.survey ≡ by_text text.now (no_survey 20) (no_survey 21) (survey_of text.now))
        × Holds text.now (survey_network text.now) result.counts words.new numbers.new
        × (classes.new ≡ marks_in code_of room_lines (survey_marked text.now))
        × (reasons.new ≡ marks_in reason_in room_lines (survey_marked text.now)) }
{
    words.fill(0);
    numbers.fill(0.0);
    read_marks::clear_bytes(classes);
    read_marks::clear_bytes(reasons);
    if let Some(reason) = read_text::refused_whole(text) {
        return Surveyed {
            survey: no_survey(reason),
            counts: read_steps::no_counts(),
        };
    }
    let over = read_loop::go_over(text, true, words, numbers, classes, reasons);
    Surveyed {
        survey: read_marks::counts_of(classes, over.lines),
        counts: over.counts,
    }
}

// The room of the classes and of the reasons.
fn survey_small(words: &[u64], numbers: &[f64], classes: &[u8], reasons: &[u8]) -> bool
    ensures { result ≡ survey_small (length words.now) (length numbers.now) (length classes.now) (length reasons.now) }
{
    if read_text::too_small(words, numbers) {
        return true;
    }
    if classes.len() < table_rows::LINES_ROOM {
        return true;
    }
    reasons.len() < table_rows::LINES_ROOM
}

// SURVEY: every line's class and reason, and how many lines there are of each class.
pub fn read_survey(
    text: &[u8],
    words: &mut [u64],
    numbers: &mut [f64],
    classes: &mut [u8],
    reasons: &mut [u8],
) -> Survey
    ensures { (result ≡ survey_answer text.now words.old numbers.old classes.old reasons.old)
        × (words.new ≡ survey_words text.now words.old numbers.old classes.old reasons.old)
        × (numbers.new ≡ survey_numbers text.now words.old numbers.old classes.old reasons.old)
        × (classes.new ≡ survey_classes text.now words.old numbers.old classes.old reasons.old)
        × (reasons.new ≡ survey_reasons text.now words.old numbers.old classes.old reasons.old)
        × (survey_small (length words.old) (length numbers.old) (length classes.old) (length reasons.old) ≡ false
        → Stands (survey_network text.now) words.new numbers.new) }
{
    if survey_small(words, numbers, classes, reasons) {
        return no_survey(Reason::SmallTable);
    }
    let r = survey_in(
        text,
        &mut words[..table_rows::RECORD_WORDS],
        &mut numbers[..table_rows::NUMBERS_ROOM],
        &mut classes[..table_rows::LINES_ROOM],
        &mut reasons[..table_rows::LINES_ROOM],
    );
    read_text::write_counts(words, r.counts);
    r.survey
}
