// The library for C and Rust: both readings over pointers and lengths. include/inp.h has what a caller must know.
#![tactic(auto)]

ghost use Rattle.std.specs.Prelude.{◌≡◌, length};
ghost use Rattle.scope.specs.Reading.{strict_answer, strict_words, strict_numbers};
ghost use Rattle.inp.specs.Calls.{number_of, counts_after, words_after, numbers_after, classes_after, reasons_after};

// How many lines there are, and how many of each class.
const COUNTS: usize = 9;

const SMALL: u64 = 28;

// STRICT: the number of the first refusal, or 0; and the line of the refused piece, or 0.
#[unsafe(no_mangle)]
pub extern "C" fn inp_read_strict(
    text: &[u8],
    words: &mut [u64],
    numbers: &mut [f64],
    line: &mut u64,
) -> u64
    ensures { (result ≡ (strict_answer text.now (length words.old) (length numbers.old)).number)
        × (line.new ≡ (strict_answer text.now (length words.old) (length numbers.old)).line)
        × (words.new ≡ strict_words text.now words.old (length numbers.old))
        × (numbers.new ≡ strict_numbers text.now (length words.old) numbers.old) }
{
    let answer = read_strict::read_strict(text, words, numbers);
    *line = answer.line as u64;
    answer.number as u64
}

// SURVEY: 0, or why the text is refused whole; each line's class and reason, and the counts. 28 writes nothing, the counts included.
#[unsafe(no_mangle)]
pub extern "C" fn inp_read_survey(
    text: &[u8],
    words: &mut [u64],
    numbers: &mut [f64],
    classes: &mut [u8],
    reasons: &mut [u8],
    counts: &mut [u64],
) -> u64
    ensures { (result ≡ number_of text.now words.old numbers.old classes.old reasons.old counts.old)
        × (words.new ≡ words_after text.now words.old numbers.old classes.old reasons.old counts.old)
        × (numbers.new ≡ numbers_after text.now words.old numbers.old classes.old reasons.old counts.old)
        × (classes.new ≡ classes_after text.now words.old numbers.old classes.old reasons.old counts.old)
        × (reasons.new ≡ reasons_after text.now words.old numbers.old classes.old reasons.old counts.old)
        × (counts.new ≡ counts_after text.now words.old numbers.old classes.old reasons.old counts.old) }
{
    if counts.len() < COUNTS {
        return SMALL;
    }
    let s = read_survey::read_survey(text, words, numbers, classes, reasons);
    let number = s.number as u64;
    if number == SMALL {
        return SMALL;
    }
    let rec = [
        s.lines as u64,
        s.blank as u64,
        s.header as u64,
        s.passed as u64,
        s.taken as u64,
        s.refused as u64,
        s.ruletaken as u64,
        s.rulerefused as u64,
        s.ruleopen as u64,
    ];
    table_rows::paste(counts, 0, &rec);
    number
}
