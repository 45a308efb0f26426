// The words of the command line that are accepted.
ghost use Rattle.std.specs.Prelude.{◌≡◌, ℕ, ◌+◌, ◌*◌, ◌≤◌, ◌<◌, Bool, true, List, map, length, Option, option_map, string_bytes, None, IfSome, IfNone, IfOk, IsNone};
ghost use Rattle.ciao_modules.specs.FileNames.{shown, is_main_file};
ghost use Rattle.ciao_top.specs.Words.{number_of, number_behind, is_digit};
ghost use Rattle.ciao_top.specs.WordsTable.{run_row};
ghost use Rattle.ciao_top.specs.WordsAccepted.{AcceptedWords, number_within, run_by};
ghost use Rattle.ciao_top.specs.WordsFound.{number_found, run_numbered, run_found};
ghost use Rattle.ciao_top.specs.WordsSeen.{option_seen, few_seen, value_seen};
ghost use Rattle.ciao_top.specs.InnerAnswers.{run_words};

mod cutting;

use cutting::{FewValues, FewWords, OptionRow, find_words};
use term_core::is_lower_word;

/// A run of a query of a file, with the greatest number of calls and, where it is given, of answers.
#[derive(Clone, Copy, Drop)]
pub(crate) struct RunCommand<'a> {
    pub(crate) file: &'a str,
    pub(crate) query: &'a str,
    pub(crate) steps: u64,
    pub(crate) answers: Option<u64>,
}

// `--steps N`
const STEPS: OptionRow = OptionRow {
    name: "--steps",
    least: 0,
    most: 9_223_372_036_854_775_807,
    is_needed: true,
};

// `--answers K`
const ANSWERS: OptionRow = OptionRow {
    name: "--answers",
    least: 1,
    most: 9_223_372_036_854_775_807,
    is_needed: false,
};

// The options of `run`.
const RUN_OPTIONS: [OptionRow; 2] = [STEPS, ANSWERS];

fn is_digit(byte: u8) -> bool
    ensures { result ≡ is_digit byte }
{
    48 <= byte && byte <= 57
}

// The value with one more digit, where it is at most `most`.
#[tactic(auto, using(crate::proofs::Numbers::too_large))]
fn value_with(value: u64, digit: u8, most: u64) -> Option<u64>
    ensures some { IfSome result (λ next. (next ≡ value * 10 + digit) × (next ≤ most)) }
    ensures none { IfNone result ((rest : List ℕ) → number_behind most (value * 10 + digit) rest ≡ None) }
{
    match value.checked_mul(10) {
        None => None,
        Some(tens) => match tens.checked_add(u64::from(digit)) {
            None => None,
            Some(next) => { if next <= most { Some(next) } else { None } }
        },
    }
}

// The number that the word is, if it is one of at most `most`.
fn number(word: &[u8], most: u64) -> Option<u64>
    ensures { result ≡ number_of most word.now }
{
    if word.is_empty() {
        return None;
    }
    let mut value = 0u64;
    for byte in word {
        if !is_digit(*byte) {
            return None;
        }
        match value_with(value, *byte - 48, most) {
            None => return None,
            Some(next) => value = next,
        }
    }
    Some(value)
}

// What stands behind the last slash.
fn behind_slash(file: &[u8]) -> &[u8]
    ensures { result.now ≡ shown file.now }
{
    let mut start = 0;
    for at in 0..file.len() {
        if file[at] == 47 {
            start = at + 1;
        }
    }
    &file[start..]
}

fn is_main_file(file: &[u8]) -> bool
    ensures { result ≡ is_main_file file.now }
{
    let name = behind_slash(file);
    let end = name.len().saturating_sub(3);
    is_lower_word(&name[..end]) && &name[end..] == ".pl".as_bytes()
}

// The number that a word is, within the limits of an option.
fn number_within(row: &OptionRow, word: &[u8]) -> Option<u64>
    ensures { result ≡ number_within (option_seen row.now) word.now }
{
    match number(word, row.most) {
        None => None,
        Some(found) => {
            if row.least <= found {
                Some(found)
            } else {
                None
            }
        }
    }
}

// The number of an option of which these values are found; the inner `None` is an option that does not stand.
fn number_found(row: &OptionRow, value: FewValues<'_>) -> Option<Option<u64>>
    ensures { result ≡ number_found (option_seen row.now) (value_seen value.entry) }
{
    match value {
        FewValues::Nothing => { if row.is_needed { None } else { Some(None) } }
        FewValues::One(value) => match number_within(row, value) {
            None => None,
            Some(number) => Some(Some(number)),
        },
        FewValues::More => None,
    }
}

// The run of a file and a query, with the numbers of `--steps` and of `--answers`.
fn run_numbered<'a>(
    file: &'a str,
    query: &'a str,
    steps: Option<Option<u64>>,
    answers: Option<Option<u64>>,
) -> Option<RunCommand<'a>>
    ensures file { IfSome result (λ command. command.file.now ≡ file.now) }
    ensures command { option_map run_words result ≡ run_numbered file.now query.now steps answers }
{
    match steps {
        Some(Some(steps)) => match answers {
            Some(answers) => Some(RunCommand {
                file,
                query,
                steps,
                answers,
            }),
            None => None,
        },
        Some(None) => None,
        None => None,
    }
}

// The run of the positional words, and of the values of `--steps` and of `--answers`.
fn run_found<'a>(
    positional: FewWords<'a>,
    steps: FewValues<'a>,
    answers: FewValues<'a>,
) -> Option<RunCommand<'a>>
    ensures main { IfSome result (λ command. is_main_file command.file.now ≡ true) }
    ensures command { option_map run_words result ≡ run_found (few_seen positional.entry) (value_seen steps.entry) (value_seen answers.entry) }
{
    match positional {
        FewWords::Two(file, query) => {
            if is_main_file(file.as_bytes()) {
                run_numbered(
                    file,
                    query,
                    number_found(&STEPS, steps),
                    number_found(&ANSWERS, answers),
                )
            } else {
                None
            }
        }
        FewWords::Nothing => None,
        FewWords::One(_) => None,
        FewWords::More => None,
    }
}

// The run that the words behind `run` are, if they are accepted.
#[tactic(auto, using(crate::proofs::WordLaws::run_is))]
fn read_run(words: &[String]) -> Option<RunCommand<'_>>
    ensures main { IfSome result (λ command. is_main_file command.file.now ≡ true) }
    ensures command { option_map run_words result ≡ run_by (map string_bytes words.now) run_row }
{
    match find_words(&RUN_OPTIONS, STEPS.name, words) {
        None => None,
        Some(found) => match find_words(&RUN_OPTIONS, ANSWERS.name, words) {
            None => None,
            Some(limited) => run_found(found.positional, found.value, limited.value),
        },
    }
}

/// The command, if the words are accepted.
pub(crate) fn read_words(words: &[String]) -> Option<RunCommand<'_>>
    ensures main { IfSome result (λ command. is_main_file command.file.now ≡ true) }
    ensures command { option_map run_words result ≡ AcceptedWords (map string_bytes words.now) }
{
    match words.split_first() {
        None => None,
        Some((name, rest)) => {
            if "run" == name.as_str() {
                read_run(rest)
            } else {
                None
            }
        }
    }
}
