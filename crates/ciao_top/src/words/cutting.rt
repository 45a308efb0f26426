// Words that are cut into positional words and options with their values. Nothing is kept in memory: what is
// found is at most two positional words, and the value of one option.
ghost use Rattle.std.specs.Prelude.{◌≡◌, map, option_map, Option, None, string_bytes, bytes_eq};
ghost use Rattle.std.specs.List.{list_any};
ghost use Rattle.ciao_top.specs.WordsCut.{behind_front, behind_equals, given_of, is_dashed, use_of};
ghost use Rattle.ciao_top.specs.WordsFound.{few_and, all_and, value_and, find_words, nothing_found};
ghost use Rattle.ciao_top.specs.WordsSeen.{option_seen, given_seen, use_seen, few_seen, value_seen, found_seen};

/// An option, whose value is a number.
#[derive(Clone, Copy, Drop)]
pub(crate) struct OptionRow {
    pub(crate) name: &'static str,
    pub(crate) least: u64,
    pub(crate) most: u64,
    pub(crate) is_needed: bool,
}

// An option that is given.
#[derive(Clone, Copy, Drop)]
struct GivenOption<'a> {
    name: &'a str,
    value: &'a [u8],
}

// What one word is by itself. It is asked of no word behind `--`, and of none that is the value of the option before it.
#[derive(Clone, Copy, Drop)]
enum WordUse<'a> {
    // `--`: each word behind it is positional.
    Separator,
    // The name of an option, `--x`, whose value is the next word.
    Name,
    // An option with its value, `--x=v`.
    Given(GivenOption<'a>),
    // None of these, but of two bytes or more with `-` first: it is refused.
    Dashed,
    Positional,
}

/// Positional words, up to two.
#[derive(Clone, Copy, Drop)]
pub(crate) enum FewWords<'a> {
    Nothing,
    One(&'a str),
    Two(&'a str, &'a str),
    More,
}

/// The values that are given to an option, up to one.
#[derive(Clone, Copy, Drop)]
pub(crate) enum FewValues<'a> {
    Nothing,
    One(&'a [u8]),
    More,
}

/// What is found in words.
#[derive(Clone, Copy, Drop)]
pub(crate) struct FoundWords<'a> {
    pub(crate) positional: FewWords<'a>,
    pub(crate) value: FewValues<'a>,
}

// The value of `--x=v` for the option `--x`.
fn value_in<'a>(name: &str, word: &'a [u8]) -> Option<&'a [u8]>
    ensures { option_map (λ value. value.now) result ≡ behind_equals (behind_front name.now word.now) }
{
    match word.strip_prefix(name.as_bytes()) {
        None => None,
        Some(rest) => match rest.split_first() {
            None => None,
            Some((first, value)) => { if *first == 61 { Some(value) } else { None } }
        },
    }
}

// Whether a word is the name of an option.
fn is_name(rows: &[OptionRow], word: &str) -> bool
    ensures { result ≡ list_any (λ row. bytes_eq row.name word.now) (map option_seen rows.now) }
{
    for row in rows {
        if row.name == word {
            return true;
        }
    }
    false
}

// An option with its value, or else the other.
fn given_of<'a>(rows: &'a [OptionRow], word: &'a str, other: WordUse<'a>) -> WordUse<'a>
    ensures { use_seen result ≡ given_of (map option_seen rows.now) word.now (use_seen other.entry) }
{
    for row in rows {
        match value_in(row.name, word.as_bytes()) {
            Some(value) => return WordUse::Given(GivenOption {
                name: row.name,
                value,
            }),
            None => {}
        }
    }
    other
}

fn is_dashed(word: &[u8]) -> bool
    ensures { result ≡ is_dashed word.now }
{
    2 <= word.len() && word[0] == 45
}

// What a word is, for a command with these options.
fn use_of<'a>(rows: &'a [OptionRow], word: &'a str) -> WordUse<'a>
    ensures { use_seen result ≡ use_of (map option_seen rows.now) word.now }
{
    if word == "--" {
        WordUse::Separator
    } else if is_name(rows, word) {
        WordUse::Name
    } else if is_dashed(word.as_bytes()) {
        given_of(rows, word, WordUse::Dashed)
    } else {
        given_of(rows, word, WordUse::Positional)
    }
}

// Some words and one more.
fn few_and<'a>(few: FewWords<'a>, word: &'a str) -> FewWords<'a>
    ensures { few_seen result ≡ few_and (few_seen few.entry) word.now }
{
    match few {
        FewWords::Nothing => FewWords::One(word),
        FewWords::One(first) => FewWords::Two(first, word),
        FewWords::Two(_, _) => FewWords::More,
        FewWords::More => FewWords::More,
    }
}

// Some words and all of these.
fn all_and<'a>(few: FewWords<'a>, words: &'a [String]) -> FewWords<'a>
    ensures { few_seen result ≡ all_and (few_seen few.entry) (map string_bytes words.now) }
{
    let mut all = few;
    for word in words {
        all = few_and(all, word.as_str());
    }
    all
}

// Some values of an option, and that of one that is given, if it is this option.
fn value_and<'a>(name: &str, value: FewValues<'a>, option: GivenOption<'a>) -> FewValues<'a>
    ensures { value_seen result ≡ value_and name.now (value_seen value.entry) (given_seen option.entry) }
{
    if option.name == name {
        match value {
            FewValues::Nothing => FewValues::One(option.value),
            FewValues::One(_) => FewValues::More,
            FewValues::More => FewValues::More,
        }
    } else {
        value
    }
}

/// The positional words behind a command with these options, and the values of the option of this name; none where a
/// word is refused or a value is missing.
pub(crate) fn find_words<'a>(
    rows: &'a [OptionRow],
    name: &str,
    words: &'a [String],
) -> Option<FoundWords<'a>>
    ensures { option_map found_seen result ≡ find_words (map option_seen rows.now) name.now None nothing_found (map string_bytes words.now) }
{
    let mut positional = FewWords::Nothing;
    let mut value = FewValues::Nothing;
    let mut due: Option<&str> = None;
    for at in 0..words.len() {
        let word = words[at].as_str();
        match due {
            Some(waiting) => {
                value = value_and(
                    name,
                    value,
                    GivenOption {
                        name: waiting,
                        value: word.as_bytes(),
                    },
                );
                due = None;
            }
            None => match use_of(rows, word) {
                WordUse::Separator => {
                    return Some(FoundWords {
                        positional: all_and(positional, &words[at + 1..]),
                        value,
                    });
                }
                WordUse::Name => due = Some(word),
                WordUse::Given(option) => value = value_and(name, value, option),
                WordUse::Positional => positional = few_and(positional, word),
                WordUse::Dashed => return None,
            },
        }
    }
    match due {
        Some(_) => None,
        None => Some(FoundWords { positional, value }),
    }
}
