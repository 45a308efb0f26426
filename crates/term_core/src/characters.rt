// The characters of names, which are ASCII.
ghost use Rattle.std.specs.Prelude.{◌≡◌};
ghost use Rattle.std.specs.List.{list_all};
ghost use Rattle.term_core.specs.Characters.{is_symbol, is_word_part, is_lower_word, is_symbol_run, is_solo, is_point, opens_comment, is_name};

/// Whether a byte is one of the characters `+-*/\^<>=~:.?@#&$`.
pub fn is_symbol(byte: u8) -> bool
    ensures { result ≡ is_symbol byte }
{
    "+-*/\\^<>=~:.?@#&$"
        .as_bytes()
        .iter()
        .any(|symbol| byte == *symbol)
}

/// Whether a byte is an ASCII letter, a digit or `_`.
pub fn is_word_part(byte: u8) -> bool
    ensures { result ≡ is_word_part byte }
{
    byte.is_ascii_alphanumeric() || byte == b'_'
}

/// Whether bytes are a lower-case letter, and then letters, digits and `_`.
pub fn is_lower_word(bytes: &[u8]) -> bool
    ensures { result ≡ is_lower_word bytes.now }
{
    match bytes.split_first() {
        Some((first, others)) => first.is_ascii_lowercase() && all_word_parts(others),
        None => false,
    }
}

fn all_word_parts(bytes: &[u8]) -> bool
    ensures { result ≡ list_all is_word_part bytes.now }
{
    bytes.iter().all(|byte| is_word_part(*byte))
}

fn all_symbols(bytes: &[u8]) -> bool
    ensures { result ≡ list_all is_symbol bytes.now }
{
    bytes.iter().all(|byte| is_symbol(*byte))
}

/// Whether bytes are one `.` alone.
pub fn is_point(bytes: &[u8]) -> bool
    ensures { result ≡ is_point bytes.now }
{
    match bytes {
        [byte] => *byte == b'.',
        _ => false,
    }
}

/// Whether `/*` stands at the front of bytes.
pub fn opens_comment(bytes: &[u8]) -> bool
    ensures { result ≡ opens_comment bytes.now }
{
    match bytes {
        [first, second, ..] => *first == b'/' && *second == b'*',
        _ => false,
    }
}

fn is_symbol_run(bytes: &[u8]) -> bool
    ensures { result ≡ is_symbol_run bytes.now }
{
    !bytes.is_empty() && all_symbols(bytes) && !is_point(bytes) && !opens_comment(bytes)
}

fn is_solo(bytes: &[u8]) -> bool
    ensures { result ≡ is_solo bytes.now }
{
    match bytes {
        [byte] => *byte == b'!' || *byte == b';',
        _ => false,
    }
}

/// Whether a text is a name that needs no quotes.
pub(crate) fn is_name(text: &str) -> bool
    ensures { result ≡ is_name text.now }
{
    let bytes = text.as_bytes();
    is_lower_word(bytes) || is_symbol_run(bytes) || is_solo(bytes)
}
