// Texts and their tokens, as a reader of the language writes them down.
use ciao_tokens::{TextFault, Token, TokenKind, tokens};
use std::alloc::{AllocError, Global};
use std::test::Fail;
use term_core::{Names, NoMemory};

// A text and what is told of its tokens: `~` behind layout, a line above 1 behind `@`.
const ROWS: [(&str, &str); 81] = [
    // each row of the table
    (
        "a aB_1 + =.. ! ; [] {}",
        "n:a ~n:aB_1 ~n:+ ~n:=.. ~n:! ~n:; ~[ ] ~{ }",
    ),
    ("X _ _a Ab1", "v:X ~v:_ ~v:_a ~v:Ab1"),
    ("0 007 0x1F 0xfF 0'a 0'''", "0 ~7 ~31 ~255 ~97 ~39"),
    ("'a b' '' 'it''s'", "q:a b ~q: ~q:it's"),
    ("\"ab\" \"\" \"a\"\"b\"", "t:ab ~t: ~t:a\"b"),
    ("p(X,Y|Z).", "n:p call v:X , v:Y | v:Z ) end"),
    (
        "a.\nb. c.% d\ne.",
        "n:a end ~n:b@2 end@2 ~n:c@2 end@2 ~n:e@3 end@3",
    ),
    ("", ""),
    // a parenthesis behind a name and behind another token
    ("p (", "n:p ~("),
    ("p(", "n:p call"),
    ("'p'(", "q:p call"),
    ("X(", "v:X ("),
    ("((", "( ("),
    ("1(", "1 ("),
    ("-(", "n:- call"),
    ("[](", "[ ] ("),
    ("\"a\"(", "t:a ("),
    ("p/**/(", "n:p ~("),
    // places where the longest token decides
    ("a.b", "bad 1"),
    ("a.%", "n:a end"),
    ("X.Y", "bad 1"),
    ("0'a'", "bad 1"),
    ("1.e", "bad 1"),
    ("1.5", "bad 1"),
    ("0x", "bad 1"),
    ("12a", "bad 1"),
    ("1_", "bad 1"),
    ("0'ab", "bad 1"),
    ("0x1g", "bad 1"),
    (":-:-", "n::-:-"),
    ("a/*b*/c", "n:a ~n:c"),
    ("/*/", "bad 1"),
    ("-1", "n:- 1"),
    ("- 1", "n:- ~1"),
    ("a./*b*/", "n:a n:./* n:b n:*/"),
    ("0'", "bad 1"),
    ("0''", "0 q:"),
    ("0'\\q'", "bad 1"),
    ("0'\\\n'", "0 q:"),
    ("1.\n", "1 end"),
    ("1..5", "1 n:.. 5"),
    ("a%b", "n:a"),
    ("1'a'", "1 q:a"),
    // escapes
    ("'\\n\\t\\r\\\\\\'\\\"'", "q:\n\t\r\\'\""),
    ("'\\x41\\\\x20ac\\'", "q:A€"),
    ("'a\\\nb'", "q:ab"),
    ("\"\\x0\\\\n\"", "t:\0\n"),
    ("0'\\n 0'\\x41\\ 0'\\\\ 0'é", "10 ~65 ~92 ~233"),
    ("0'\n", "10"),
    ("'\\q'", "bad 1"),
    ("'\\x\\'", "bad 1"),
    ("'\\x1234567\\'", "bad 1"),
    ("'\\xd800\\'", "bad 1"),
    ("'\\x110000\\'", "bad 1"),
    ("'\\x41'", "bad 1"),
    // bad tokens, and lines
    ("'a", "bad 1"),
    ("\"a", "bad 1"),
    ("'a''b", "bad 1"),
    ("a /* b", "bad 1"),
    ("é", "bad 1"),
    ("a `", "bad 1"),
    ("a.\n\n 'b\nc", "bad 3"),
    ("'a\nb' c", "q:a\nb ~n:c@2"),
    ("/* a\n\n */ b", "~n:b@3"),
    ("a.\r\nb.\r\n", "n:a end ~n:b@2 end@2"),
    ("% a\n% b\nc", "~n:c@3"),
    ("\u{feff}a", "~n:a"),
    ("a\u{feff}", "bad 1"),
    // numbers at the limit
    (
        "9223372036854775807 9223372036854775808",
        "9223372036854775807 ~9223372036854775808",
    ),
    ("9223372036854775809", "range 1"),
    ("a.\n99999999999999999999", "range 2"),
    ("0x8000000000000000", "9223372036854775808"),
    ("0x8000000000000001", "range 1"),
    ("9223372036854775809a", "bad 1"),
    // lines of quoted items that go on, and the first of two faults
    ("'a\\\nb' c", "q:ab ~n:c@2"),
    ("'a\\\r\nb'", "bad 1"),
    ("'a\n''b", "bad 1"),
    ("0'\né", "bad 2"),
    ("9223372036854775809\n`", "range 1"),
    ("`\n9223372036854775809", "bad 1"),
    ("+-*/\\^<>=~:.?@#&$", "n:+-*/\\^<>=~:.?@#&$"),
];

fn add_named(names: &Names, sort: &str, number: u64, out: &mut String) -> Result<(), AllocError> {
    out.push_str(sort)?;
    if number < names.len() {
        out.push_str(names.text(number))?;
    }
    Ok(())
}

fn add_number(alloc: Global, number: u64, out: &mut String) -> Result<(), AllocError> {
    let digits = format!(in alloc; "{number}")?;
    out.push_str(digits.as_str())
}

fn add_chars(chars: &[u32], out: &mut String) -> Result<(), AllocError> {
    out.push_str("t:")?;
    for code in chars {
        match char::from_u32(*code) {
            None => {}
            Some(char) => out.push(char)?,
        }
    }
    Ok(())
}

fn add_kind(
    alloc: Global,
    names: &Names,
    kind: &TokenKind,
    out: &mut String,
) -> Result<(), AllocError> {
    match kind {
        TokenKind::Name(number) => add_named(names, "n:", *number, out),
        TokenKind::Quoted(number) => add_named(names, "q:", *number, out),
        TokenKind::Variable(number) => add_named(names, "v:", *number, out),
        TokenKind::Number(value) => add_number(alloc, *value, out),
        TokenKind::Text(chars) => add_chars(chars.as_slice(), out),
        TokenKind::OpenCall => out.push_str("call"),
        TokenKind::Open => out.push_str("("),
        TokenKind::Close => out.push_str(")"),
        TokenKind::OpenList => out.push_str("["),
        TokenKind::CloseList => out.push_str("]"),
        TokenKind::OpenCurly => out.push_str("{"),
        TokenKind::CloseCurly => out.push_str("}"),
        TokenKind::Comma => out.push_str(","),
        TokenKind::Bar => out.push_str("|"),
        TokenKind::End => out.push_str("end"),
    }
}

fn add_token(
    alloc: Global,
    names: &Names,
    token: &Token,
    out: &mut String,
) -> Result<(), AllocError> {
    if !out.is_empty() {
        out.push_str(" ")?;
    }
    if token.layout_before {
        out.push_str("~")?;
    }
    add_kind(alloc, names, &token.kind, out)?;
    if token.line > 1 {
        out.push_str("@")?;
        add_number(alloc, token.line, out)?;
    }
    Ok(())
}

fn all_told(alloc: Global, names: &Names, tokens: &[Token]) -> Result<String, AllocError> {
    let mut out = String::new(alloc);
    for token in tokens {
        add_token(alloc, names, token, &mut out)?;
    }
    Ok(out)
}

// The word of a fault, and its line.
fn fault_parts(fault: TextFault) -> (&'static str, u64) {
    match fault {
        TextFault::NotUtf8(line) => ("utf8", line),
        TextFault::BadToken(line) => ("bad", line),
        TextFault::IntRange(line) => ("range", line),
        TextFault::NoMemory => ("memory", 0),
    }
}

fn fault_told(alloc: Global, fault: TextFault) -> Result<String, AllocError> {
    let (word, line) = fault_parts(fault);
    format!(in alloc; "{word} {line}")
}

fn told(alloc: Global, bytes: &[u8]) -> Result<String, NoMemory> {
    let mut names = Names::new(alloc)?;
    match tokens(alloc, &mut names, bytes) {
        Ok(tokens) => Ok(all_told(alloc, &names, tokens.as_slice())?),
        Err(fault) => Ok(fault_told(alloc, fault)?),
    }
}

// The first text of which something else is told.
fn first_other<'a>(alloc: Global, rows: &[(&'a str, &str)]) -> Result<Option<&'a str>, NoMemory> {
    for row in rows {
        if told(alloc, row.0.as_bytes())?.as_str() != row.1 {
            return Ok(Some(row.0));
        }
    }
    Ok(None)
}

#[test]
fn texts_have_their_tokens(rt: HostRuntime) -> Result<(), Fail> {
    assert_eq!(rt; first_other(rt.alloc(), &ROWS)?, None);
    Ok(())
}

#[test]
fn bytes_that_are_no_text(rt: HostRuntime) -> Result<(), Fail> {
    assert_eq!(rt;
        told(rt.alloc(), &[b'a', b'\n', 0xC3, b'('])?.as_str(),
        "utf8 2"
    );
    Ok(())
}

// How many tokens a text has that repeats a part; none where it has a fault.
fn count_of(alloc: Global, part: &str, count: usize) -> Result<Option<usize>, NoMemory> {
    let mut text = String::new(alloc);
    for _ in 0..count {
        text.push_str(part)?;
    }
    let mut names = Names::new(alloc)?;
    match tokens(alloc, &mut names, text.as_str().as_bytes()) {
        Ok(tokens) => Ok(Some(tokens.len())),
        Err(_) => Ok(None),
    }
}

// Parts, how often they are repeated, and how many tokens that is.
const LONG: [(&str, usize, usize); 2] = [("a", 1_048_576, 1), ("a ", 500_000, 500_000)];

// The first part that gives another number of tokens.
fn first_other_count<'a>(
    alloc: Global,
    rows: &[(&'a str, usize, usize)],
) -> Result<Option<&'a str>, NoMemory> {
    for row in rows {
        if count_of(alloc, row.0, row.1)? != Some(row.2) {
            return Ok(Some(row.0));
        }
    }
    Ok(None)
}

#[test]
fn long_texts_have_their_tokens(rt: HostRuntime) -> Result<(), Fail> {
    assert_eq!(rt; first_other_count(rt.alloc(), &LONG)?, None);
    Ok(())
}
