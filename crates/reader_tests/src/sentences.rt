// Texts and what is read of them, as a reader of the language writes them down.
use ciao_reader::{ReadFault, Sentence, read_goal, read_sentences};
use std::alloc::{AllocError, Global};
use std::test::Fail;
use term_core::{Names, NoMemory, OpTable, Term};

// A text and what is told of it as a goal: each compound as a name with its arguments.
const GOALS: [(&str, &str); 84] = [
    // infix operators
    ("a - b - c", "-(-(a,b),c)"),
    ("a - (b - c)", "-(a,-(b,c))"),
    ("a - b * c - d", "-(-(a,*(b,c)),d)"),
    ("a -(b)", "-(a,b)"),
    ("a -1", "-(a,1)"),
    ("a - -1", "-(a,-1)"),
    ("2 ^ 3 ^ 4", "^(2,^(3,4))"),
    ("2 ** 3 ** 4", "syntax 1"),
    ("a = b = c", "syntax 1"),
    ("a:b:c", "syntax 1"),
    ("X =(a,b)", "=(_0,,(a,b))"),
    ("p :- (a ; b -> c)", ":-(p,;(a,->(b,c)))"),
    ("a , b , c", ",(a,,(b,c))"),
    ("a | b | c", "|(a,|(b,c))"),
    ("a :- b :- c", "syntax 1"),
    ("a '-' b", "-(a,b)"),
    ("a '|' b", "syntax 1"),
    ("a ',' b", "syntax 1"),
    ("a =", "syntax 1"),
    ("= a", "syntax 1"),
    ("a b", "syntax 1"),
    // prefix operators before each kind of token
    ("- 1", "-(1)"),
    ("-1", "-1"),
    ("'-'1", "-(1)"),
    ("- - 1", "-(-(1))"),
    ("- -1", "-(-1)"),
    ("- (1)", "-(1)"),
    ("-(1)", "-(1)"),
    ("-(1,2)", "-(1,2)"),
    ("- a", "-(a)"),
    ("- X", "-(_0)"),
    ("- \"a\"", "-(.(97,[]))"),
    ("- [a]", "-(.(a,[]))"),
    ("- {a}", "-({}(a))"),
    ("- p(a)", "-(p(a))"),
    ("-", "-"),
    ("(-)", "-"),
    ("[-]", ".(-,[])"),
    ("{-}", "{}(-)"),
    ("f(-, a)", "f(-,a)"),
    ("[-|a]", ".(-,a)"),
    ("- = x", "=(-,x)"),
    ("- -", "-(-)"),
    ("\\+ a = b", "\\+(=(a,b))"),
    ("\\+ (a)", "\\+(a)"),
    ("\\+ \\+ a", "\\+(\\+(a))"),
    ("entry :- a", ":-(entry,a)"),
    ("true -> x", "->(true,x)"),
    ("check pred p", "check(pred(p))"),
    ("pred check p", "syntax 1"),
    (":- a", ":-(a)"),
    ("f(:- a)", "syntax 1"),
    ("f((:- a))", "f(:-(a))"),
    ("f(a :- b)", "syntax 1"),
    ("[a = b,c]", ".(=(a,b),.(c,[]))"),
    ("[a ; b]", "syntax 1"),
    // primaries
    ("[]", "[]"),
    ("{}", "{}"),
    ("[a,b|c]", ".(a,.(b,c))"),
    ("[|a]", "syntax 1"),
    ("[a|b,c]", "syntax 1"),
    ("{x}", "{}(x)"),
    ("{a :- b}", "{}(:-(a,b))"),
    ("'a b'('\\n')", "a b(\n)"),
    ("\"ab\"", ".(97,.(98,[]))"),
    ("p(X,_,Y,X,_)", "p(_0,_1,_2,_0,_3)"),
    ("p()", "syntax 1"),
    ("p (a)", "syntax 1"),
    ("(a", "syntax 1"),
    ("a)", "syntax 1"),
    // one term, and its end
    ("a.", "a"),
    ("a. b.", "syntax 1"),
    ("\n.", "syntax 2"),
    // numbers
    ("-9223372036854775808", "-9223372036854775808"),
    ("\n- 9223372036854775808", "range 2"),
    ("- 'a'", "-(a)"),
    ("- .", "-"),
    ("- =(a,b)", "-(=(a,b))"),
    ("- '=' x", "=(-,x)"),
    ("- ',' a", "syntax 1"),
    ("- -(1)", "-(-(1))"),
    ("- :- a", ":-(-,a)"),
    ("~ '-'1", "-(~,1)"),
    ("~ -1", "~(-1)"),
];

// Files, and what is told of their sentences, each with its line and variables, or of the fault.
const FILES: [(&str, &str); 29] = [
    ("", ""),
    ("a. b :- c.\n\np(X,_) .", "a@1/0 :-(b,c)@1/0 p(_0,_1)@3/2"),
    ("a.\nb", "no end 2"),
    ("a.\n.\n", "syntax 2"),
    ("a.\n\n  b c.\nd(", "syntax 3"),
    (
        ":- op(700,xfx,===).\na === b.",
        ":-(op(700,xfx,===))@1/0 ===(a,b)@2/0",
    ),
    ("a === b.", "syntax 1"),
    (":- op(0,xfx,=).\na = b.", "syntax 2"),
    (
        ":- op(200,xfy,&). a & b & c.",
        ":-(op(200,xfy,&))@1/0 &(a,&(b,c))@1/0",
    ),
    (":- op(500,xfy,&).", "op 1"),
    (":- op(500,fy,&).", "op 1"),
    (
        ":- op(600,xfx,[on,under]). a on b. a under b.",
        ":-(op(600,xfx,.(on,.(under,[]))))@1/0 on(a,b)@1/0 under(a,b)@1/0",
    ),
    ("a.\n:- op(600,xfx,[on,[]]).", "op 2"),
    (":- op(600,xfx,[on|_]).", "op 1"),
    (":- op(600,xfx,[]).", "op 1"),
    (":- op(600,xfx,'|').", "op 1"),
    (":- op(600,xfx,',').", "op 1"),
    (":- op(600,xfx,{}).", "op 1"),
    (":- op(1201,xfx,on).", "op 1"),
    (":- op(600,yf,on).", "op 1"),
    (":- op(9223372036854775808,xfx,on).", "range 1"),
    (":- op(600,xfx,'.').", "op 1"),
    (":- op(1100,yfx,&).", "op 1"),
    (":- op(200,yfx,&).", "op 1"),
    (
        ":- op(200,xfy,=). a = b = c.",
        ":-(op(200,xfy,=))@1/0 =(a,=(b,c))@1/0",
    ),
    (":- op(P,xfx,on).", "op 1"),
    (":- op(-1,xfx,on).", "op 1"),
    (":- op(600,xfx,f(a)).", "op 1"),
    (":- op(0,xfx,[]).", "op 1"),
];

fn add_name(names: &Names, name: u64, out: &mut String) -> Result<(), AllocError> {
    if name < names.len() {
        out.push_str(names.text(name))?;
    }
    Ok(())
}

fn add_term(alloc: Global, names: &Names, term: &Term, out: &mut String) -> Result<(), AllocError> {
    match term {
        Term::Var(variable) => out.push_str(format!(in alloc; "_{variable}")?.as_str()),
        Term::Int(number) => out.push_str(format!(in alloc; "{number}")?.as_str()),
        Term::Atom(name) => add_name(names, *name, out),
        Term::Node(name, parts) => {
            add_name(names, *name, out)?;
            for (at, part) in parts.as_slice().iter().enumerate() {
                if at == 0 {
                    out.push_str("(")?;
                } else {
                    out.push_str(",")?;
                }
                add_term(alloc, names, part, out)?;
            }
            out.push_str(")")
        }
    }
}

// The word of a fault, and its line.
fn fault_parts(fault: ReadFault) -> (&'static str, u64) {
    match fault {
        ReadFault::NotUtf8(line) => ("utf8", line),
        ReadFault::BadToken(line) => ("bad", line),
        ReadFault::IntRange(line) => ("range", line),
        ReadFault::Syntax(line) => ("syntax", line),
        ReadFault::TooDeep(line) => ("deep", line),
        ReadFault::OpRefused(line) => ("op", line),
        ReadFault::NoEnd(line) => ("no end", line),
        ReadFault::NoMemory => ("memory", 0),
    }
}

fn fault_told(alloc: Global, fault: ReadFault) -> Result<String, AllocError> {
    let (word, line) = fault_parts(fault);
    format!(in alloc; "{word} {line}")
}

fn term_told(alloc: Global, names: &Names, term: &Term) -> Result<String, AllocError> {
    let mut out = String::new(alloc);
    add_term(alloc, names, term, &mut out)?;
    Ok(out)
}

fn goal_told(alloc: Global, text: &str) -> Result<String, NoMemory> {
    let mut names = Names::new(alloc)?;
    let ops = OpTable::standard(alloc)?;
    match read_goal(alloc, &mut names, &ops, text) {
        Ok(goal) => Ok(term_told(alloc, &names, &goal.term)?),
        Err(fault) => Ok(fault_told(alloc, fault)?),
    }
}

// The first text of which something else is told as a goal.
fn first_other_goal<'a>(
    alloc: Global,
    rows: &[(&'a str, &str)],
) -> Result<Option<&'a str>, NoMemory> {
    for row in rows {
        if goal_told(alloc, row.0)?.as_str() != row.1 {
            return Ok(Some(row.0));
        }
    }
    Ok(None)
}

#[test]
fn goals_are_read(rt: HostRuntime) -> Result<(), Fail> {
    assert_eq!(rt; first_other_goal(rt.alloc(), &GOALS)?, None);
    Ok(())
}

// Each sentence with its line and how many variables it has.
fn add_sentence(
    alloc: Global,
    names: &Names,
    sentence: &Sentence,
    out: &mut String,
) -> Result<(), AllocError> {
    if !out.is_empty() {
        out.push_str(" ")?;
    }
    add_term(alloc, names, &sentence.term, out)?;
    out.push_str(format!(in alloc; "@{}/{}", sentence.line, sentence.vars)?.as_str())
}

fn sentences_told(
    alloc: Global,
    names: &Names,
    sentences: &[Sentence],
) -> Result<String, AllocError> {
    let mut out = String::new(alloc);
    for sentence in sentences {
        add_sentence(alloc, names, sentence, &mut out)?;
    }
    Ok(out)
}

fn file_told(alloc: Global, text: &str) -> Result<String, NoMemory> {
    let mut names = Names::new(alloc)?;
    match read_sentences(alloc, &mut names, text.as_bytes()) {
        Ok(source) => Ok(sentences_told(alloc, &names, source.sentences.as_slice())?),
        Err(fault) => Ok(fault_told(alloc, fault)?),
    }
}

// The first file of which something else is told.
fn first_other_file<'a>(
    alloc: Global,
    rows: &[(&'a str, &str)],
) -> Result<Option<&'a str>, NoMemory> {
    for row in rows {
        if file_told(alloc, row.0)?.as_str() != row.1 {
            return Ok(Some(row.0));
        }
    }
    Ok(None)
}

#[test]
fn files_are_read(rt: HostRuntime) -> Result<(), Fail> {
    assert_eq!(rt; first_other_file(rt.alloc(), &FILES)?, None);
    Ok(())
}

fn add_times(text: &mut String, part: &str, count: usize) -> Result<(), AllocError> {
    for _ in 0..count {
        text.push_str(part)?;
    }
    Ok(())
}

// A text so many times, one behind it, a third so many times, one at the end; and what is told of that sentence.
type Limit = (
    &'static str,
    usize,
    &'static str,
    &'static str,
    &'static str,
    &'static str,
);

// Parentheses, prefix operators, arguments and elements.
const LIMITS_AROUND: [Limit; 10] = [
    ("(", 4095, "a", ")", "", "read"),
    ("(", 4096, "a", ")", "", "deep 1"),
    ("(", 100_000, "a", ")", "", "deep 1"),
    ("(", 1_000_000, "a", "", "", "syntax 1"),
    ("- ", 4095, "a", "", "", "read"),
    ("- ", 100_000, "a", "", "", "deep 1"),
    ("", 254, "p(a", ",a", "", "syntax 1"),
    ("[a|", 100_000, "[]", "]", "", "deep 1"),
    ("f(", 100_000, "a", ")", "", "deep 1"),
    ("\"", 1, "a", "\"", "", "read"),
];

const LIMITS_BEHIND: [Limit; 10] = [
    ("", 254, "p(a", ",a", ")", "read"),
    ("", 255, "p(a", ",a", ")", "syntax 1"),
    ("", 4094, "[a", ",a", "]", "read"),
    ("", 4095, "[a", ",a", "]", "deep 1"),
    ("", 100_000, "[a", ",a", "]", "deep 1"),
    ("", 4094, "\"a", "a", "\"", "read"),
    ("", 4095, "\"a", "a", "\"", "deep 1"),
    ("", 4095, "a", " - a", "", "read"),
    ("", 100_000, "a", " - a", "", "deep 1"),
    ("", 100_000, "a", ", a", "", "deep 1"),
];

// The sentence of a row.
fn limit_text(alloc: Global, row: &Limit) -> Result<String, AllocError> {
    let mut text = String::new(alloc);
    add_times(&mut text, row.0, row.1)?;
    text.push_str(row.2)?;
    add_times(&mut text, row.3, row.1)?;
    text.push_str(row.4)?;
    text.push_str(".")?;
    Ok(text)
}

fn limit_told(alloc: Global, row: &Limit) -> Result<String, NoMemory> {
    let text = limit_text(alloc, row)?;
    let mut names = Names::new(alloc)?;
    match read_sentences(alloc, &mut names, text.as_str().as_bytes()) {
        Ok(_) => Ok(String::from_str(alloc, "read")?),
        Err(fault) => Ok(fault_told(alloc, fault)?),
    }
}

// The place of the first row of which something else is told.
fn first_other_limit(alloc: Global, rows: &[Limit]) -> Result<Option<usize>, NoMemory> {
    for (at, row) in rows.iter().enumerate() {
        if limit_told(alloc, row)?.as_str() != row.5 {
            return Ok(Some(at));
        }
    }
    Ok(None)
}

#[test]
fn limits_of_a_sentence(rt: HostRuntime) -> Result<(), Fail> {
    assert_eq!(rt; first_other_limit(rt.alloc(), &LIMITS_AROUND)?, None);
    Ok(())
}

#[test]
fn limits_behind_one_another(rt: HostRuntime) -> Result<(), Fail> {
    assert_eq!(rt; first_other_limit(rt.alloc(), &LIMITS_BEHIND)?, None);
    Ok(())
}
