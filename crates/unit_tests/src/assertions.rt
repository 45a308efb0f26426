// Texts of assertions, and what is read of them.
use assertion_read::{AssertFault, Assertion, Mark, Word, Written, read_assertion};
use ciao_reader::{Sentence, read_sentences};
use std::alloc::{AllocError, Global};
use std::test::Fail;
use term_core::{Names, NoMemory};

// Each text with what is told of it: its line, the status, the keyword, the predicate, behind `:`, `=>` and `+` the properties with the numbers of their arguments; or `bad` and the line.
const ROWS: [(&str, &str); 98] = [
    // the fields of pred
    (":- pred p(X).", "1 check pred p/1"),
    (":- pred p(X) : int(X).", "1 check pred p/1 : int 0"),
    (":- pred p(X) => int(X).", "1 check pred p/1 => int 0"),
    (":- pred p(X) + is_det.", "1 check pred p/1 + is_det"),
    (":- pred p(X) # \"c\".", "1 check pred p/1"),
    (
        ":- pred p(X,Y) : int(X) => atm(Y) + not_fails # \"c\".",
        "1 check pred p/2 : int 0 => atm 1 + not_fails",
    ),
    (
        ":- pred p(X) : int(X) + is_det.",
        "1 check pred p/1 : int 0 + is_det",
    ),
    (
        ":- pred p(X) => int(X) + is_det.",
        "1 check pred p/1 => int 0 + is_det",
    ),
    (":- pred p(X) : true => true.", "1 check pred p/1 =>"),
    (
        ":- pred p(X) + (is_det, not_fails).",
        "1 check pred p/1 + is_det not_fails",
    ),
    (":- pred p(X) + true.", "1 check pred p/1 + true"),
    (":- pred p(X) # c : int(X).", "1 check pred p/1"),
    // wrong orders, and a field that is no such field
    (":- pred p(X) => int(X) : int(X).", "bad 1"),
    (":- pred p(X) + is_det : int(X).", "bad 1"),
    (":- pred p(X) + is_det => int(X).", "bad 1"),
    (":- pred (p(X) # c) : int(X).", "bad 1"),
    (":- pred (p(X) # c) => int(X).", "bad 1"),
    (":- pred (p(X) # c) + is_det.", "bad 1"),
    (":- pred p(X) : int(X) + is_det => int(X).", "bad 1"),
    (":- pred p(X) : int(X) + is_det + not_fails.", "bad 1"),
    (":- pred p(X) + f(X).", "bad 1"),
    (":- pred p(X) + (is_det, 1).", "bad 1"),
    // properties of variables
    (
        ":- pred p(X) : (int(X), (atm(X), gnd(X))).",
        "1 check pred p/1 : int 0 atm 0 gnd 0",
    ),
    (
        ":- pred p(X,Y) : ((int(Y), atm(X)), gnd(Y)).",
        "1 check pred p/2 : int 1 atm 0 gnd 1",
    ),
    (
        ":- pred p(X) : (list(X,int), list(X)).",
        "1 check pred p/1 : list 0 int list 0",
    ),
    (
        ":- pred qsort(X,Y) : list(X,int) => list(Y,int) # \"sorts\".",
        "1 check pred qsort/2 : list 0 int => list 1 int",
    ),
    (":- pred p(X) : int.", "bad 1"),
    (":- pred p(X) : X.", "bad 1"),
    (":- pred p(X) : int(Y).", "bad 1"),
    (":- pred p(X) : int(a).", "bad 1"),
    (":- pred p(X) : (true, int(X)).", "bad 1"),
    (":- pred p(X) : list(X,Y).", "bad 1"),
    (":- pred p(X) : list(int,X).", "bad 1"),
    (":- pred p(X) : t(X,int).", "bad 1"),
    (":- pred p(X,Y) : int * atm.", "bad 1"),
    // properties in order
    (
        ":- pred p/2 : int * list(atm) => list * t.",
        "1 check pred p/2 : int 0 list 1 atm => list 0 t 1",
    ),
    (
        ":- pred p/3 : int * atm * gnd.",
        "1 check pred p/3 : int 0 atm 1 gnd 2",
    ),
    (":- pred p/1 : true.", "1 check pred p/1 : true 0"),
    (
        ":- calls p/2 : int * list(atm).",
        "1 check calls p/2 : int 0 list 1 atm",
    ),
    (
        ":- success p/1 : int => list.",
        "1 check success p/1 : int 0 => list 0",
    ),
    (
        ":- entry p/1 : list(int).",
        "1 check entry p/1 : list 0 int",
    ),
    (":- pred p/0 + fails.", "1 check pred p/0 + fails"),
    (":- pred p/0 : true.", "bad 1"),
    (":- pred p/2 : int.", "bad 1"),
    (":- pred p/2 : int * int * int.", "bad 1"),
    (":- pred p/3 : int * (atm * gnd).", "bad 1"),
    (":- pred p/1 : int(X).", "bad 1"),
    (":- pred p/1 : list(X).", "bad 1"),
    (":- pred p/1 : list(X,int).", "bad 1"),
    // heads
    (":- pred p.", "1 check pred p/0"),
    (":- pred A/B.", "1 check pred //2"),
    (":- pred true.", "1 check pred true/0"),
    (":- pred '+'(X).", "1 check pred +/1"),
    (":- pred p(X,X).", "bad 1"),
    (":- pred p(a).", "bad 1"),
    (":- pred X.", "bad 1"),
    (":- pred 1.", "bad 1"),
    (":- pred 1/1.", "bad 1"),
    (":- pred p/a.", "bad 1"),
    (":- pred p/(-1).", "bad 1"),
    (":- pred X + Y.", "bad 1"),
    (":- pred '=>'(X,Y).", "bad 1"),
    (":- pred (X : Y).", "bad 1"),
    (":- pred '#'(X,Y).", "bad 1"),
    // the other keywords
    (":- calls p(X) : int(X) # c.", "1 check calls p/1 : int 0"),
    (":- calls p(X) # c.", "bad 1"),
    (":- calls p(X).", "bad 1"),
    (":- calls p(X) : true.", "1 check calls p/1"),
    (":- calls (p(X) # c) : int(X).", "bad 1"),
    (":- calls p(X) : int(X) => int(X).", "bad 1"),
    (":- calls p(X) : int(X) + is_det.", "bad 1"),
    (
        ":- success p(X) : int(X) => atm(X) # c.",
        "1 check success p/1 : int 0 => atm 0",
    ),
    (":- success p(X) : int(X).", "bad 1"),
    (":- success p(X) => int(X).", "1 check success p/1 => int 0"),
    (":- success p(X) => int(X) : int(X).", "bad 1"),
    (":- success (p(X) # c) => int(X).", "bad 1"),
    (":- success p(X) => int(X) + is_det.", "bad 1"),
    (":- comp p(X).", "1 check comp p/1"),
    (
        ":- comp p(X) : int(X) + is_det # c.",
        "1 check comp p/1 : int 0 + is_det",
    ),
    (":- comp p(X) => int(X) + is_det.", "bad 1"),
    (":- comp p(X) + is_det.", "1 check comp p/1 + is_det"),
    (":- comp p(X) + is_det : int(X).", "bad 1"),
    (":- comp (p(X) # c) + is_det.", "bad 1"),
    (":- entry p(X) : int(X) # c.", "1 check entry p/1 : int 0"),
    (":- entry p(X) => int(X).", "bad 1"),
    (":- entry p(X).", "1 check entry p/1"),
    (":- entry (p(X) # c) : int(X).", "bad 1"),
    (":- entry p(X) : int(X) + is_det.", "bad 1"),
    // statuses
    (":- check pred p.", "1 check pred p/0"),
    ("\n:- trust pred p.", "2 trust pred p/0"),
    (":- true pred p(X) => atm(X).", "1 true pred p/1 => atm 0"),
    (":- checked success p => true.", "1 checked success p/0 =>"),
    (":- false comp p.", "1 false comp p/0"),
    ("\n\n:- check check pred p.", "bad 3"),
    (":- check regtype t/1.", "bad 1"),
    (":- check p.", "bad 1"),
    (":- pred(p,q).", "bad 1"),
    ("pred p.", "bad 1"),
];

fn mark_text(mark: Mark) -> &'static str {
    match mark {
        Mark::Check => "check",
        Mark::Trust => "trust",
        Mark::True => "true",
        Mark::Checked => "checked",
        Mark::False => "false",
    }
}

fn word_text(word: Word) -> &'static str {
    match word {
        Word::Pred => "pred",
        Word::Calls => "calls",
        Word::Success => "success",
        Word::Comp => "comp",
        Word::Entry => "entry",
    }
}

fn add_properties(
    alloc: Global,
    names: &Names,
    properties: &[Written],
    out: &mut String,
) -> Result<(), AllocError> {
    for property in properties {
        let name = names.text_or_empty(property.property);
        out.push_str(format!(in alloc; " {name} {}", property.arg)?.as_str())?;
        match property.element {
            None => {}
            Some(element) => {
                out.push_str(" ")?;
                out.push_str(names.text_or_empty(element))?;
            }
        }
    }
    Ok(())
}

// The line, the status, the keyword and the predicate.
fn front_told(alloc: Global, names: &Names, assertion: &Assertion) -> Result<String, AllocError> {
    let name = names.text_or_empty(assertion.name);
    let mark = mark_text(assertion.mark);
    let word = word_text(assertion.keyword);
    format!(in alloc;
        "{} {mark} {word} {name}/{}",
        assertion.line, assertion.arity
    )
}

fn add_fields(
    alloc: Global,
    names: &Names,
    assertion: &Assertion,
    out: &mut String,
) -> Result<(), AllocError> {
    if assertion.pre.len() > 0 {
        out.push_str(" :")?;
        add_properties(alloc, names, assertion.pre.as_slice(), out)?;
    }
    match &assertion.post {
        None => Ok(()),
        Some(post) => {
            out.push_str(" =>")?;
            add_properties(alloc, names, post.as_slice(), out)
        }
    }
}

fn add_comp(names: &Names, comp: &[u64], out: &mut String) -> Result<(), AllocError> {
    if comp.len() > 0 {
        out.push_str(" +")?;
    }
    for name in comp {
        out.push_str(" ")?;
        out.push_str(names.text_or_empty(*name))?;
    }
    Ok(())
}

fn assertion_told(
    alloc: Global,
    names: &Names,
    assertion: &Assertion,
) -> Result<String, AllocError> {
    let mut out = front_told(alloc, names, assertion)?;
    add_fields(alloc, names, assertion, &mut out)?;
    add_comp(names, assertion.comp.as_slice(), &mut out)?;
    Ok(out)
}

fn sentence_told(alloc: Global, names: &Names, sentence: &Sentence) -> Result<String, AllocError> {
    match read_assertion(alloc, names, sentence) {
        Ok(assertion) => assertion_told(alloc, names, &assertion),
        Err(AssertFault::BadAssertion(line)) => format!(in alloc; "bad {line}"),
        Err(AssertFault::NoMemory) => Err(AllocError),
    }
}

// What is told of the one sentence of a text.
fn told(alloc: Global, text: &str) -> Result<String, NoMemory> {
    let mut names = Names::new(alloc)?;
    match read_sentences(alloc, &mut names, text.as_bytes()) {
        Ok(source) => match source.sentences.as_slice() {
            [sentence] => Ok(sentence_told(alloc, &names, sentence)?),
            _ => Ok(String::from_str(alloc, "sentences")?),
        },
        Err(_) => Ok(String::from_str(alloc, "unread")?),
    }
}

// The first text of which something else is told.
fn first_other<'a>(alloc: Global, rows: &[(&'a str, &str)]) -> Result<Option<&'a str>, NoMemory> {
    for row in rows {
        if told(alloc, row.0)?.as_str() != row.1 {
            return Ok(Some(row.0));
        }
    }
    Ok(None)
}

#[test]
fn assertions_are_read(rt: HostRuntime) -> Result<(), Fail> {
    assert_eq!(rt; first_other(rt.alloc(), &ROWS)?, None);
    Ok(())
}
