// What the assertions of a predicate give.
use assertion_normal::{Normal, NormalFault, Trouble, assertion_trouble, normalise};
use assertion_read::{Assertion, read_assertion};
use ciao_reader::{Sentence, read_sentences};
use prog_data::{Claim, CompProp, Cond, CondKind, Grammar, Keyword, Prop, Seen, basic_grammar};
use regtype_grammar::list_of;
use sqlite_items::Items;
use std::alloc::{AllocError, Global};
use std::test::Fail;
use term_core::{Names, NoMemory};

// Assertions of a predicate, and what is told of them. Conditions are numbered from 5 on, each with its number, its line, its kind and its conjunctions, in which `1/0` is that the argument 0 belongs to the grammar name 1. Behind the conditions stand the claims with their lines, keywords and conditions, then the entries, then the number of grammar names; or the fault. In the grammar of the basic names `color` is 4, and `two` means two types.
const ROWS: [(&str, &str); 44] = [
    // the calls condition is one of the preconditions, at the line of the first
    (
        ":- pred p(X) : int(X).\n:- pred p(X) : atm(X).",
        "5@1 calls( 1/0)( 4/0); claim 1 pred 5; claim 2 pred 5; names 10",
    ),
    (
        ":- success p(X) => int(X).\n:- calls p(X) : int(X).\n:- pred p(X).",
        "5@2 calls( 1/0)(); 6@1 success()( 1/0); claim 1 success 6; claim 2 calls 5; claim 3 pred 5; names 10",
    ),
    (":- pred p.", "5@1 calls(); claim 1 pred 5; names 10"),
    (
        ":- pred p(X) : list(X).",
        "5@1 calls( 9/0); claim 1 pred 5; names 10",
    ),
    // success
    (
        ":- success p(X) : int(X) => atm(X).",
        "5@1 success( 1/0)( 4/0); claim 1 success 5; names 10",
    ),
    (
        ":- pred q(X) => int(X).",
        "5@1 calls(); 6@1 success()( 1/0); claim 1 pred 5 6; names 10",
    ),
    (
        ":- pred p(X) : true => true + is_det.",
        "5@1 calls(); 6@1 success()(); 7@1 comp() is_det; claim 1 pred 5 6 7; names 10",
    ),
    (
        ":- success p(X) => true.",
        "5@1 success()(); claim 1 success 5; names 10",
    ),
    (
        ":- trust success p(X) => int(X).",
        "5@1 success()( 1/0); claim 1 success 5; names 10",
    ),
    // the computation
    (
        ":- comp p(X) + is_det.",
        "5@1 comp() is_det; claim 1 comp 5; names 10",
    ),
    (
        ":- comp q + not_fails.",
        "5@1 comp() not_fails; claim 1 comp 5; names 10",
    ),
    (":- comp p.", "claim 1 comp; names 10"),
    (
        ":- pred p(X) : int(X) + (not_fails, is_det, fails).",
        "5@1 calls( 1/0); 6@1 comp( 1/0) not_fails; 7@1 comp( 1/0) is_det; 8@1 comp( 1/0) fails; claim 1 pred 5 6 7 8; names 10",
    ),
    (
        ":- entry show(L) : list(L).\n:- comp show(L) : list(L) + (not_fails, is_det).",
        "5@2 comp( 9/0) not_fails; 6@2 comp( 9/0) is_det; claim 2 comp 5 6; entry( 9/0); names 10",
    ),
    // the order of the numbers
    (
        ":- comp p(X) + fails.\n:- pred p(X) : int(X) => atm(X) + is_det.\n:- calls p(X) : var(X).",
        "5@2 calls( 1/0)( var 0); 6@1 comp() fails; 7@2 success( 1/0)( 4/0); 8@2 comp( 1/0) is_det; claim 1 comp 6; claim 2 pred 5 7 8; claim 3 calls 5; names 10",
    ),
    // entries
    (":- entry p(X) : int(X).", "entry( 1/0); names 10"),
    (
        ":- entry p(X) : int(X).\n:- entry p(X).",
        "entry( 1/0); entry(); names 10",
    ),
    (":- true entry p(X) : int(X).", "names 10"),
    // types and lists
    (
        ":- entry qsort(X,Y) : list(X,int).\n:- pred qsort(X,Y) : list(X,int) => list(Y,int) # \"sorts\".",
        "5@2 calls( 10/0); 6@2 success( 10/0)( 10/1); claim 2 pred 5 6; entry( 10/0); names 11",
    ),
    (
        ":- pred part(L,X,A,B) : (list(L,int), int(X)) => (list(A,int), list(B,int)).",
        "5@1 calls( 10/0 1/1); 6@1 success( 10/0 1/1)( 10/2 10/3); claim 1 pred 5 6; names 11",
    ),
    (
        ":- entry p(X,Y) : (list(X,atm), list(Y,int)).\n:- pred p(X,Y) : list(Y,atm).",
        "5@2 calls( 10/1); claim 2 pred 5; entry( 10/0 11/1); names 12",
    ),
    (
        ":- pred p(X,Y) : list(X,atm) => (list(Y,int), list(X,atm)).",
        "5@1 calls( 10/0); 6@1 success( 10/0)( 11/1 10/0); claim 1 pred 5 6; names 12",
    ),
    (
        ":- pred p(X) : list(X,term).",
        "5@1 calls( 9/0); claim 1 pred 5; names 10",
    ),
    (
        ":- pred p(X) : list(X,list).",
        "5@1 calls( 10/0); claim 1 pred 5; names 11",
    ),
    (
        ":- pred p/2 : int * list(atm) => gnd * list(int).",
        "5@1 calls( 1/0 10/1); 6@1 success( 1/0 10/1)( 5/0 11/1); claim 1 pred 5 6; names 12",
    ),
    (
        ":- pred p(X) : color(X) => list(X,color).",
        "5@1 calls( 4/0); 6@1 success( 4/0)( 10/0); claim 1 pred 5 6; names 11",
    ),
    (
        ":- pred p(X,Y,Z) : (var(X), nonvar(Y), ground(Z)).",
        "5@1 calls( var 0 nonvar 1 ground 2); claim 1 pred 5; names 10",
    ),
    (
        ":- pred p/2 : num * list(callable).",
        "5@1 calls( 3/0 10/1); claim 1 pred 5; names 11",
    ),
    // statuses without an effect, whose names are not looked up
    (":- true pred p(X) => atm(X).", "names 10"),
    (
        ":- true pred p(X) : wrong(X) => wrong(X) + wrong.\n:- checked calls p(X) : two(X).\n:- false comp p + wrong.",
        "names 10",
    ),
    (
        ":- true pred p(X) : int(X).\n:- pred p(X) : atm(X).",
        "5@2 calls( 4/0); claim 2 pred 5; names 10",
    ),
    // names that mean nothing, or several types
    (":- pred p(X) : wrong(X).", "unknown 1"),
    (":- success p(X) => wrong(X).", "unknown 1"),
    (":- pred p(X) + true.", "unknown 1"),
    (":- pred p/1 : true.", "unknown 1"),
    (":- pred p(X) : list(X,var).", "unknown 1"),
    (":- entry p(X) : list(X,wrong).", "unknown 1"),
    (":- pred p(X) : two(X).", "ambiguous 1"),
    (":- pred p(X) : list(X,two).", "ambiguous 1"),
    (
        ":- pred p(X) : two(X).\n:- pred p(X) : wrong(X).",
        "ambiguous 1",
    ),
    (
        ":- pred p(X) : int(X).\n:- calls p(X) : wrong(X).\n:- pred p(X) : two(X).",
        "unknown 2",
    ),
    (":- pred p(X) : two(X). :- pred p(X) + wrong.", "unknown 1"),
    (":- pred p(X) : two(X) => wrong(X).", "unknown 1"),
    (":- comp p(X) : two(X) + wrong.", "unknown 1"),
];

// The same in a grammar of 511 names, and in one of 512.
const FULL: [(&str, u64, &str); 10] = [
    (
        ":- pred p(X) : list(X,int).",
        511,
        "5@1 calls( 511/0); claim 1 pred 5; names 512",
    ),
    (":- pred p(X) : (list(X,int), list(X,atm)).", 511, "names"),
    (":- pred p(X) : list(X,int).", 512, "names"),
    (":- success p(X) => list(X,int).", 512, "names"),
    (":- entry p(X) : list(X,int).", 512, "names"),
    (":- true pred p(X) : list(X,int).", 512, "names 512"),
    (
        ":- pred p(X) : list(X,list).",
        511,
        "5@1 calls( 10/0); claim 1 pred 5; names 511",
    ),
    (
        ":- pred p(X) : list(X).",
        512,
        "5@1 calls( 9/0); claim 1 pred 5; names 512",
    ),
    (
        ":- pred p(X) : list(X,int).\n:- pred p(X) : two(X).",
        512,
        "ambiguous 2",
    ),
    (
        ":- pred p(X) : list(X,int).\n:- comp p(X) + wrong.",
        512,
        "unknown 2",
    ),
];

// What is wrong with one assertion.
const TROUBLES: [(&str, &str); 9] = [
    (":- pred p(X) : int(X) => list(X,color) + is_det.", "none"),
    (":- pred p(X) : two(X).", "several"),
    (":- comp p(X) : (int(X), two(X)) + fails.", "several"),
    (":- pred p(X) : wrong(X) => two(X).", "unknown"),
    (":- pred p(X) : (two(X), wrong(X), two(X)).", "unknown"),
    (":- pred p(X) : two(X) => wrong(X).", "unknown"),
    (":- pred p(X) : two(X) + wrong.", "unknown"),
    (":- true pred p(X) : two(X) + wrong.", "none"),
    (":- entry p(X) : list(X,ground).", "unknown"),
];

fn add_props(alloc: Global, props: &[Prop], out: &mut String) -> Result<(), AllocError> {
    out.push_str("(")?;
    for prop in props {
        let text = match prop {
            Prop::Belongs(argument, name) => format!(in alloc; " {name}/{argument}")?,
            Prop::IsVar(argument) => format!(in alloc; " var {argument}")?,
            Prop::IsNonvar(argument) => format!(in alloc; " nonvar {argument}")?,
            Prop::IsGround(argument) => format!(in alloc; " ground {argument}")?,
        };
        out.push_str(text.as_str())?;
    }
    out.push_str(")")
}

fn comp_text(property: CompProp) -> &'static str {
    match property {
        CompProp::NotFails => " not_fails",
        CompProp::Fails => " fails",
        CompProp::IsDet => " is_det",
    }
}

fn add_kind(alloc: Global, kind: &CondKind, out: &mut String) -> Result<(), AllocError> {
    match kind {
        CondKind::Calls(disjuncts) => {
            out.push_str(" calls")?;
            for props in disjuncts.as_slice() {
                add_props(alloc, props.as_slice(), out)?;
            }
            Ok(())
        }
        CondKind::Success(pre, post) => {
            out.push_str(" success")?;
            add_props(alloc, pre.as_slice(), out)?;
            add_props(alloc, post.as_slice(), out)
        }
        CondKind::Comp(pre, property) => {
            out.push_str(" comp")?;
            add_props(alloc, pre.as_slice(), out)?;
            out.push_str(comp_text(*property))
        }
    }
}

fn add_cond(alloc: Global, cond: &Cond, out: &mut String) -> Result<(), AllocError> {
    out.push_str(format!(in alloc; "{}@{}", cond.id, cond.place.line)?.as_str())?;
    add_kind(alloc, &cond.kind, out)?;
    out.push_str("; ")
}

fn keyword_text(keyword: Keyword) -> &'static str {
    match keyword {
        Keyword::Pred => "pred",
        Keyword::Calls => "calls",
        Keyword::Success => "success",
        Keyword::Comp => "comp",
    }
}

fn add_claim(alloc: Global, claim: &Claim, out: &mut String) -> Result<(), AllocError> {
    let keyword = keyword_text(claim.keyword);
    out.push_str(format!(in alloc; "claim {} {keyword}", claim.place.line)?.as_str())?;
    for number in claim.conds.as_slice() {
        out.push_str(format!(in alloc; " {number}")?.as_str())?;
    }
    out.push_str("; ")
}

fn normal_told(alloc: Global, normal: &Normal, names: usize) -> Result<String, AllocError> {
    let mut out = String::new(alloc);
    for cond in normal.conds.as_slice() {
        add_cond(alloc, cond, &mut out)?;
    }
    for claim in normal.claims.as_slice() {
        add_claim(alloc, claim, &mut out)?;
    }
    for entry in normal.entries.as_slice() {
        out.push_str("entry")?;
        add_props(alloc, entry.pre.as_slice(), &mut out)?;
        out.push_str("; ")?;
    }
    out.push_str(format!(in alloc; "names {names}")?.as_str())?;
    Ok(out)
}

fn fault_told(alloc: Global, fault: &NormalFault) -> Result<String, AllocError> {
    match fault {
        NormalFault::UnknownProperty(line) => format!(in alloc; "unknown {line}"),
        NormalFault::Ambiguous(line) => format!(in alloc; "ambiguous {line}"),
        NormalFault::TooManyNames => String::from_str(alloc, "names"),
        NormalFault::NoMemory => Err(AllocError),
    }
}

fn assertions_in(
    alloc: Global,
    names: &Names,
    sentences: &[Sentence],
) -> Result<Items<Assertion>, NoMemory> {
    let mut assertions = Items::new(alloc);
    for sentence in sentences {
        match read_assertion(alloc, names, sentence) {
            Ok(assertion) => assertions.push(assertion)?,
            Err(_) => {}
        }
    }
    Ok(assertions)
}

// The types that are seen: one `color`, and two of the name `two`.
fn types_seen(alloc: Global, names: &mut Names) -> Result<Items<Seen>, NoMemory> {
    let color = names.intern("color")?;
    let two = names.intern("two")?;
    let types = [
        Seen {
            name: color,
            kind: 4,
        },
        Seen { name: two, kind: 1 },
        Seen { name: two, kind: 2 },
    ];
    Ok(Items::from_slice(alloc, &types)?)
}

// A grammar of so many names: behind the basic ones each is the lists of the one before it.
fn grammar_of_size(alloc: Global, size: u64) -> Result<Grammar, NoMemory> {
    let mut grammar = basic_grammar(alloc)?;
    let mut last = 9;
    for _ in 10..size {
        match list_of(alloc, &mut grammar, last) {
            Ok(name) => last = name,
            Err(_) => return Err(NoMemory),
        }
    }
    Ok(grammar)
}

// What is told of the assertions of a text, in a grammar of so many names.
fn told(alloc: Global, text: &str, size: u64) -> Result<String, NoMemory> {
    let mut names = Names::new(alloc)?;
    let visible = types_seen(alloc, &mut names)?;
    let mut grammar = grammar_of_size(alloc, size)?;
    match read_sentences(alloc, &mut names, text.as_bytes()) {
        Ok(source) => {
            let list = assertions_in(alloc, &names, source.sentences.as_slice())?;
            match normalise(
                alloc,
                &names,
                0,
                visible.as_slice(),
                &mut grammar,
                7,
                5,
                list.as_slice(),
            ) {
                Ok(normal) => Ok(normal_told(alloc, &normal, grammar.rules.len())?),
                Err(fault) => Ok(fault_told(alloc, &fault)?),
            }
        }
        Err(_) => Ok(String::from_str(alloc, "unread")?),
    }
}

fn trouble_text(trouble: Option<Trouble>) -> &'static str {
    match trouble {
        None => "none",
        Some(Trouble::Unknown) => "unknown",
        Some(Trouble::Several) => "several",
    }
}

// What is wrong with the one assertion of a text.
fn trouble_told(alloc: Global, text: &str) -> Result<&'static str, NoMemory> {
    let mut names = Names::new(alloc)?;
    let visible = types_seen(alloc, &mut names)?;
    match read_sentences(alloc, &mut names, text.as_bytes()) {
        Ok(source) => {
            let list = assertions_in(alloc, &names, source.sentences.as_slice())?;
            match list.as_slice() {
                [one] => Ok(trouble_text(assertion_trouble(&names, visible.as_slice(), one))),
                _ => Ok("sentences"),
            }
        }
        Err(_) => Ok("unread"),
    }
}

// The first text of which something else is told.
fn first_other<'a>(alloc: Global, rows: &[(&'a str, &str)]) -> Result<Option<&'a str>, NoMemory> {
    for row in rows {
        if told(alloc, row.0, 10)?.as_str() != row.1 {
            return Ok(Some(row.0));
        }
    }
    Ok(None)
}

fn first_other_in<'a>(
    alloc: Global,
    rows: &[(&'a str, u64, &str)],
) -> Result<Option<&'a str>, NoMemory> {
    for row in rows {
        if told(alloc, row.0, row.1)?.as_str() != row.2 {
            return Ok(Some(row.0));
        }
    }
    Ok(None)
}

fn first_other_trouble<'a>(
    alloc: Global,
    rows: &[(&'a str, &str)],
) -> Result<Option<&'a str>, NoMemory> {
    for row in rows {
        if trouble_told(alloc, row.0)? != row.1 {
            return Ok(Some(row.0));
        }
    }
    Ok(None)
}

#[test]
fn assertions_give_conditions(rt: HostRuntime) -> Result<(), Fail> {
    assert_eq!(rt; first_other(rt.alloc(), &ROWS)?, None);
    Ok(())
}

#[test]
fn no_more_than_512_names(rt: HostRuntime) -> Result<(), Fail> {
    assert_eq!(rt; first_other_in(rt.alloc(), &FULL)?, None);
    Ok(())
}

#[test]
fn troubles_are_found(rt: HostRuntime) -> Result<(), Fail> {
    assert_eq!(rt; first_other_trouble(rt.alloc(), &TROUBLES)?, None);
    Ok(())
}
