// Each call that allocates, with ample memory, and its answers: tables, with one function for each.
use sqlite_items::Items;
use std::alloc::Global;
use std::test::Fail;
use term_core::{
    Names, NoMemory, Op, OpFault, OpKind, OpTable, Term, copy, depth, discard, print_term, vars,
};

// Texts and their numbers.
const PLACES: [(&str, u64); 5] = [
    ("append", 75),
    ("is", 39),
    ("append", 75),
    ("[]", 0),
    ("mod", 53),
];

// The first text that gets another number.
fn misplaced<'a>(names: &mut Names, rows: &[(&'a str, u64)]) -> Result<Option<&'a str>, NoMemory> {
    for row in rows {
        if names.intern(row.0)? != row.1 {
            return Ok(Some(row.0));
        }
    }
    Ok(None)
}

// The place of a name in a copy, and how many names this has.
fn in_copy(names: &Names, name: &str) -> Result<(Option<u64>, u64), NoMemory> {
    let copied = names.copy()?;
    Ok((copied.find(name), copied.len()))
}

#[test]
fn names_have_their_places(rt: HostRuntime) -> Result<(), Fail> {
    let mut names = Names::new(rt.alloc())?;
    assert_eq!(rt; misplaced(&mut names, &PLACES)?, None);
    assert_eq!(rt; in_copy(&names, "append")?, (Some(75), 76));
    Ok(())
}

// +(_7,-12,*(_7,_3))
fn sum_term(alloc: Global) -> Result<Term, NoMemory> {
    let mut factors = Items::new(alloc);
    factors.push(Term::Var(7))?;
    factors.push(Term::Var(3))?;
    let mut parts = Items::new(alloc);
    parts.push(Term::Var(7))?;
    parts.push(Term::Int(-12))?;
    parts.push(Term::Node(49, factors))?;
    Ok(Term::Node(47, parts))
}

// The text of a term with the standard operators.
fn text_of(alloc: Global, term: &Term, quoted: bool) -> Result<String, NoMemory> {
    let names = Names::new(alloc)?;
    let ops = OpTable::standard(alloc)?;
    let mut text = String::new(alloc);
    print_term(&names, &ops, term, quoted, &mut text)?;
    Ok(text)
}

#[test]
fn terms_are_copied(rt: HostRuntime) -> Result<(), Fail> {
    let alloc = rt.alloc();
    let term = copy(alloc, &sum_term(alloc)?)?;
    assert_eq!(rt; depth(&term), 3);
    assert_eq!(rt; vars(alloc, &term)?.as_slice(), [7, 3].as_slice());
    assert_eq!(rt; text_of(alloc, &term, false)?.as_str(), "+(_7,-12,_7 * _3)");
    Ok(())
}

// The first number of no name.
#[test]
fn an_atom_without_a_name_has_no_text(rt: HostRuntime) -> Result<(), Fail> {
    let alloc = rt.alloc();
    assert_eq!(rt; text_of(alloc, &Term::Atom(75), false)?.as_str(), "");
    assert_eq!(rt; text_of(alloc, &Term::Atom(75), true)?.as_str(), "''");
    Ok(())
}

// f(f(f(..,[]),[]),[]), so many deep.
fn deep_term(alloc: Global, depth: u64) -> Result<Term, NoMemory> {
    let mut term = Term::Atom(0);
    for _ in 0..depth {
        let mut parts = Items::new(alloc);
        parts.push(term)?;
        parts.push(Term::Atom(0))?;
        term = Term::Node(1, parts);
    }
    Ok(term)
}

#[test]
fn deep_terms_are_discarded(rt: HostRuntime) -> Result<(), Fail> {
    discard(deep_term(rt.alloc(), 1_000_000)?);
    Ok(())
}

// The last so many terms as arguments.
fn compound(alloc: Global, name: u64, arity: u64, terms: &mut Vec<Term>) -> Result<Term, NoMemory> {
    let mut taken = Vec::new(alloc);
    for _ in 0..arity {
        if let Some(term) = terms.pop() {
            taken.push(term)?;
        }
    }
    let mut arguments = Items::new(alloc);
    for _ in 0..arity {
        if let Some(term) = taken.pop() {
            arguments.push(term)?;
        }
    }
    Ok(Term::Node(name, arguments))
}

// The term that a word stands for: `name/1` or `name/2` takes as many terms as it says.
fn word_term(
    alloc: Global,
    names: &mut Names,
    word: &str,
    terms: &mut Vec<Term>,
) -> Result<Term, NoMemory> {
    if let Some(name) = word.strip_suffix("/1") {
        return compound(alloc, names.intern(name)?, 1, terms);
    }
    if let Some(name) = word.strip_suffix("/2") {
        return compound(alloc, names.intern(name)?, 2, terms);
    }
    match word.parse::<i64>() {
        Ok(number) => Ok(Term::Int(number)),
        Err(_) => Ok(Term::Atom(names.intern(word)?)),
    }
}

// The text of a term that is given by its words, each behind its arguments.
fn printed(alloc: Global, ops: &OpTable, quoted: bool, words: &str) -> Result<String, NoMemory> {
    let mut names = Names::new(alloc)?;
    let mut terms = Vec::new(alloc);
    for word in words.split(' ') {
        let term = word_term(alloc, &mut names, word, &mut terms)?;
        terms.push(term)?;
    }
    let mut text = String::new(alloc);
    for term in terms.as_slice() {
        print_term(&names, ops, term, quoted, &mut text)?;
    }
    Ok(text)
}

// What is printed of terms in place of the texts that they should have.
fn misprinted(alloc: Global, ops: &OpTable, rows: &[(&str, &str)]) -> Result<String, NoMemory> {
    let mut wrong = String::new(alloc);
    for row in rows {
        let text = printed(alloc, ops, true, row.0)?;
        if text.as_str() != row.1 {
            wrong.push_str(text.as_str())?;
        }
    }
    Ok(wrong)
}

// Terms by their words, and their texts.
const TERMS: [(&str, &str); 41] = [
    ("1 -/1", "- 1"),
    ("-1", "-1"),
    ("1 -1 -/2", "1 - -1"),
    ("a b -/2 c -/2", "a - b - c"),
    ("a b c -/2 -/2", "a - (b - c)"),
    ("a b ^/2 c ^/2", "(a ^ b) ^ c"),
    ("a b c ^/2 ^/2", "a ^ b ^ c"),
    ("a b =/2 c =/2", "(a = b) = c"),
    ("a b c =/2 =/2", "a = (b = c)"),
    ("a b =/2 \\+/1", "\\+ a = b"),
    ("a -/1 -/1", "- - a"),
    ("a ~/1 ~/1", "~ (~ a)"),
    ("a -/1 b -/2", "- a - b"),
    ("a b -/2 -/1", "- (a - b)"),
    ("a b ->/2 c ;/2", "a -> b ; c"),
    ("a b ;/2 c ->/2", "(a ; b) -> c"),
    ("- -/1", "- (-)"),
    ("- a =/2", "(-) = a"),
    ("a , =/2", "a = (',')"),
    ("- - - ./2 f/2", "f(-,[-|-])"),
    ("a b c ,/2 :-/2 f/1", "f((a :- b,c))"),
    ("a b c ,/2 :-/2 [] ./2", "[(a :- b,c)]"),
    ("x a b c ,/2 :-/2 ./2", "[x|(a :- b,c)]"),
    ("a b :-/2 {}/1", "{a :- b}"),
    ("a :-/1", ":- a"),
    ("a pred/1", "pred(a)"),
    ("a pred/1 check/1", "check(pred(a))"),
    ("a b :=/2", "a := b"),
    ("a b :=/2 pred/1", "pred((a := b))"),
    ("a b |/2", "a | b"),
    ("a b ,/2", "a,b"),
    ("a b ,/2 c ,/2", "(a,b),c"),
    ("a b c ,/2 ,/2", "a,b,c"),
    ("a b ,/2 f/1", "f((a,b))"),
    ("a ,/1 |/1", "'|'(','(a))"),
    ("a []/1", "'[]'(a)"),
    ("a b {}/2", "'{}'(a,b)"),
    ("a ./1", "'.'(a)"),
    ("a is/1", "is(a)"),
    ("[] true ./2 [] [] ./2 ./2", "[[[]|true],[]]"),
    ("a X -/2 B_c b/2", "b(a - 'X','B_c')"),
];

fn misprinted_terms(alloc: Global, ops: &OpTable) -> Result<String, NoMemory> {
    misprinted(alloc, ops, &TERMS)
}

#[test]
fn terms_are_printed(rt: HostRuntime) -> Result<(), Fail> {
    let ops = OpTable::standard(rt.alloc())?;
    assert_eq!(rt; misprinted_terms(rt.alloc(), &ops)?.as_str(), "");
    Ok(())
}

// The text of an atom of this name.
fn printed_atom(alloc: Global, name: &str, quoted: bool) -> Result<String, NoMemory> {
    let mut names = Names::new(alloc)?;
    let ops = OpTable::standard(alloc)?;
    let atom = Term::Atom(names.intern(name)?);
    let mut text = String::new(alloc);
    print_term(&names, &ops, &atom, quoted, &mut text)?;
    Ok(text)
}

// Whether an atom of this name is printed so with quotes, and as its name without.
fn is_quoted_so(alloc: Global, name: &str, quoted: &str) -> Result<bool, NoMemory> {
    let with = printed_atom(alloc, name, true)?;
    let without = printed_atom(alloc, name, false)?;
    Ok(with.as_str() == quoted && without.as_str() == name)
}

// The first name that is printed otherwise.
fn misquoted<'a>(alloc: Global, rows: &[(&'a str, &str)]) -> Result<Option<&'a str>, NoMemory> {
    for row in rows {
        if !is_quoted_so(alloc, row.0, row.1)? {
            return Ok(Some(row.0));
        }
    }
    Ok(None)
}

// Names, and what they are with quotes.
const QUOTED: [(&str, &str); 30] = [
    ("[]", "[]"),
    ("{}", "{}"),
    ("!", "!"),
    (";", ";"),
    ("a", "a"),
    ("aB_1", "aB_1"),
    ("+++", "+++"),
    ("..", ".."),
    ("*/", "*/"),
    ("\\", "\\"),
    ("", "''"),
    (".", "'.'"),
    ("/*", "'/*'"),
    ("/*+", "'/*+'"),
    (",", "','"),
    ("|", "'|'"),
    ("!;", "'!;'"),
    ("a b", "'a b'"),
    ("a+", "'a+'"),
    ("A", "'A'"),
    ("_a", "'_a'"),
    ("1a", "'1a'"),
    ("[", "'['"),
    ("é", "'é'"),
    ("añ\n漢", "'añ\\n漢'"),
    ("\n", "'\\n'"),
    ("\t", "'\\t'"),
    ("\r", "'\\r'"),
    ("a\\b", "'a\\\\b'"),
    ("it's", "'it\\'s'"),
];

#[test]
fn names_are_quoted_where_they_need_it(rt: HostRuntime) -> Result<(), Fail> {
    assert_eq!(rt; misquoted(rt.alloc(), &QUOTED)?, None);
    Ok(())
}

// The first name that is new, and the minus.
const NEW: u64 = 75;

const MINUS: u64 = 48;

// An operator that is added, and then a term by its words with its text.
struct Added {
    priority: i64,
    kind: OpKind,
    name: u64,
    words: &'static str,
    text: &'static str,
}

const ADDED: [Added; 4] = [
    Added {
        priority: 700,
        kind: OpKind::Xfx,
        name: NEW,
        words: "1 -/1 2 Is/2",
        text: "- 1 'Is' 2",
    },
    Added {
        priority: 700,
        kind: OpKind::Xfx,
        name: NEW,
        words: "Is 2 Is/2",
        text: "('Is') 'Is' 2",
    },
    Added {
        priority: 0,
        kind: OpKind::Fy,
        name: MINUS,
        words: "- -/1 1 -/2",
        text: "-(-) - 1",
    },
    Added {
        priority: 0,
        kind: OpKind::Yfx,
        name: MINUS,
        words: "- -/1 1 -/2",
        text: "-(-(-),1)",
    },
];

// What is printed in place of these texts, each after its operator is added.
fn misprinted_after(alloc: Global, ops: &mut OpTable, rows: &[Added]) -> Result<String, NoMemory> {
    let mut wrong = String::new(alloc);
    for row in rows {
        let answer = ops.add(row.priority, row.kind, row.name);
        let text = printed(alloc, ops, true, row.words)?;
        if answer.is_err() || text.as_str() != row.text {
            wrong.push_str(text.as_str())?;
        }
    }
    Ok(wrong)
}

#[test]
fn other_operators_are_printed(rt: HostRuntime) -> Result<(), Fail> {
    let mut ops = OpTable::standard(rt.alloc())?.copy()?;
    assert_eq!(rt;
        misprinted_after(rt.alloc(), &mut ops, &ADDED)?.as_str(),
        ""
    );
    Ok(())
}

// Whether a text is this operator.
fn is_operator(names: &Names, ops: &OpTable, text: &str, op: Op) -> bool {
    match names.find(text) {
        Some(name) => ops.prefix(name) == Some(op) || ops.infix(name) == Some(op),
        None => false,
    }
}

// Whether each of the texts is this operator.
fn are_operators(names: &Names, ops: &OpTable, texts: &str, op: Op) -> bool {
    for text in texts.split(' ') {
        if !is_operator(names, ops, text, op) {
            return false;
        }
    }
    true
}

// The first texts that are not what they should be.
fn other_operators<'a>(
    names: &Names,
    ops: &OpTable,
    rows: &[(u64, OpKind, &'a str)],
) -> Option<&'a str> {
    for row in rows {
        let op = Op {
            priority: row.0,
            kind: row.1,
        };
        if !are_operators(names, ops, row.2, op) {
            return Some(row.2);
        }
    }
    None
}

// How many names are prefix operators, and how many are infix operators.
fn counts(names: &Names, ops: &OpTable) -> (u64, u64) {
    let mut prefixes = 0u64;
    let mut infixes = 0u64;
    for name in 0..names.len() {
        if ops.prefix(name).is_some() {
            prefixes = prefixes.saturating_add(1);
        }
        if ops.infix(name).is_some() {
            infixes = infixes.saturating_add(1);
        }
    }
    (prefixes, infixes)
}

// The operators from the start.
const STANDARD: [(u64, OpKind, &str); 20] = [
    (1200, OpKind::Xfx, ":- -->"),
    (1200, OpKind::Fx, ":- ?-"),
    (1150, OpKind::Xfx, ":="),
    (1150, OpKind::Fx, "pred calls success comp entry regtype"),
    (1150, OpKind::Fy, "check trust true checked false"),
    (1100, OpKind::Xfy, "; |"),
    (1050, OpKind::Xfy, "->"),
    (1050, OpKind::Xfx, "?"),
    (1000, OpKind::Xfy, ","),
    (980, OpKind::Xfx, "#"),
    (975, OpKind::Xfx, "=>"),
    (900, OpKind::Fy, "\\+"),
    (
        700,
        OpKind::Xfx,
        "= \\= == \\== @< @> @=< @>= =.. is =:= =\\= < > =< >=",
    ),
    (550, OpKind::Xfx, ":"),
    (500, OpKind::Yfx, "+ -"),
    (400, OpKind::Yfx, "* / // rem mod"),
    (200, OpKind::Xfx, "**"),
    (200, OpKind::Xfy, "^"),
    (200, OpKind::Fy, "-"),
    (50, OpKind::Fx, "~"),
];

#[test]
fn standard_operators_are_in_force(rt: HostRuntime) -> Result<(), Fail> {
    let names = Names::new(rt.alloc())?;
    let ops = OpTable::standard(rt.alloc())?;
    assert_eq!(rt; other_operators(&names, &ops, &STANDARD), None);
    assert_eq!(rt; counts(&names, &ops), (16, 36));
    Ok(())
}

// What a name is after a change.
const XFX_700: Option<Op> = Some(Op {
    priority: 700,
    kind: OpKind::Xfx,
});

const XFY_1200: Option<Op> = Some(Op {
    priority: 1200,
    kind: OpKind::Xfy,
});

const FX_1: Option<Op> = Some(Op {
    priority: 1,
    kind: OpKind::Fx,
});

const FY_200: Option<Op> = Some(Op {
    priority: 200,
    kind: OpKind::Fy,
});

const YFX_500: Option<Op> = Some(Op {
    priority: 500,
    kind: OpKind::Yfx,
});

const XFY_1000: Option<Op> = Some(Op {
    priority: 1000,
    kind: OpKind::Xfy,
});

const XFY_1100: Option<Op> = Some(Op {
    priority: 1100,
    kind: OpKind::Xfy,
});

const XFY_500: Option<Op> = Some(Op {
    priority: 500,
    kind: OpKind::Xfy,
});

const FY_500: Option<Op> = Some(Op {
    priority: 500,
    kind: OpKind::Fy,
});

// A change, whether it is refused, and what the name is then before its argument and between two.
type Change = (i64, OpKind, u64, bool, Option<Op>, Option<Op>);

const CHANGES: [Change; 23] = [
    // A priority has no xfy and no fy operator beside the yfx ones + and -, and no yfx one beside \+ and ^.
    (500, OpKind::Xfy, NEW, true, None, None),
    (500, OpKind::Fy, NEW, true, None, None),
    (900, OpKind::Yfx, NEW, true, None, None),
    (200, OpKind::Yfx, MINUS, true, FY_200, YFX_500),
    (-1, OpKind::Xfx, NEW, true, None, None),
    (1201, OpKind::Xfx, NEW, true, None, None),
    (700, OpKind::Xfx, NEW, false, None, XFX_700),
    (1200, OpKind::Xfy, NEW, false, None, XFY_1200),
    (1, OpKind::Fx, NEW, false, FX_1, XFY_1200),
    (500, OpKind::Fy, NEW, true, FX_1, XFY_1200),
    (0, OpKind::Yfx, NEW, false, FX_1, None),
    (0, OpKind::Fy, NEW, false, None, None),
    (0, OpKind::Fy, NEW, false, None, None),
    (700, OpKind::Xfx, 0, true, None, None),
    (700, OpKind::Xfx, 1, true, None, None),
    (0, OpKind::Fx, 2, true, None, None),
    (1000, OpKind::Xfy, 3, true, None, XFY_1000),
    (0, OpKind::Xfy, 4, true, None, XFY_1100),
    // Without + and - the priority 500 is free.
    (0, OpKind::Xfx, 47, false, None, None),
    (0, OpKind::Xfx, MINUS, false, FY_200, None),
    (500, OpKind::Xfy, MINUS, false, FY_200, XFY_500),
    (500, OpKind::Fy, NEW, false, FY_500, None),
    (500, OpKind::Yfx, NEW, true, FY_500, None),
];

// Whether a change goes as its row says.
fn changes_so(ops: &mut OpTable, row: &Change) -> bool {
    let answer = ops.add(row.0, row.1, row.2);
    let refused = answer == Err(OpFault::OpRefused);
    refused == row.3 && ops.prefix(row.2) == row.4 && ops.infix(row.2) == row.5
}

// The place of the first change that goes otherwise.
fn other_change(ops: &mut OpTable, rows: &[Change]) -> Option<usize> {
    for (at, row) in rows.iter().enumerate() {
        if !changes_so(ops, row) {
            return Some(at);
        }
    }
    None
}

#[test]
fn operators_change(rt: HostRuntime) -> Result<(), Fail> {
    let mut ops = OpTable::standard(rt.alloc())?;
    assert_eq!(rt; other_change(&mut ops, &CHANGES), None);
    Ok(())
}
