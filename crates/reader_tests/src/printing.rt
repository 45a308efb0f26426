// Terms as they are printed, and read again.
use ciao_reader::{ReadFault, read_goal};
use sqlite_items::Items;
use std::alloc::Global;
use std::test::Fail;
use term_core::{Names, NoMemory, OpFault, OpKind, OpTable, Term, print_term};

// What is printed of the term that a text is, or nothing where the text is none.
fn printed(
    alloc: Global,
    names: &mut Names,
    ops: &OpTable,
    text: &str,
    quoted: bool,
) -> Result<String, NoMemory> {
    let mut out = String::new(alloc);
    match read_goal(alloc, names, ops, text) {
        Ok(goal) => print_term(names, ops, &goal.term, quoted, &mut out)?,
        Err(ReadFault::NoMemory) => return Err(NoMemory),
        Err(_) => {}
    }
    Ok(out)
}

// Texts, and what is printed of the terms that they are, with quotes and the standard operators.
const ROWS: [(&str, &str); 198] = [
    // each operator
    ("a:-b", "a :- b"),
    ("a-->b", "a --> b"),
    (":-a", ":- a"),
    ("?-a", "?- a"),
    ("a:=b", "a := b"),
    ("pred a", "pred(a)"),
    ("calls a", "calls(a)"),
    ("success a", "success(a)"),
    ("comp a", "comp(a)"),
    ("entry a", "entry(a)"),
    ("regtype a", "regtype(a)"),
    ("check a", "check(a)"),
    ("trust pred a", "trust(pred(a))"),
    ("true a", "true(a)"),
    ("checked a", "checked(a)"),
    ("false a", "false(a)"),
    ("a;b", "a ; b"),
    ("a|b", "a | b"),
    ("a->b", "a -> b"),
    ("a?b", "a ? b"),
    ("a , b", "a,b"),
    ("a#b", "a # b"),
    ("a=>b", "a => b"),
    ("\\+a", "\\+ a"),
    ("a=b", "a = b"),
    ("a\\=b", "a \\= b"),
    ("a==b", "a == b"),
    ("a\\==b", "a \\== b"),
    ("a@<b", "a @< b"),
    ("a@>b", "a @> b"),
    ("a@=<b", "a @=< b"),
    ("a@>=b", "a @>= b"),
    ("a=..b", "a =.. b"),
    ("a is b", "a is b"),
    ("a=:=b", "a =:= b"),
    ("a=\\=b", "a =\\= b"),
    ("a<b", "a < b"),
    ("a>b", "a > b"),
    ("a=<b", "a =< b"),
    ("a>=b", "a >= b"),
    ("a:b", "a : b"),
    ("a+b", "a + b"),
    ("a-b", "a - b"),
    ("a*b", "a * b"),
    ("a/b", "a / b"),
    ("a//b", "a // b"),
    ("a rem b", "a rem b"),
    ("a mod b", "a mod b"),
    ("a**b", "a ** b"),
    ("a^b", "a ^ b"),
    ("-a", "- a"),
    ("~a", "~ a"),
    // numbers and signs
    ("-1", "-1"),
    ("- 1", "- 1"),
    ("-(1)", "- 1"),
    ("-(-(1))", "- - 1"),
    ("- -1", "- -1"),
    ("1 - -1", "1 - -1"),
    ("1 - (- 1)", "1 - - 1"),
    ("-1 + -2", "-1 + -2"),
    ("-9223372036854775808", "-9223372036854775808"),
    ("2 ** -1", "2 ** -1"),
    ("- 1 ^ 2", "- 1 ^ 2"),
    ("(- 1) ^ 2", "(- 1) ^ 2"),
    ("-1 ^ 2", "-1 ^ 2"),
    ("a:- -1", "a :- -1"),
    (":- -1", ":- -1"),
    ("\\+ -1", "\\+ -1"),
    ("~ -1", "~ -1"),
    ("~ 1", "~ 1"),
    ("-1 is -2", "-1 is -2"),
    ("-1 : -2", "-1 : -2"),
    ("-1, -2", "-1,-2"),
    ("pred -1", "pred(-1)"),
    ("f(-1,- 1,-a)", "f(-1,- 1,- a)"),
    ("[-1|- 2]", "[-1|- 2]"),
    ("{-1}", "{-1}"),
    // nested on both sides
    ("a-b-c", "a - b - c"),
    ("a-(b-c)", "a - (b - c)"),
    ("a^b^c", "a ^ b ^ c"),
    ("(a^b)^c", "(a ^ b) ^ c"),
    ("a**(b**c)", "a ** (b ** c)"),
    ("(a**b)**c", "(a ** b) ** c"),
    ("(a=b)=(c=d)", "(a = b) = (c = d)"),
    ("a+b*c", "a + b * c"),
    ("(a+b)*c", "(a + b) * c"),
    ("a,b,c", "a,b,c"),
    ("(a,b),c", "(a,b),c"),
    ("a:-b,c;d->e", "a :- b,c ; d -> e"),
    ("(a:-b):-c", "(a :- b) :- c"),
    ("(a|b)|c", "(a | b) | c"),
    ("(a->b)->c", "(a -> b) -> c"),
    ("a->b->c", "a -> b -> c"),
    ("a:(b:c)", "a : (b : c)"),
    ("(a:b):c", "(a : b) : c"),
    ("a*(b/c)", "a * (b / c)"),
    ("a rem b mod c", "a rem b mod c"),
    ("a//(b//c)", "a // (b // c)"),
    ("(a;b);c", "(a ; b) ; c"),
    ("a;(b|c)", "a ; b | c"),
    ("(a;b)|c", "(a ; b) | c"),
    ("a^(b**c)", "a ^ b ** c"),
    ("(a**b)^c", "(a ** b) ^ c"),
    ("a**(b^c)", "a ** (b ^ c)"),
    ("(a:=b):=c", "(a := b) := c"),
    ("(a?b)?c", "(a ? b) ? c"),
    ("(a#b)#(c=>d)", "(a # b) # c => d"),
    ("(a=>b)=>c", "(a => b) => c"),
    ("(a is b)is c", "(a is b) is c"),
    ("(a-->b)-->c", "(a --> b) --> c"),
    // under prefix operators
    ("\\+ \\+ a", "\\+ \\+ a"),
    ("\\+ a=b", "\\+ a = b"),
    ("\\+ (a,b)", "\\+ (a,b)"),
    ("-(a*b)", "- (a * b)"),
    ("~(~a)", "~ (~ a)"),
    ("-[]", "- []"),
    ("-{a}", "- {a}"),
    ("-f(a)", "- f(a)"),
    (":- (?- a)", ":- (?- a)"),
    ("pred (a,b)", "pred((a,b))"),
    ("a^ -b", "a ^ - b"),
    ("a**(-b)", "a ** (- b)"),
    ("-a+b", "- a + b"),
    ("(\\+a)=b", "(\\+ a) = b"),
    ("a=(\\+b)", "a = (\\+ b)"),
    ("\\+ -a", "\\+ - a"),
    ("-(\\+a)", "- (\\+ a)"),
    ("~(-a)", "~ (- a)"),
    ("-(~a)", "- ~ a"),
    ("\\+ (:-a)", "\\+ (:- a)"),
    ("(pred a)=b", "pred(a) = b"),
    ("- (true a)", "- true(a)"),
    // in arguments, items and tails
    ("f(a=b,c-d)", "f(a = b,c - d)"),
    ("f((a:-b),(c,d))", "f((a :- b),(c,d))"),
    ("[a=b,(c,d)]", "[a = b,(c,d)]"),
    ("[a|b-c]", "[a|b - c]"),
    ("[a|(b:-c)]", "[a|(b :- c)]"),
    ("[a|(b|c)]", "[a|(b | c)]"),
    ("[a,b|[c|[]]]", "[a,b,c]"),
    ("[[a],[]|b]", "[[a],[]|b]"),
    ("{a:-b}", "{a :- b}"),
    ("{a,b}", "{a,b}"),
    ("\"ab\"", "[97,98]"),
    ("f(a#b,a=>b)", "f(a # b,a => b)"),
    ("f(\\+a,(:-a))", "f(\\+ a,(:- a))"),
    (
        "f((a->b),(a?b),(a:=b),(a-->b),(a;b),(a|b))",
        "f((a -> b),(a ? b),(a := b),(a --> b),(a ; b),(a | b))",
    ),
    ("[a|(b,c)]", "[a|(b,c)]"),
    ("[a|X]", "[a|_0]"),
    ("[a|\\+b]", "[a|\\+ b]"),
    ("[a|{b}]", "[a|{b}]"),
    // names of operators with other numbers of arguments
    ("=(a)", "=(a)"),
    ("\\+(a,b)", "\\+(a,b)"),
    ("-(a,b,c)", "-(a,b,c)"),
    ("','(a,b,c)", "','(a,b,c)"),
    ("'|'(a)", "'|'(a)"),
    ("'.'(a,b,c)", "'.'(a,b,c)"),
    ("','(a,b)", "a,b"),
    ("'|'(a,b)", "a | b"),
    ("'.'(a,b)", "[a|b]"),
    ("'.'(a,[])", "[a]"),
    ("'{}'(a)", "{a}"),
    // atoms that are operators
    ("(-)-(-)", "(-) - (-)"),
    ("-(-)", "- (-)"),
    ("- = x", "(-) = x"),
    ("f(-,true,[-|-],{-})", "f(-,true,[-|-],{-})"),
    ("(true),(mod)", "(true),(mod)"),
    ("-", "-"),
    ("(dynamic)", "dynamic"),
    ("','=a", "(',') = a"),
    ("a-'|'", "a - ('|')"),
    (";=a", "(;) = a"),
    ("! =a", "! = a"),
    ("[]-{}", "[] - {}"),
    ("true,false", "(true),(false)"),
    ("(:-):-(:-)", "(:-) :- (:-)"),
    ("pred(-)", "pred(-)"),
    // names with quotes and without
    ("f('[]','{}','.','/*')", "f([],{},'.','/*')"),
    ("f('a b','','A','_','1')", "f('a b','','A','_','1')"),
    (
        "f('\\n','\\t','\\r','''','\"')",
        "f('\\n','\\t','\\r','\\'','\"')",
    ),
    ("f('\\\\','a\\\\b')", "f(\\,'a\\\\b')"),
    ("f(;,!,',','|',...,é1)", ""),
    ("f(;,!,',','|',...,'é1')", "f(;,!,',','|',...,'é1')"),
    ("'a b'('\\x41\\')", "'a b'('A')"),
    ("'[]'(a)", "'[]'(a)"),
    ("'{}'(a,b)", "'{}'(a,b)"),
    ("'.'(a)", "'.'(a)"),
    ("','(a)", "','(a)"),
    ("'aé'", "'aé'"),
    ("'/*a'", "'/*a'"),
    ("'!!'", "'!!'"),
    ("'a\\tb'", "'a\\tb'"),
    ("'./*'", "./*"),
    ("'//*'", "//*"),
    ("'*/'", "*/"),
    ("'..'", ".."),
    ("'\\n'(a)", "'\\n'(a)"),
    ("-'A'", "- 'A'"),
    ("f(X,Y,X,_)", "f(_0,_1,_0,_2)"),
];

// The first text that is printed otherwise.
fn first_other<'a>(
    alloc: Global,
    names: &mut Names,
    ops: &OpTable,
    quoted: bool,
    rows: &[(&'a str, &str)],
) -> Result<Option<&'a str>, NoMemory> {
    for row in rows {
        if printed(alloc, names, ops, row.0, quoted)?.as_str() != row.1 {
            return Ok(Some(row.0));
        }
    }
    Ok(None)
}

// The first text that is printed otherwise with the standard operators.
fn first_other_by_standard<'a>(
    alloc: Global,
    quoted: bool,
    rows: &[(&'a str, &str)],
) -> Result<Option<&'a str>, NoMemory> {
    let mut names = Names::new(alloc)?;
    let ops = OpTable::standard(alloc)?;
    first_other(alloc, &mut names, &ops, quoted, rows)
}

#[test]
fn terms_and_their_texts(rt: HostRuntime) -> Result<(), Fail> {
    assert_eq!(rt; first_other_by_standard(rt.alloc(), true, &ROWS)?, None);
    Ok(())
}

const WITHOUT_QUOTES: [(&str, &str); 3] = [
    ("f('a b','\\n','''')", "f(a b,\n,')"),
    ("'A' - '[]'('')", "A - []()"),
    ("','=a", "(,) = a"),
];

#[test]
fn texts_without_quotes(rt: HostRuntime) -> Result<(), Fail> {
    assert_eq!(rt;
        first_other_by_standard(rt.alloc(), false, &WITHOUT_QUOTES)?,
        None
    );
    Ok(())
}

const CHANGES: [(i64, OpKind, &str); 8] = [
    (700, OpKind::Xfx, "==="),
    (700, OpKind::Xfy, "="),
    (300, OpKind::Fx, "-"),
    (1150, OpKind::Fy, "kw"),
    (200, OpKind::Fy, "pred"),
    (600, OpKind::Xfx, "a b"),
    (0, OpKind::Yfx, "-"),
    (0, OpKind::Xfx, "is"),
];

// The standard table with some changes, of which none is refused.
fn changed_table(
    alloc: Global,
    names: &mut Names,
    changes: &[(i64, OpKind, &str)],
) -> Result<OpTable, NoMemory> {
    let mut ops = OpTable::standard(alloc)?;
    for change in changes {
        let name = names.intern(change.2)?;
        if ops.add(change.0, change.1, name) == Err(OpFault::NoMemory) {
            return Err(NoMemory);
        }
    }
    Ok(ops)
}

// Texts, and what is printed with the standard operators and with the changed ones; nothing where a text is no term.
const BOTH: [(&str, &str, &str); 14] = [
    ("a === b", "", "a === b"),
    ("===(a,b)", "===(a,b)", "a === b"),
    ("a - b", "a - b", ""),
    ("-(a,b)", "a - b", "-(a,b)"),
    ("- a", "- a", "- a"),
    ("f((===))", "f(===)", "f(===)"),
    ("=(===,a)", "=== = a", "(===) = a"),
    ("=(a,=(b,c))", "a = (b = c)", "a = b = c"),
    ("-(-(a))", "- - a", "- (- a)"),
    ("kw(a)", "kw(a)", "kw(a)"),
    ("=(kw,a)", "kw = a", "(kw) = a"),
    ("pred(pred(a))", "pred(pred(a))", "pred pred a"),
    ("'a b'(x,y)", "'a b'(x,y)", "x 'a b' y"),
    ("is(a,b)", "a is b", "is(a,b)"),
];

// Whether a row's text is printed so with both.
fn is_printed_so(
    alloc: Global,
    names: &mut Names,
    standard: &OpTable,
    other: &OpTable,
    row: &(&str, &str, &str),
) -> Result<bool, NoMemory> {
    if printed(alloc, names, standard, row.0, true)?.as_str() != row.1 {
        return Ok(false);
    }
    Ok(printed(alloc, names, other, row.0, true)?.as_str() == row.2)
}

// The first text that is printed otherwise with one of them.
fn first_other_by_both<'a>(
    alloc: Global,
    rows: &[(&'a str, &str, &str)],
) -> Result<Option<&'a str>, NoMemory> {
    let mut names = Names::new(alloc)?;
    let standard = OpTable::standard(alloc)?;
    let other = changed_table(alloc, &mut names, &CHANGES)?;
    for row in rows {
        if !is_printed_so(alloc, &mut names, &standard, &other, row)? {
            return Ok(Some(row.0));
        }
    }
    Ok(None)
}

#[test]
fn another_table_prints_and_reads_otherwise(rt: HostRuntime) -> Result<(), Fail> {
    assert_eq!(rt; first_other_by_both(rt.alloc(), &BOTH)?, None);
    Ok(())
}

// Texts of names of all sorts.
const TEXTS: [&str; 38] = [
    "a", "b1", "[]", ".", "{}", ",", "|", "!", ";", "/*", "...", "a b", "", "\n", "\\", "'", "é",
    "A", "_", "0", "+", "-", "\\+", "*", "=", ":-", "->", "?-", "mod", "is", "pred", "check", "~",
    "^", "**", "#", "===", "kw",
];

// A small generator of terms, whose variables are numbered by first appearance.
#[derive(Drop)]
struct Draws {
    state: u64,
    variables: u64,
}

impl Draws {
    // A number below the bound.
    fn below(&mut self, bound: u64) -> u64 {
        self.state = self
            .state
            .wrapping_mul(6364136223846793005)
            .wrapping_add(1442695040888963407);
        (self.state >> 33).checked_rem(bound).unwrap_or(0)
    }

    fn name(&mut self, names: &[u64]) -> u64 {
        let at = self.below(names.len() as u64);
        match names.get(at as usize) {
            Some(name) => *name,
            None => 0,
        }
    }

    fn variable(&mut self) -> u64 {
        let number = self.below(self.variables.saturating_add(1));
        if number == self.variables {
            self.variables = self.variables.saturating_add(1);
        }
        number
    }

    fn integer(&mut self) -> i64 {
        match self.below(6) {
            0 => i64::MIN,
            1 => -1,
            2 => 0,
            3 => 1,
            4 => 120,
            _ => i64::MAX,
        }
    }

    fn leaf(&mut self, names: &[u64]) -> Term {
        match self.below(4) {
            0 => Term::Var(self.variable()),
            1 => Term::Int(self.integer()),
            _ => Term::Atom(self.name(names)),
        }
    }

    fn term(&mut self, alloc: Global, names: &[u64], depth: u64) -> Result<Term, NoMemory> {
        if depth == 0 {
            return Ok(self.leaf(names));
        }
        if self.below(4) == 0 {
            return Ok(self.leaf(names));
        }
        let below = depth - 1;
        // Lists, and what stands in curly brackets, are drawn on purpose.
        let (name, count) = match self.below(6) {
            0 => (1, 2),
            1 => (2, 1),
            _ => (self.name(names), self.below(3).saturating_add(1)),
        };
        let mut parts = Items::new(alloc);
        for _ in 0..count {
            parts.push(self.term(alloc, names, below)?)?;
        }
        Ok(Term::Node(name, parts))
    }
}

fn is_same(one: &Term, other: &Term) -> bool {
    match (one, other) {
        (Term::Var(v), Term::Var(w)) => v == w,
        (Term::Int(n), Term::Int(m)) => n == m,
        (Term::Atom(a), Term::Atom(b)) => a == b,
        (Term::Node(f, parts), Term::Node(g, others)) => {
            if f != g || parts.len() != others.len() {
                return false;
            }
            for (at, part) in parts.as_slice().iter().enumerate() {
                match others.get(at) {
                    Some(other) => {
                        if !is_same(part, other) {
                            return false;
                        }
                    }
                    None => return false,
                }
            }
            true
        }
        _ => false,
    }
}

// Whether a term that is printed with quotes is read again as the same.
fn is_read_again(
    alloc: Global,
    names: &mut Names,
    ops: &OpTable,
    term: &Term,
) -> Result<bool, NoMemory> {
    let mut text = String::new(alloc);
    print_term(names, ops, term, true, &mut text)?;
    match read_goal(alloc, names, ops, text.as_str()) {
        Ok(goal) => Ok(is_same(&goal.term, term)),
        Err(ReadFault::NoMemory) => Err(NoMemory),
        Err(_) => Ok(false),
    }
}

// The numbers of texts.
fn numbers_of(alloc: Global, names: &mut Names, texts: &[&str]) -> Result<Items<u64>, NoMemory> {
    let mut numbers = Items::new(alloc);
    for text in texts {
        numbers.push(names.intern(text)?)?;
    }
    Ok(numbers)
}

// The first of so many terms that is not read again with these operators.
fn first_not_read_again(
    alloc: Global,
    names: &mut Names,
    ops: &OpTable,
    texts: &[&str],
    count: u64,
) -> Result<Option<u64>, NoMemory> {
    let numbers = numbers_of(alloc, names, texts)?;
    let mut draws = Draws {
        state: 1,
        variables: 0,
    };
    for at in 0..count {
        draws.variables = 0;
        let term = draws.term(alloc, numbers.as_slice(), 4)?;
        if !is_read_again(alloc, names, ops, &term)? {
            return Ok(Some(at));
        }
    }
    Ok(None)
}

#[test]
fn terms_are_read_again(rt: HostRuntime) -> Result<(), Fail> {
    let alloc = rt.alloc();
    let mut names = Names::new(alloc)?;
    let ops = OpTable::standard(alloc)?;
    assert_eq!(rt;
        first_not_read_again(alloc, &mut names, &ops, &TEXTS, 2000)?,
        None
    );
    Ok(())
}

#[test]
fn terms_are_read_again_with_another_table(rt: HostRuntime) -> Result<(), Fail> {
    let alloc = rt.alloc();
    let mut names = Names::new(alloc)?;
    let ops = changed_table(alloc, &mut names, &CHANGES)?;
    assert_eq!(rt;
        first_not_read_again(alloc, &mut names, &ops, &TEXTS, 2000)?,
        None
    );
    Ok(())
}
