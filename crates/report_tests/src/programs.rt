// Small programs: a module with p/1, whose names are its file, the module, `p` and others.
use prog_data::{
    Claim, Clause, CompProp, Cond, CondKind, Goal, INT_TYPE, Keyword, Place, Pred, Program, Prop,
    Text, basic_grammar,
};
use sqlite_items::Items;
use std::alloc::Global;
use term_core::{GROUND, Names, NoMemory, OpTable, Term, one};

// The names of a program stand behind those of the language.
pub(crate) const FILE: u64 = GROUND + 1;

pub(crate) const MODULE: u64 = GROUND + 2;

pub(crate) const NAME: u64 = GROUND + 3;

pub(crate) const FOURTH: u64 = GROUND + 4;

pub(crate) fn place(line: u64) -> Place {
    Place { file: FILE, line }
}

pub(crate) fn names(alloc: Global, texts: &[&str]) -> Result<Names, NoMemory> {
    let mut names = Names::new(alloc)?;
    for text in texts {
        names.intern(text)?;
    }
    Ok(names)
}

// A clause of p/1.
pub(crate) fn clause(
    alloc: Global,
    argument: Term,
    body: Goal,
    line: u64,
) -> Result<Clause, NoMemory> {
    Ok(Clause {
        head: one(alloc, argument)?,
        body,
        vars: 2,
        place: place(line),
    })
}

fn condition(id: u64, kind: CondKind) -> Cond {
    Cond {
        id,
        pred: 0,
        place: place(2),
        kind,
    }
}

// The conditions of `:- pred p(X) => int(X) + is_det.` in line 2.
pub(crate) fn conditions(alloc: Global) -> Result<Items<Cond>, NoMemory> {
    let disjuncts = one(alloc, Items::new(alloc))?;
    let post = one(alloc, Prop::Belongs(0, INT_TYPE))?;
    let mut conds = one(alloc, condition(0, CondKind::Calls(disjuncts)))?;
    conds.push(condition(1, CondKind::Success(Items::new(alloc), post)))?;
    conds.push(condition(2, CondKind::Comp(Items::new(alloc), CompProp::IsDet)))?;
    Ok(conds)
}

// The assertion of these conditions.
pub(crate) fn claim(alloc: Global, keyword: Keyword, conds: &[u64]) -> Result<Claim, NoMemory> {
    Ok(Claim {
        place: place(2),
        keyword,
        pred: 0,
        conds: Items::from_slice(alloc, conds)?,
    })
}

// A predicate with these names, without conditions.
pub(crate) fn pred(
    alloc: Global,
    module_name: u64,
    name: u64,
    arity: u64,
    clauses: Items<Clause>,
) -> Pred {
    Pred {
        module: module_name,
        name,
        arity,
        clauses,
        conds: Items::new(alloc),
        call_checks: Items::new(alloc),
    }
}

// A program with these predicates, of which the first has the three conditions.
pub(crate) fn program(
    alloc: Global,
    texts: &[&str],
    preds: Items<Pred>,
    claims: Items<Claim>,
) -> Result<Program, NoMemory> {
    Ok(Program {
        names: names(alloc, texts)?,
        ops: OpTable::standard(alloc)?,
        files: Items::new(alloc),
        preds,
        conds: conditions(alloc)?,
        claims,
        grammar: basic_grammar(alloc)?,
        exports: Items::new(alloc),
        entries: Items::new(alloc),
    })
}

// p/1 with the three conditions and these clauses.
pub(crate) fn checked_pred(alloc: Global, clauses: Items<Clause>) -> Result<Pred, NoMemory> {
    let mut made = pred(alloc, MODULE, NAME, 1, clauses);
    made.conds = Items::from_slice(alloc, &[0, 1, 2])?;
    Ok(made)
}

// `:- pred p(X) => int(X) + is_det.` in line 2 and, where they are wanted, `p(a).` and `p(1).` behind it.
pub(crate) fn facts(alloc: Global, atom: bool, number: bool) -> Result<Program, NoMemory> {
    let mut clauses = Items::new(alloc);
    if atom {
        clauses.push(clause(alloc, Term::Atom(FOURTH), Goal::True, 3)?)?;
    }
    if number {
        clauses.push(clause(alloc, Term::Int(1), Goal::True, 4)?)?;
    }
    let preds = one(alloc, checked_pred(alloc, clauses)?)?;
    let claims = one(alloc, claim(alloc, Keyword::Pred, &[0, 1, 2])?)?;
    program(alloc, &["x.pl", "x", "p", "a"], preds, claims)
}

// The lines as one text.
pub(crate) fn whole(alloc: Global, lines: &[Text]) -> Result<String, NoMemory> {
    let mut text = String::new(alloc);
    for line in lines {
        text.push_str(line.as_str())?;
    }
    Ok(text)
}
