// Calls in terms.
ghost use Rattle.std.specs.Prelude.{◌≡◌, ◌∷◌, ◌++◌, map, []};
ghost use Rattle.term_core.specs.declared.terms.Term.{out-Term};
ghost use Rattle.dcg_expand.specs.Making.{Makes};
ghost use Rattle.dcg_expand.specs.Expansion.{compound};
ghost use Rattle.fsyntax_expand.specs.Flattening.{Flattens, flat, compound_flat, rebuilt, in_order, call_result, with_one_more};

use dcg_expand::{ExpandFault, copied_all, new_variable};
use sqlite_items::Items;
use std::alloc::Global;
use term_core::{TILDE, Term};

// A name with these arguments and one more, where they are not too many.
fn arguments_and_last(
    alloc: Global,
    name: u64,
    arguments: &[Term],
    last: Term,
    next: u64,
) -> Result<Term, ExpandFault>
    ensures { Makes result next (compound name (arguments.now ++ last ∷ []) next) }
{
    if 254 < arguments.len() {
        return Err(ExpandFault::BadExpansion);
    }
    let mut all = copied_all(alloc, arguments)?;
    all.push(last)?;
    Ok(Term::Node(name, all))
}

/// A term with one more argument.
pub(crate) fn with_one_more(
    alloc: Global,
    term: &Term,
    last: Term,
    next: u64,
) -> Result<Term, ExpandFault>
    ensures { Makes result next (with_one_more (out-Term term.now) last next) }
{
    match term {
        Term::Var(_) | Term::Int(_) => Err(ExpandFault::BadExpansion),
        Term::Atom(name) => arguments_and_last(alloc, *name, &[], last, next),
        Term::Node(name, arguments) => {
            arguments_and_last(alloc, *name, arguments.as_slice(), last, next)
        }
    }
}

// The variable that is the result of a call, whose goal comes behind the others.
fn call_result(
    alloc: Global,
    call: &Term,
    goals: &mut Items<Term>,
    next: &mut u64,
) -> Result<Term, ExpandFault>
    ensures { Flattens result goals.new next.new (call_result (call.now, goals.old) next.old) }
{
    let result = new_variable(next)?;
    let goal = with_one_more(alloc, call, Term::Var(result), *next)?;
    goals.push(goal)?;
    Ok(Term::Var(result))
}

#[cycle(flattening)]
fn flatten_all(
    alloc: Global,
    terms: &[Term],
    goals: &mut Items<Term>,
    next: &mut u64,
) -> Result<Items<Term>, ExpandFault>
    ensures { Flattens result goals.new next.new (in_order [] (map flat terms.now) goals.old next.old) }
{
    let mut done = Items::new(alloc);
    for term in terms {
        let flat = flatten(alloc, term, goals, next)?;
        done.push(flat)?;
    }
    Ok(done)
}

#[cycle(flattening)]
fn rebuild(
    alloc: Global,
    name: u64,
    parts: &[Term],
    goals: &mut Items<Term>,
    next: &mut u64,
) -> Result<Term, ExpandFault>
    ensures { Flattens result goals.new next.new (rebuilt name (map flat parts.now) goals.old next.old) }
{
    let all = flatten_all(alloc, parts, goals, next)?;
    Ok(Term::Node(name, all))
}

/// A compound without calls; their goals come behind those before.
#[cycle(flattening)]
pub(crate) fn flatten_compound(
    alloc: Global,
    name: u64,
    parts: &[Term],
    goals: &mut Items<Term>,
    next: &mut u64,
) -> Result<Term, ExpandFault>
    ensures { Flattens result goals.new next.new (compound_flat name (map flat parts.now) goals.old next.old) }
{
    match parts {
        [part] => {
            if name == TILDE {
                let call = flatten(alloc, part, goals, next)?;
                call_result(alloc, &call, goals, next)
            } else {
                rebuild(alloc, name, parts, goals, next)
            }
        }
        _ => rebuild(alloc, name, parts, goals, next),
    }
}

/// A term without calls; their goals come behind those before.
#[cycle(flattening)]
pub(crate) fn flatten(
    alloc: Global,
    term: &Term,
    goals: &mut Items<Term>,
    next: &mut u64,
) -> Result<Term, ExpandFault>
    ensures { Flattens result goals.new next.new (flat term.now goals.old next.old) }
{
    match term {
        Term::Var(v) => Ok(Term::Var(*v)),
        Term::Int(n) => Ok(Term::Int(*n)),
        Term::Atom(a) => Ok(Term::Atom(*a)),
        Term::Node(name, parts) => { flatten_compound(alloc, *name, parts.as_slice(), goals, next) }
    }
}
