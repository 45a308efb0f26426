// What a sentence makes of the operators.
ghost use Rattle.std.specs.Prelude.{◌≡◌, Some, None, IfOk, OnOk, IsErrOf};
ghost use Rattle.term_core.specs.declared.terms.Term.{out-Term};
ghost use Rattle.ciao_reader.specs.Changes.{kind_named, alone, listed, names_in, added_all, after_op, after_directive, table_after};

use sqlite_items::Items;
use std::alloc::Global;
use term_core::{NECK, Names, NoMemory, OpFault, OpKind, OpTable, Term};

// The kind of operator that a text names.
fn kind_named(text: &str) -> Option<OpKind>
    ensures { result ≡ kind_named text.now }
{
    if text == "xfx" {
        Some(OpKind::Xfx)
    } else if text == "xfy" {
        Some(OpKind::Xfy)
    } else if text == "yfx" {
        Some(OpKind::Yfx)
    } else if text == "fy" {
        Some(OpKind::Fy)
    } else if text == "fx" {
        Some(OpKind::Fx)
    } else {
        None
    }
}

// The name of an atom.
fn atom_of(term: &Term) -> Option<u64>
    ensures { result ≡ alone term.now }
{
    match term {
        Term::Atom(name) => Some(*name),
        Term::Var(_) | Term::Int(_) | Term::Node(_, _) => None,
    }
}

// The names of a proper list of atoms.
fn listed(alloc: Global, term: &Term) -> Result<Option<Items<u64>>, NoMemory>
    ensures { IfOk result (λ names. names ≡ listed term.now) }
{
    let mut names = Items::new(alloc);
    let mut left = term;
    while let Some((item, tail)) = left.list_cell() {
        match atom_of(item) {
            None => return Ok(None),
            Some(name) => names.push(name)?,
        }
        left = tail;
    }
    if left.is_empty_list() {
        Ok(Some(names))
    } else {
        Ok(None)
    }
}

// The names of an atom, or of a proper list of atoms.
fn names_in(alloc: Global, term: &Term) -> Result<Option<Items<u64>>, NoMemory>
    ensures { IfOk result (λ names. names ≡ names_in term.now) }
{
    match atom_of(term) {
        Some(name) => {
            let mut names = Items::new(alloc);
            names.push(name)?;
            Ok(Some(names))
        }
        None => listed(alloc, term),
    }
}

// A change of each name, in order.
fn add_all(ops: &mut OpTable, priority: i64, kind: OpKind, names: &[u64]) -> Result<(), OpFault>
    ensures ok { OnOk result (added_all priority kind names.now ops.old ≡ Some ops.new) }
    ensures refused { IsErrOf result OpFault.OpRefused → added_all priority kind names.now ops.old ≡ None }
{
    for name in names {
        ops.add(priority, kind, *name)?;
    }
    Ok(())
}

// `op(P,K,N)`.
fn after_op(
    alloc: Global,
    names: &Names,
    ops: &mut OpTable,
    priority: &Term,
    kind: &Term,
    changed: &Term,
) -> Result<(), OpFault>
    ensures ok { OnOk result (after_op names.now ops.old (out-Term priority.now) (out-Term kind.now) (names_in changed.now) ≡ Some ops.new) }
    ensures refused { IsErrOf result OpFault.OpRefused → after_op names.now ops.old (out-Term priority.now) (out-Term kind.now) (names_in changed.now) ≡ None }
{
    match priority {
        Term::Int(priority) => match kind {
            Term::Atom(kind) => match names_in(alloc, changed)? {
                Some(changed) => match kind_named(names.text_or_empty(*kind)) {
                    Some(kind) => add_all(ops, *priority, kind, changed.as_slice()),
                    None => Err(OpFault::OpRefused),
                },
                None => Err(OpFault::OpRefused),
            },
            Term::Var(_) | Term::Int(_) | Term::Node(_, _) => Err(OpFault::OpRefused),
        },
        Term::Var(_) | Term::Atom(_) | Term::Node(_, _) => Err(OpFault::OpRefused),
    }
}

// A directive.
fn after_directive(
    alloc: Global,
    names: &Names,
    ops: &mut OpTable,
    directive: &Term,
) -> Result<(), OpFault>
    ensures ok { OnOk result (after_directive names.now ops.old (out-Term directive.now) ≡ Some ops.new) }
    ensures refused { IsErrOf result OpFault.OpRefused → after_directive names.now ops.old (out-Term directive.now) ≡ None }
{
    match directive {
        Term::Node(name, parts) => match parts.as_slice() {
            [priority, kind, changed] => {
                if names.text_or_empty(*name) == "op" {
                    after_op(alloc, names, ops, priority, kind, changed)
                } else {
                    Ok(())
                }
            }
            _ => Ok(()),
        },
        Term::Var(_) | Term::Int(_) | Term::Atom(_) => Ok(()),
    }
}

/// Changes the operators as a sentence says.
pub(crate) fn after_sentence(
    alloc: Global,
    names: &Names,
    ops: &mut OpTable,
    sentence: &Term,
) -> Result<(), OpFault>
    ensures ok { OnOk result (table_after names.now ops.old sentence.now ≡ Some ops.new) }
    ensures refused { IsErrOf result OpFault.OpRefused → table_after names.now ops.old sentence.now ≡ None }
{
    match sentence {
        Term::Node(name, parts) => match parts.as_slice() {
            [directive] => {
                if *name == NECK {
                    after_directive(alloc, names, ops, directive)
                } else {
                    Ok(())
                }
            }
            _ => Ok(()),
        },
        Term::Var(_) | Term::Int(_) | Term::Atom(_) => Ok(()),
    }
}
