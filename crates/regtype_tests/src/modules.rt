// Modules that a text tells. A clause belongs to the type that is declared last; `:- next.` begins a module, and `:- see(T,M,P).` lets it see the type in place P of module M by the name T.
use ciao_reader::Sentence;
use prog_data::Place;
use regtype_grammar::{RegType, SeenType, TypeModule, declared_type};
use sqlite_items::Items;
use std::alloc::Global;
use term_core::{NECK, Names, NoMemory, Term, copy};

fn empty_module(alloc: Global, file: u64) -> TypeModule {
    TypeModule {
        file,
        types: Items::new(alloc),
        visible: Items::new(alloc),
    }
}

fn is_next(names: &Names, sentence: &Sentence) -> bool {
    match sentence.term.single(NECK) {
        None => false,
        Some(directive) => match directive.atom() {
            None => false,
            Some(name) => names.text_or_empty(name) == "next",
        },
    }
}

fn number(term: &Term) -> u64 {
    match term {
        Term::Int(number) => { if *number >= 0 { *number as u64 } else { 0 } }
        Term::Var(_) | Term::Atom(_) | Term::Node(_, _) => 0,
    }
}

fn seen_at(name: &Term, of: &Term, at: &Term) -> Option<SeenType> {
    match name.atom() {
        None => None,
        Some(name) => Some(SeenType {
            name,
            module: number(of),
            position: number(at),
        }),
    }
}

// The type that a directive lets be seen.
fn seen_type(sentence: &Sentence) -> Option<SeenType> {
    match sentence.term.single(NECK) {
        None => None,
        Some(directive) => match directive.parts() {
            [name, of, at] => seen_at(name, of, at),
            _ => None,
        },
    }
}

fn with_seen(mut last: TypeModule, seen: SeenType) -> Result<TypeModule, NoMemory> {
    last.visible.push(seen)?;
    Ok(last)
}

// With a type, which is seen in its own module.
fn with_type(
    alloc: Global,
    last: TypeModule,
    position: u64,
    name: u64,
    line: u64,
) -> Result<TypeModule, NoMemory> {
    let seen = SeenType {
        name,
        module: position,
        position: last.types.len() as u64,
    };
    let regtype = RegType {
        name,
        clauses: Items::new(alloc),
        place: Place {
            file: last.file,
            line,
        },
    };
    let mut more = with_seen(last, seen)?;
    more.types.push(regtype)?;
    Ok(more)
}

fn longer(mut regtype: RegType, clause: Sentence) -> Result<RegType, NoMemory> {
    regtype.clauses.push(clause)?;
    Ok(regtype)
}

// With a clause of the last type.
fn with_clause(
    alloc: Global,
    mut last: TypeModule,
    sentence: &Sentence,
) -> Result<TypeModule, NoMemory> {
    match last.types.pop() {
        None => Ok(last),
        Some(regtype) => {
            let clause = Sentence {
                term: copy(alloc, &sentence.term)?,
                line: sentence.line,
                vars: sentence.vars,
            };
            last.types.push(longer(regtype, clause)?)?;
            Ok(last)
        }
    }
}

fn with_sentence(
    alloc: Global,
    position: u64,
    last: TypeModule,
    sentence: &Sentence,
) -> Result<TypeModule, NoMemory> {
    match declared_type(sentence) {
        Some(name) => with_type(alloc, last, position, name, sentence.line),
        None => match seen_type(sentence) {
            Some(seen) => with_seen(last, seen),
            None => with_clause(alloc, last, sentence),
        },
    }
}

fn add_sentence(
    alloc: Global,
    names: &Names,
    modules: &mut Items<TypeModule>,
    sentence: &Sentence,
) -> Result<(), NoMemory> {
    let count = modules.len() as u64;
    if is_next(names, sentence) {
        modules.push(empty_module(alloc, count))?;
        return Ok(());
    }
    match modules.pop() {
        None => Ok(()),
        Some(last) => {
            let position = modules.len() as u64;
            modules.push(with_sentence(alloc, position, last, sentence)?)?;
            Ok(())
        }
    }
}

/// The modules that sentences tell.
pub(crate) fn modules_of(
    alloc: Global,
    names: &Names,
    sentences: &[Sentence],
) -> Result<Items<TypeModule>, NoMemory> {
    let mut modules = Items::new(alloc);
    modules.push(empty_module(alloc, 0))?;
    for sentence in sentences {
        add_sentence(alloc, names, &mut modules, sentence)?;
    }
    Ok(modules)
}
