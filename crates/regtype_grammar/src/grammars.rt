// The grammar of the types of modules.
ghost use Rattle.std.specs.Prelude.{◌≡◌, ◌≤◌, ◌+◌, ◌-◌, length, true, Some, None, IfOk, IfErr};
ghost use Rattle.std.specs.List.{list_all, AllByRecursion};
ghost use Rattle.prog_data.specs.GrammarRange.{IsGrammar};
ghost use Rattle.regtype_grammar.specs.TypeNames.{count_types, numbered, are_few, are_seen, seen_types, AreKindsBelow, meaning};
ghost use Rattle.regtype_grammar.specs.TypeFaults.{refused};
ghost use Rattle.regtype_grammar.specs.Grammars.{AllFit, Fits, FitsLists, no_types, with_literals, with_rule_by, with_rule, with_clause, with_clauses, with_type, with_types, with_module, with_modules, nothing_made, made_rules, grammar_of, IsTypeFault};
ghost use Rattle.regtype_grammar.specs.TypeClauses.{clause_of};
ghost use Rattle.regtype_grammar.specs.TermRules.{names_needed};
ghost use Rattle.regtype_grammar.specs.TypeTerms.{TypesHaveTheirTerms, TypesHaveLeastTerms};
ghost use Rattle.regtype_grammar.specs.RuleNames.{TypesGiveNamedRules};

use crate::clauses::clause_of;
use crate::faults::refused;
use crate::literals::Literal;
use crate::numbering::{KnownList, Listing, with_literals};
use crate::seen::numbered;
use crate::starts::first_names;
use crate::terms::{push_inner, room_behind, rule_of};
use crate::{RegType, TypeFault, TypeModule};
use ciao_reader::Sentence;
use prog_data::{Grammar, LIST_TYPE, Rule, Seen, TERM_TYPE, basic_grammar};
use sqlite_items::Items;
use std::alloc::Global;
use term_core::{Names, NoMemory, Term};

/// The rules of the types so far, the lists that are known, and the rules of the further names.
#[derive(Drop)]
pub(crate) struct Making {
    pub(crate) own: Items<Items<Rule>>,
    pub(crate) known: Items<KnownList>,
    pub(crate) further: Items<Items<Rule>>,
}

/// The same within a type: its rules so far.
#[derive(Drop)]
pub(crate) struct Ruling {
    pub(crate) rules: Items<Rule>,
    pub(crate) known: Items<KnownList>,
    pub(crate) further: Items<Items<Rule>>,
}

// The rule of a clause, whose names begin at `next`, and the rules of its further names.
fn ruled(
    alloc: Global,
    next: u64,
    mut ruling: Ruling,
    argument: &Term,
    listing: Listing,
) -> Result<Ruling, NoMemory>
    requires { names_needed argument.now + next ≤ 513 }
    ensures { IfOk result (λ r. r ≡ with_rule_by next ruling argument.now listing) }
{
    let Listing {
        known,
        added,
        types,
    } = listing;
    let rule = rule_of(alloc, types.as_slice(), argument, next)?;
    ruling.rules.push(rule)?;
    push_inner(alloc, types.as_slice(), argument, next, &mut ruling.further)?;
    ruling.further.append(added)?;
    ruling.known = known;
    Ok(ruling)
}

// Lists that are known, before the literals of a clause.
fn no_types(alloc: Global, known: &[KnownList]) -> Result<Listing, NoMemory>
    ensures { IfOk result (λ l. l ≡ no_types known.now) }
{
    let known = Items::from_slice(alloc, known)?;
    Ok(Listing {
        known,
        added: Items::new(alloc),
        types: Items::new(alloc),
    })
}

// The same of a head's argument and literals, where `inner` names are needed for the parts of the argument; none where there is no room for all names.
fn with_rule_at(
    alloc: Global,
    next: u64,
    inner: u64,
    seen: &[Seen],
    ruling: Ruling,
    argument: &Term,
    literals: &[Literal],
) -> Result<Option<Ruling>, NoMemory>
    requires needed { names_needed argument.now + next ≤ 513 }
    requires inner { inner ≡ names_needed argument.now - 1 }
    requires room { next + inner ≤ 512 }
    ensures { IfOk result (FitsLists (next + inner) (with_literals (next + inner) (meaning seen.now) (no_types ruling.known) literals.now) (with_rule_by next ruling argument.now (with_literals (next + inner) (meaning seen.now) (no_types ruling.known) literals.now))) }
{
    let start = no_types(alloc, ruling.known.as_slice())?;
    match with_literals(alloc, next + inner, seen, start, literals)? {
        None => Ok(None),
        Some(listing) => Ok(Some(ruled(alloc, next, ruling, argument, listing)?)),
    }
}

// The same of a clause; `first` is the name behind all types.
fn with_rule(
    alloc: Global,
    first: u64,
    seen: &[Seen],
    ruling: Ruling,
    argument: &Term,
    literals: &[Literal],
) -> Result<Option<Ruling>, NoMemory>
    requires { length ruling.further + first ≤ 512 }
    ensures { IfOk result (Fits first (with_clause first (meaning seen.now) ruling (Some (record { argument = argument.now; literals = literals.now })))) }
{
    let next = ruling.further.len() as u64 + first;
    match room_behind(argument, 513 - next) {
        None => Ok(None),
        Some(left) => {
            let inner = (513 - next - left).saturating_sub(1);
            let made = with_rule_at(alloc, next, inner, seen, ruling, argument, literals)?;
            Ok(made)
        }
    }
}

// The same of a sentence.
fn with_clause(
    alloc: Global,
    first: u64,
    seen: &[Seen],
    name: u64,
    ruling: Ruling,
    sentence: &Sentence,
) -> Result<Option<Ruling>, NoMemory>
    requires { length ruling.further + first ≤ 512 }
    ensures { IfOk result (Fits first (with_clause first (meaning seen.now) ruling (clause_of name sentence.now))) }
{
    match clause_of(alloc, name, sentence)? {
        None => Ok(Some(ruling)),
        Some((argument, literals)) => {
            let made = with_rule(alloc, first, seen, ruling, argument, literals.as_slice())?;
            Ok(made)
        }
    }
}

// The rules of the clauses of a type.
fn with_clauses(
    alloc: Global,
    first: u64,
    seen: &[Seen],
    name: u64,
    start: Ruling,
    clauses: &[Sentence],
) -> Result<Option<Ruling>, NoMemory>
    requires { length start.further + first ≤ 512 }
    ensures { IfOk result (Fits first (with_clauses first (meaning seen.now) name start clauses.now)) }
{
    let mut ruling = start;
    for clause in clauses {
        match with_clause(alloc, first, seen, name, ruling, clause)? {
            None => return Ok(None),
            Some(more) => ruling = more,
        }
    }
    Ok(Some(ruling))
}

// With the rules of a type.
fn with_type(
    alloc: Global,
    first: u64,
    seen: &[Seen],
    making: Making,
    regtype: &RegType,
) -> Result<Option<Making>, NoMemory>
    requires { length making.further + first ≤ 512 }
    ensures { IfOk result (AllFit first (with_type first (meaning seen.now) making regtype.now)) }
{
    let Making {
        mut own,
        known,
        further,
    } = making;
    let start = Ruling {
        rules: Items::new(alloc),
        known,
        further,
    };
    match with_clauses(
        alloc,
        first,
        seen,
        regtype.name,
        start,
        regtype.clauses.as_slice(),
    )? {
        None => Ok(None),
        Some(ruling) => {
            let Ruling {
                rules,
                known,
                further,
            } = ruling;
            own.push(rules)?;
            Ok(Some(Making {
                own,
                known,
                further,
            }))
        }
    }
}

// With the types of a module.
fn with_types(
    alloc: Global,
    first: u64,
    seen: &[Seen],
    start: Making,
    types: &[RegType],
) -> Result<Option<Making>, NoMemory>
    requires { length start.further + first ≤ 512 }
    ensures { IfOk result (AllFit first (with_types first (meaning seen.now) start types.now)) }
{
    let mut making = start;
    for regtype in types {
        match with_type(alloc, first, seen, making, regtype)? {
            None => return Ok(None),
            Some(more) => making = more,
        }
    }
    Ok(Some(making))
}

// With the types of a module, by the grammar names of the first types of all modules.
fn with_module(
    alloc: Global,
    first: u64,
    firsts: &[u64],
    making: Making,
    one: &TypeModule,
) -> Result<Option<Making>, NoMemory>
    requires room { length making.further + first ≤ 512 }
    requires few { are_few firsts.now one.now.visible ≡ true }
    ensures { IfOk result (AllFit first (with_module first firsts.now making one.now)) }
{
    let seen = numbered(alloc, firsts, one.visible.as_slice())?;
    let made = with_types(alloc, first, seen.as_slice(), making, one.types.as_slice())?;
    Ok(made)
}

// With the types of modules.
fn with_modules(
    alloc: Global,
    first: u64,
    firsts: &[u64],
    start: Making,
    modules: &[TypeModule],
) -> Result<Option<Making>, NoMemory>
    requires room { length start.further + first ≤ 512 }
    requires few { list_all (λ m. are_few firsts.now m.visible) modules.now ≡ true }
    ensures { IfOk result (AllFit first (with_modules first firsts.now start modules.now)) }
{
    let mut making = start;
    for one in modules {
        match with_module(alloc, first, firsts, making, one)? {
            None => return Ok(None),
            Some(more) => making = more,
        }
    }
    Ok(Some(making))
}

// Before the first type.
fn nothing_made(alloc: Global) -> Result<Making, NoMemory>
    ensures { IfOk result (λ m. m ≡ nothing_made) }
{
    let mut known = Items::new(alloc);
    known.push(KnownList {
        element: TERM_TYPE,
        name: LIST_TYPE,
    })?;
    Ok(Making {
        own: Items::new(alloc),
        known,
        further: Items::new(alloc),
    })
}

// The basic names, the types and the further names.
fn joined(alloc: Global, making: Making) -> Result<Grammar, NoMemory>
    ensures { IfOk result (λ grammar. grammar.rules ≡ made_rules making) }
{
    let mut grammar = basic_grammar(alloc)?;
    let Making {
        own,
        known: _known,
        further,
    } = making;
    grammar.rules.append(own)?;
    grammar.rules.append(further)?;
    Ok(grammar)
}

// The grammar of the types of modules, none where a 513th name is needed.
fn made_grammar(alloc: Global, modules: &[TypeModule]) -> Result<Option<Grammar>, NoMemory>
    requires { are_seen modules.now ≡ true }
    ensures { IfOk result (λ grammar. grammar ≡ grammar_of modules.now) }
{
    match first_names(alloc, modules)? {
        None => Ok(None),
        Some((firsts, first)) => {
            let start = nothing_made(alloc)?;
            match with_modules(alloc, first, firsts.as_slice(), start, modules)? {
                None => Ok(None),
                Some(making) => Ok(Some(joined(alloc, making)?)),
            }
        }
    }
}

/// The grammar of the types of modules, whose visible types are types of these modules.
///
/// # Errors
/// The least fault of the first module that has one; that a 513th name is needed, where no module has one; want of memory.
pub fn grammar_of(
    alloc: Global,
    _names: &Names,
    modules: &[TypeModule],
) -> Result<Grammar, TypeFault>
    requires { are_seen modules.now ≡ true }
    ensures ok { IfOk result (λ grammar. (refused modules.now ≡ None) × (grammar_of modules.now ≡ Some grammar)) }
    ensures range { IfOk result (λ grammar. IsGrammar grammar) }
    ensures types { IfOk result (λ grammar. 10 + count_types modules.now ≤ length grammar.rules) }
    ensures seen { IfOk result (λ grammar. AllByRecursion (AreKindsBelow (length grammar.rules)) (seen_types modules.now)) }
    ensures named { IfOk result (TypesGiveNamedRules modules.now) }
    ensures err { IfErr result (IsTypeFault modules.now) }
{
    match refused(alloc, modules)? {
        Some(fault) => Err(fault),
        None => match made_grammar(alloc, modules)? {
            None => Err(TypeFault::TooManyNames),
            Some(grammar) => Ok(grammar),
        },
    }
}

/// A term belongs to a type exactly where a clause of the type gives it from terms that belong to the types of its variables.
pub fn types_law()
    ensures { TypesHaveTheirTerms }
{}

/// What belongs to a type is the least that the clauses give: each term of it is given within finitely many clauses.
pub fn least_terms_law()
    ensures { TypesHaveLeastTerms }
{}
