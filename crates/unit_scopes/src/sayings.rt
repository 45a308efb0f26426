// What the sentences of a unit say.
ghost use Rattle.std.specs.Prelude.{◌≡◌, IfOk, OnOk};
ghost use Rattle.term_core.specs.declared.terms.Term.{out-Term};
ghost use Rattle.assertion_read.specs.Readings.{assertion_of};
ghost use Rattle.ciao_modules.specs.Directives.{is_declaration};
ghost use Rattle.regtype_grammar.specs.Declarations.{declared_type};
ghost use Rattle.unit_scopes.specs.Sayings.{after_dcg, after_fsyntax, expanded, has_head, breaks, clauses_said, assertion_said, type_said, declaration_said, directive_said, saying, with_saying, parts_of_unit};
ghost use Rattle.std.specs.List.{list_all};

use assertion_read::{AssertFault, Assertion, assertion_law, read_assertion};
use body_code::clause_indicator;
use ciao_modules::Unit;
use ciao_reader::Sentence;
use dcg_expand::{ExpandFault, expand_rule};
use fsyntax_expand::expand_clause;
use prog_data::RefusalKind;
use regtype_grammar::declared_type;
use sqlite_items::Items;
use std::alloc::Global;
use term_core::{
    CALLS, CHECK, CHECKED, COMP, ENTRY, FALSE, GRAMMAR_ARROW, NECK, Names, NoMemory, PRED, REGTYPE,
    SUCCESS, TRUE, TRUST, Term, copy, one,
};

/// A regular type that a directive declares, and its line.
#[derive(Clone, Copy, Drop, Debug)]
pub struct Declared {
    pub name: u64,
    pub line: u64,
}

/// A rule of the language that a sentence breaks, and its line.
#[derive(Clone, Copy, Drop, Debug)]
pub struct Broken {
    pub line: u64,
    pub kind: RefusalKind,
}

/// What one sentence says.
#[derive(Drop)]
pub(crate) enum Saying {
    /// The clauses that it stands for, behind the expansions.
    Clauses(Items<Sentence>),
    /// An assertion.
    Asserts(Assertion),
    /// That a regular type has this name.
    Declares(Declared),
    /// Nothing that is left to be looked at: the load has followed it.
    Passes,
    /// It breaks a rule, and says nothing else.
    Breaks(Broken),
}

/// What the sentences of a unit say, each kind in order.
#[derive(Drop)]
pub struct Parts {
    pub clauses: Items<Sentence>,
    pub assertions: Items<Assertion>,
    pub types: Items<Declared>,
    pub broken: Items<Broken>,
}

// A sentence behind the package dcg.
fn after_dcg(alloc: Global, dcg: bool, sentence: &Sentence) -> Result<Option<Sentence>, NoMemory>
    ensures { IfOk result (λ s. s ≡ after_dcg dcg sentence.now) }
{
    if dcg && sentence.term.operands(GRAMMAR_ARROW).is_some() {
        match expand_rule(alloc, sentence) {
            Ok(clause) => Ok(Some(clause)),
            Err(ExpandFault::BadExpansion) => Ok(None),
            Err(ExpandFault::NoMemory) => Err(NoMemory),
        }
    } else {
        Ok(Some(Sentence {
            term: copy(alloc, &sentence.term)?,
            line: sentence.line,
            vars: sentence.vars,
        }))
    }
}

// The clauses that a sentence stands for behind the package fsyntax.
fn after_fsyntax(
    alloc: Global,
    fsyntax: bool,
    sentence: Sentence,
) -> Result<Option<Items<Sentence>>, NoMemory>
    ensures { IfOk result (λ s. s ≡ after_fsyntax fsyntax sentence) }
{
    if fsyntax {
        match expand_clause(alloc, &sentence) {
            Ok(clauses) => Ok(Some(clauses)),
            Err(ExpandFault::BadExpansion) => Ok(None),
            Err(ExpandFault::NoMemory) => Err(NoMemory),
        }
    } else {
        Ok(Some(one(alloc, sentence)?))
    }
}

// The clauses that a sentence stands for behind both.
fn expanded(
    alloc: Global,
    dcg: bool,
    fsyntax: bool,
    sentence: &Sentence,
) -> Result<Option<Items<Sentence>>, NoMemory>
    ensures { IfOk result (λ s. s ≡ expanded dcg fsyntax sentence.now) }
{
    match after_dcg(alloc, dcg, sentence)? {
        None => Ok(None),
        Some(clause) => after_fsyntax(alloc, fsyntax, clause),
    }
}

// Whether each clause has a head that clauses may have.
fn have_heads(clauses: &[Sentence]) -> bool
    ensures { result ≡ list_all has_head clauses.now }
{
    for clause in clauses {
        if clause_indicator(&clause.term).is_none() {
            return false;
        }
    }
    true
}

// A sentence in this line breaks a rule.
fn breaks(line: u64, kind: RefusalKind) -> Saying
    ensures { result ≡ breaks line kind }
{
    Saying::Breaks(Broken { line, kind })
}

// A sentence by its expansion.
fn clauses_said(line: u64, found: Option<Items<Sentence>>) -> Saying
    ensures { result ≡ clauses_said line found }
{
    match found {
        None => breaks(line, RefusalKind::BadExpansion),
        Some(clauses) => {
            if have_heads(clauses.as_slice()) {
                Saying::Clauses(clauses)
            } else {
                breaks(line, RefusalKind::BadClause)
            }
        }
    }
}

// A directive that is to declare a type.
fn type_said(sentence: &Sentence) -> Saying
    ensures { result ≡ type_said sentence.now.line (declared_type sentence.now) }
{
    match declared_type(sentence) {
        None => breaks(sentence.line, RefusalKind::BadRegtype),
        Some(name) => Saying::Declares(Declared {
            name,
            line: sentence.line,
        }),
    }
}

// A directive that is to be an assertion.
fn assertion_said(alloc: Global, names: &Names, sentence: &Sentence) -> Result<Saying, NoMemory>
    ensures { IfOk result (λ s. s ≡ assertion_said sentence.now.line (assertion_of sentence.now)) }
{
    assertion_law(); // for the proof
    match read_assertion(alloc, names, sentence) {
        Ok(assertion) => Ok(Saying::Asserts(assertion)),
        Err(AssertFault::BadAssertion(_)) => Ok(breaks(sentence.line, RefusalKind::BadAssertion)),
        Err(AssertFault::NoMemory) => Err(NoMemory),
    }
}

// Whether a directive of one argument with this name is an assertion or declares a regular type.
fn is_declaration(name: u64) -> bool
    ensures { result ≡ is_declaration name }
{
    matches!(
        name,
        TRUE | FALSE | CHECK | TRUST | CHECKED | PRED | CALLS | SUCCESS | COMP | ENTRY | REGTYPE
    )
}

// A directive of one argument by its name.
fn declaration_said(
    alloc: Global,
    names: &Names,
    sentence: &Sentence,
    name: u64,
) -> Result<Saying, NoMemory>
    ensures { IfOk result (λ s. s ≡ declaration_said sentence.now name) }
{
    if name == REGTYPE {
        return Ok(type_said(sentence));
    }
    if is_declaration(name) {
        return assertion_said(alloc, names, sentence);
    }
    Ok(Saying::Passes)
}

// A directive by its argument.
fn directive_said(
    alloc: Global,
    names: &Names,
    sentence: &Sentence,
    directive: &Term,
) -> Result<Saying, NoMemory>
    ensures { IfOk result (λ s. s ≡ directive_said sentence.now (out-Term directive.now)) }
{
    match directive {
        Term::Var(_) | Term::Int(_) | Term::Atom(_) => Ok(Saying::Passes),
        Term::Node(name, parts) => match parts.as_slice() {
            [_part] => declaration_said(alloc, names, sentence, *name),
            _ => Ok(Saying::Passes),
        },
    }
}

// What a sentence says in a file with these packages.
fn sentence_said(
    alloc: Global,
    names: &Names,
    dcg: bool,
    fsyntax: bool,
    sentence: &Sentence,
) -> Result<Saying, NoMemory>
    ensures { IfOk result (λ s. s ≡ saying dcg fsyntax sentence.now) }
{
    match sentence.term.single(NECK) {
        Some(directive) => directive_said(alloc, names, sentence, directive),
        None => {
            let clauses = expanded(alloc, dcg, fsyntax, sentence)?;
            Ok(clauses_said(sentence.line, clauses))
        }
    }
}

// Adds what a sentence says.
fn add_saying(parts: &mut Parts, saying: Saying) -> Result<(), NoMemory>
    ensures { OnOk result (parts.new ≡ with_saying parts.old saying) }
{
    match saying {
        Saying::Clauses(clauses) => {
            parts.clauses.append(clauses)?;
            Ok(())
        }
        Saying::Asserts(assertion) => {
            parts.assertions.push(assertion)?;
            Ok(())
        }
        Saying::Declares(declared) => {
            parts.types.push(declared)?;
            Ok(())
        }
        Saying::Passes => Ok(()),
        Saying::Breaks(broken) => {
            parts.broken.push(broken)?;
            Ok(())
        }
    }
}

/// What the sentences of a unit say.
pub(crate) fn parts_of_unit(alloc: Global, names: &Names, unit: &Unit) -> Result<Parts, NoMemory>
    ensures { IfOk result (λ parts. parts ≡ parts_of_unit unit.now) }
{
    let mut parts = Parts {
        clauses: Items::new(alloc),
        assertions: Items::new(alloc),
        types: Items::new(alloc),
        broken: Items::new(alloc),
    };
    for sentence in unit.sentences.as_slice() {
        let said = sentence_said(alloc, names, unit.dcg, unit.fsyntax, sentence)?;
        add_saying(&mut parts, said)?;
    }
    Ok(parts)
}
