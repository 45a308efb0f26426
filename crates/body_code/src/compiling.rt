// The clause that a sentence is.
ghost use Rattle.std.specs.Prelude.{◌≡◌, Some, IfOk, IfErr};
ghost use Rattle.body_code.specs.Making.{Makes};
ghost use Rattle.body_code.specs.Clauses.{told, body_term, body_goal, compiled_with, IsCompiled, IsNoClause};
ghost use Rattle.body_code.specs.Ranges.{Grows, StaysInRange};

use crate::bodies::goal_of;
use crate::clauses::{body_problem, clause_indicator};
use crate::goals::copied_all;
use crate::{BodyFault, Compiled, Indicator, Problem, Scope};
use ciao_reader::Sentence;
use prog_data::{Clause, Goal, Grammar, Place};
use std::alloc::Global;
use term_core::{NECK, Term};

// A problem as it is told, with its line.
fn told(problem: Problem, line: u64) -> BodyFault
    ensures { result ≡ told line problem }
{
    match problem {
        Problem::UnknownProperty => BodyFault::UnknownProperty(line),
        Problem::BadClause => BodyFault::BadClause(line),
        Problem::Ambiguous => BodyFault::Ambiguous(line),
        Problem::Undefined => BodyFault::Undefined(line),
    }
}

// The goal that the body of a sentence is; `true` where there is none.
fn body_goal(
    alloc: Global,
    scope: &Scope,
    grammar: &mut Grammar,
    sentence: &Term,
) -> Result<Goal, BodyFault>
    ensures made { Makes result grammar.new (body_goal scope.now (body_term sentence.now) grammar.old) }
    ensures grows { Grows scope.now grammar.old grammar.new }
{
    match sentence.split(NECK).1 {
        None => Ok(Goal::True),
        Some(body) => goal_of(alloc, scope, grammar, body),
    }
}

// The clause of a sentence that has a head.
fn clause_of(
    alloc: Global,
    scope: &Scope,
    grammar: &mut Grammar,
    sentence: &Sentence,
    file: u64,
    indicator: Indicator,
) -> Result<Compiled, BodyFault>
    ensures made { Makes result grammar.new (compiled_with scope.now file sentence.now (Some indicator) grammar.old) }
    ensures grows { Grows scope.now grammar.old grammar.new }
{
    let head = sentence.term.split(NECK).0;
    let arguments = copied_all(alloc, head.parts())?;
    let goal = body_goal(alloc, scope, grammar, &sentence.term)?;
    Ok(Compiled {
        name: indicator.name,
        arity: indicator.arity,
        clause: Clause {
            head: arguments,
            body: goal,
            vars: sentence.vars,
            place: Place {
                file,
                line: sentence.line,
            },
        },
    })
}

/// The clause that a sentence of a file is, with its goals looked up in what is seen there (ISO/IEC 13211-1, clauses and bodies; Ciao manual, modules). The grammar gets the lists that goals `list(X,T)` need and that it has not, also where the call is refused.
///
/// # Errors
/// That the head is none; else of the problems of its goals the one that comes first, a type that is none before a goal that is none, a name of several, and a name of nothing; else that a 513th grammar name is needed; want of memory.
pub fn compile_clause(
    alloc: Global,
    scope: &Scope,
    grammar: &mut Grammar,
    sentence: &Sentence,
    file: u64,
) -> Result<Compiled, BodyFault>
    ensures ok { IfOk result (λ c. IsCompiled scope.now file sentence.now grammar.old grammar.new c) }
    ensures err { IfErr result (IsNoClause scope.now file sentence.now grammar.old) }
    ensures range { IfOk result (λ c. StaysInRange scope.now sentence.now file grammar.new c) }
    ensures grows { Grows scope.now grammar.old grammar.new }
{
    match clause_indicator(&sentence.term) {
        None => Err(BodyFault::BadClause(sentence.line)),
        Some(indicator) => match body_problem(scope, &sentence.term) {
            Some(problem) => Err(told(problem, sentence.line)),
            None => clause_of(alloc, scope, grammar, sentence, file, indicator),
        },
    }
}
