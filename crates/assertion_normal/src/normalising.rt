// The conditions, claims and entries of a predicate.
ghost use Rattle.std.specs.Prelude.{◌≡◌, IfOk, IfErr};
ghost use Rattle.assertion_normal.specs.Normals.{IsNormal, IsNormalFault};
ghost use Rattle.assertion_normal.specs.Ranges.{IsGrown, IsKept, StaysInRange};
ghost use Rattle.assertion_normal.specs.Laws.{IsOfPredicate};

use crate::claims::normal_of;
use crate::conditions::About;
use crate::laws::conditions_law;
use crate::settling::all_settled;
use crate::troubles::{least_trouble, told};
use crate::{Normal, NormalFault};
use assertion_read::Assertion;
use prog_data::{Grammar, Seen};
use regtype_grammar::meanings_law;
use std::alloc::Global;
use term_core::Names;

/// The conditions, claims and entries that the assertions of one predicate of a file give, in the order of their sentences. Entries are those of any predicate, exported or not. The grammar gets the lists that they need and that it has not; of these it may have got some where there is no room or no memory for all, and none where a name is in trouble. Conditions are numbered on from `first`.
///
/// # Errors
/// Of the names that mean no property and those that mean several types the one of the least line, one that means nothing first; else, that a 513th grammar name is needed; want of memory.
pub fn normalise(
    alloc: Global,
    names: &Names,
    file: u64,
    visible: &[Seen],
    grammar: &mut Grammar,
    pred: u64,
    first: u64,
    list: &[Assertion],
) -> Result<Normal, NormalFault>
    ensures ok { IfOk result (λ normal. IsNormal names.now file visible.now grammar.old pred first list.now grammar.new normal) }
    ensures of_predicate { IfOk result (IsOfPredicate file pred first) }
    ensures range { IfOk result (λ normal. StaysInRange visible.now grammar.old list.now grammar.new normal) }
    ensures err { IfErr result (IsNormalFault names.now file visible.now grammar.old pred first list.now) }
    ensures kept { IfErr result (IsKept grammar.old grammar.new) }
    ensures grown { IsGrown visible.now grammar.old grammar.new }
{
    conditions_law();
    meanings_law();
    match least_trouble(names, visible, list) {
        Some(troubled) => Err(told(troubled)),
        None => {
            let settled = all_settled(alloc, names, visible, grammar, list)?;
            let about = About { file, pred, first };
            let normal = normal_of(alloc, about, settled.as_slice())?;
            Ok(normal)
        }
    }
}
