// Laws of terms and their equations: ranges, the names of variables, equations one list after the other.
ghost use Rattle.term_core.specs.Ranges.{RangesStay};
ghost use Rattle.term_core.specs.Sequences.{InSequence, StaysAlone, BindsFirst};
ghost use Rattle.term_core.specs.Variants.{VariantsEndAlike, VariantsSolvedAlike, VariantsNumberedAlike};
ghost use Rattle.term_core.specs.VariantTests.{VariantsShapedAlike, VariantsTestedAlike, VariantsSameAlike};

use crate::unification_law;

/// Terms in range stay so where names and variables come to be more, and when terms in range are put for their variables.
pub fn ranges_law()
    ensures { RangesStay }
{}

/// Equations may be solved one list after the other, each with the solutions of those before it put in.
pub fn sequence_law()
    ensures { InSequence }
{
    unification_law();
}

/// A variable that stands in no equation and in no term stays so, until it is met; then it may be bound without a search for it.
pub fn alone_law()
    ensures stays { StaysAlone }
    ensures binds { BindsFirst }
{}

/// Equations that differ in the names of their variables alone end in the same kind of outcome.
pub fn unified_variants_law()
    ensures { VariantsEndAlike }
{}

/// What two most general solutions of such equations give differs in the names of variables alone; such terms are the same
/// once their variables are numbered.
pub fn variants_law()
    ensures solved { VariantsSolvedAlike }
    ensures numbered { VariantsNumberedAlike }
{}

/// Terms that differ in the names of variables alone are one term once each variable has the same name. A test of a term by
/// its parts, without a look at the numbers of variables, says the same of both; and so does whether two terms are the same.
pub fn variant_tests_law()
    ensures shaped { VariantsShapedAlike }
    ensures tested { VariantsTestedAlike }
    ensures same { VariantsSameAlike }
{}
