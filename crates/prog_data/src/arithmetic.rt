// The value of arithmetic terms.
ghost use Rattle.prog_data.specs.Arithmetic.{ValuesAreGround};

/// A term that has a value in arithmetic has no variables.
pub fn arithmetic_value_law()
    ensures { ValuesAreGround }
{}
