// Laws of a heap's places and the variables of a head.
ghost use Rattle.unify_core.specs.Heads.{FreshAreNew};

/// New free cells are variables that stand in the term of no other place, as a head's variables are to be.
pub fn new_law()
    ensures { FreshAreNew }
{}
