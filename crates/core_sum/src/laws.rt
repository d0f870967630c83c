// What holds of the sums of modules. Its contract is what counts; there is nothing to do.

ghost use Rattle.core_sum.specs.Laws.{SumsAreUnique};

/// A module has at most one sum, or one first part that isn't of the form, and not both.
pub fn sums_are_unique()
    ensures { SumsAreUnique }
{}
