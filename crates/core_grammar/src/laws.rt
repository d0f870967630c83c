// What the productions give.

ghost use Rattle.core_grammar.specs.Laws.{DerivedAreWellFormed, DerivedArgumentsAreConstants};

/// A module that is derived from terminals whose numbers are in their range is well formed, as every call wants a module:
/// its integers are in their range, and a list in the tail of a list is one list with it.
pub fn derived_modules_are_well_formed()
    ensures { DerivedAreWellFormed }
{}

/// The arguments of a call that is derived so are constants as every call wants them.
pub fn derived_arguments_are_constants()
    ensures { DerivedArgumentsAreConstants }
{}
