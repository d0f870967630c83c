// A module by hand.

ghost use Rattle.core_grammar.specs.Examples.{OneLine};

/// The terminals of `module 'm' ['main'/0] attributes [] 'main'/0 = fun () -> 42 end`, on one line, are derived as one module
/// with its places, and no part of it has a level above 2.
pub fn one_line_is_a_module()
    ensures { OneLine }
{}
