// Names of functions.

ghost use Rattle.std.specs.Prelude.{◌≡◌};
ghost use Rattle.core_ast.specs.Names.{is_named};
ghost use Rattle.core_sum.specs.Form.{main};
ghost use Rattle.core_sum.specs.Made.{has_main, is_addition};

use core_ast::{FunName, Place};
use hipe_terms::Atom;

/// Whether this is the name `'main'/0`.
pub fn is_main(name: &FunName) -> bool
    ensures { result ≡ is_named name.now main }
{
    name.name.has_text("main") && name.arity == 0
}

/// Whether `'main'/0` is among these names.
pub fn has_main(names: &[(FunName, Place)]) -> bool
    ensures { result ≡ has_main names.now }
{
    for (name, _) in names {
        if is_main(name) {
            return true;
        }
    }
    false
}

/// Whether a call of this function is one of `erlang:'+'`, so far as the names tell.
pub fn is_addition(of: &Atom, name: &Atom) -> bool
    ensures { result ≡ is_addition of.now name.now }
{
    of.has_text("erlang") && name.has_text("+")
}
