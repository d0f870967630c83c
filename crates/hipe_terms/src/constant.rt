// Constants: the terms that a program's text and a call can name, so all but funs.

ghost use Rattle.std.specs.Prelude.{◌≡◌, map};
ghost use Rattle.hipe_terms.specs.Constants.{form_of, are_all_good, is_list};

use crate::atom::Atom;
use hipe_base::limits::{GREATEST_INTEGER, LEAST_INTEGER};
use sqlite_items::{Boxed, Items};

/// A constant. Every call that takes one wants it as the readers give it: an integer is in the range of the limits, a
/// list has at least one element, and its tail is no list.
#[derive(Debug, Drop)]
pub enum Constant {
    /// An integer, from `LEAST_INTEGER` to `GREATEST_INTEGER`.
    Int(i64),
    /// An atom.
    Atom(Atom),
    /// The empty list.
    Nil,
    /// Elements, and the tail behind the last one.
    List(Items<Constant>, Boxed<Constant>),
    /// A tuple.
    Tuple(Items<Constant>),
}

/// A call of a function of a module by its name.
#[derive(Debug, Drop)]
pub struct Call {
    /// The function's name.
    pub name: Atom,
    /// The arguments, from left to right. Their number is the arity of the function that is called.
    pub args: Items<Constant>,
}

/// Whether a constant is as every call wants it.
#[cycle(is_constant)]
#[tactic(auto, using(crate::proofs::Parts::form_levels))]
pub fn is_constant(c: &Constant) -> bool
    ensures { result ≡ (form_of c.now).good }
{
    match c {
        Constant::Int(n) => LEAST_INTEGER <= *n && *n <= GREATEST_INTEGER,
        Constant::Atom(_) | Constant::Nil => true,
        Constant::List(parts, tail) => {
            if parts.is_empty() {
                return false;
            }
            if is_list(tail.get()) {
                return false;
            }
            if !are_constants(parts.as_slice()) {
                return false;
            }
            is_constant(tail.get())
        }
        Constant::Tuple(parts) => are_constants(parts.as_slice()),
    }
}

#[cycle(is_constant)]
#[tactic(auto, using(crate::proofs::Parts::form_levels))]
fn are_constants(parts: &[Constant]) -> bool
    ensures { result ≡ are_all_good (map form_of parts.now) }
{
    for part in parts {
        if !is_constant(part) {
            return false;
        }
    }
    true
}

// A list with elements.
#[tactic(auto, using(crate::proofs::Parts::form_levels))]
fn is_list(c: &Constant) -> bool
    ensures { result ≡ is_list c.now }
{
    matches!(c, Constant::List(_, _))
}
