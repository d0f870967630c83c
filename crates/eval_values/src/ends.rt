// How built-in functions end.

ghost use Rattle.std.specs.Prelude.{◌≡◌, pos, bytes_eq};
ghost use Rattle.hipe_terms.specs.Outcome.{gives, builds, raises, number, truth, boolean_of, undef, badarg, badarith, displayed};
ghost use Rattle.hipe_terms.specs.Terms.{integer, atom};
ghost use Rattle.hipe_terms.specs.declared.class.Class.TheVariants.{Error};
ghost use Rattle.eval_values.specs.Integers.{ranged};
ghost use Rattle.eval_values.specs.Results.{outcome_in};
ghost use Rattle.eval_values.specs.Values.{term_in};

use crate::atoms::Atoms;
use crate::integer;
use crate::result::{End, Outcome};
use crate::value::{Shape, Value, shape_of};
use bumpalo::Bump;
use hipe_terms::{Atom, Class};
use std::alloc::Global;

/// What the built-in functions stand on: the memory that they take, the atoms that they make, and the arity of each function of
/// the program by its number.
#[derive(Clone, Copy)]
pub struct Ground<'a> {
    pub alloc: Global,
    pub bump: &'a Bump,
    pub atoms: &'a Atoms,
    pub arities: &'a [u64],
}

/// Whether two atoms are the same.
#[tactic(auto, using(crate::proofs::SameAtoms::same))]
pub fn same_atom(a: &Atom, b: &Atom) -> bool
    ensures { result ≡ bytes_eq a.now b.now }
{
    a.order(b).is_eq()
}

/// A value that was there.
pub fn gives(value: Value<'_>) -> Outcome<'_>
    ensures { outcome_in result ≡ gives (term_in value.entry) }
{
    Outcome {
        end: End::Value(value),
        printed: None,
        words: 0,
    }
}

/// A value of so many words.
pub fn builds(value: Value<'_>, words: u64) -> Outcome<'_>
    ensures { outcome_in result ≡ builds words (term_in value.entry) }
{
    Outcome {
        end: End::Value(value),
        printed: None,
        words,
    }
}

/// A class and a reason.
pub fn raises<'a>(class: Class, reason: Value<'a>) -> Outcome<'a>
    ensures { outcome_in result ≡ raises class (term_in reason.entry) }
{
    Outcome {
        end: End::Raised(class, reason),
        printed: None,
        words: 0,
    }
}

/// An integer that was there.
#[tactic(auto, using(crate::proofs::Made::made))]
pub fn gives_integer<'a>(n: i64) -> Outcome<'a>
    ensures { outcome_in result ≡ gives (integer n) }
{
    gives(Value::Int(n))
}

/// An error with an atom as its reason.
#[tactic(auto, using(crate::proofs::Made::made))]
pub fn fails(reason: &Atom) -> Outcome<'_>
    ensures { outcome_in result ≡ raises Error (atom reason.now) }
{
    raises(Class::Error, Value::Atom(reason))
}

impl<'a> Ground<'a> {
    /// No function of the table.
    pub fn undef(self) -> Outcome<'a>
        ensures { outcome_in result ≡ undef }
    {
        fails(&self.atoms.undef)
    }

    /// An argument of a wrong kind.
    pub fn badarg(self) -> Outcome<'a>
        ensures { outcome_in result ≡ badarg }
    {
        fails(&self.atoms.badarg)
    }

    /// An argument of arithmetic of a wrong kind.
    pub fn badarith(self) -> Outcome<'a>
        ensures { outcome_in result ≡ badarith }
    {
        fails(&self.atoms.badarith)
    }

    /// An integer, or the error of a result that is out of the range.
    pub fn number(self, n: Option<i64>) -> Outcome<'a>
        ensures { outcome_in result ≡ ranged n }
    {
        match n {
            Some(n) => gives_integer(n),
            None => fails(&self.atoms.system_limit),
        }
    }

    /// The number of some elements.
    #[tactic(auto, using(crate::proofs::Arithmetic::numbers))]
    pub fn size(self, n: usize) -> Outcome<'a>
        ensures { outcome_in result ≡ number (pos n) }
    {
        match i64::try_from(n) {
            Ok(n) => self.number(integer::in_range(n)),
            Err(_) => fails(&self.atoms.system_limit),
        }
    }

    /// A Boolean.
    #[tactic(auto, using(crate::proofs::Made::made))]
    pub fn truth(self, b: bool) -> Outcome<'a>
        ensures { outcome_in result ≡ truth b }
    {
        if b {
            gives(Value::Atom(&self.atoms.yes))
        } else {
            gives(Value::Atom(&self.atoms.no))
        }
    }

    /// The Boolean that a value is.
    pub fn boolean_of(self, a: Value<'_>) -> Option<bool>
        ensures { result ≡ boolean_of (term_in a.entry) }
    {
        match shape_of(a) {
            Shape::Atom(name) => {
                if same_atom(name, &self.atoms.yes) {
                    Some(true)
                } else if same_atom(name, &self.atoms.no) {
                    Some(false)
                } else {
                    None
                }
            }
            Shape::Int(_) | Shape::Nil => None,
            Shape::Cons(_, _) | Shape::Tuple(_) => None,
            Shape::Fun(_, _) => None,
        }
    }

    /// A value that is printed.
    #[tactic(auto, using(crate::proofs::Made::made))]
    pub fn displayed(self, a: Value<'a>) -> Outcome<'a>
        ensures { outcome_in result ≡ displayed (term_in a.entry) }
    {
        let end = End::Value(Value::Atom(&self.atoms.yes));
        Outcome {
            end,
            printed: Some(a),
            words: 0,
        }
    }
}
