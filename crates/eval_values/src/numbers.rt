// The built-in functions on integers.

ghost use Rattle.std.specs.Prelude.{◌≡◌, ◌+ℤ◌, ◌-ℤ◌, ◌*ℤ◌};
ghost use Rattle.std.specs.Int.{w64, int_bit_and, int_bit_or, int_bit_xor};
ghost use Rattle.hipe_terms.specs.Outcome.{arithmetic, negated, divided, remainder, bitwise, bits_turned, shifted_left, shifted_right};
ghost use Rattle.eval_values.specs.Integers.{integer_of, integers_of};
ghost use Rattle.eval_values.specs.Results.{outcome_in};
ghost use Rattle.eval_values.specs.Values.{term_in};

use crate::ends::{Ground, gives_integer};
use crate::integer;
use crate::result::Outcome;
use crate::value::{Shape, Value, shape_of};

/// The integer that a value is.
pub fn integer_of(a: Value<'_>) -> Option<i64>
    ensures { result ≡ integer_of (term_in a.entry) }
{
    match shape_of(a) {
        Shape::Int(n) => Some(n),
        Shape::Atom(_) | Shape::Nil => None,
        Shape::Cons(_, _) | Shape::Tuple(_) => None,
        Shape::Fun(_, _) => None,
    }
}

/// The integers that two values are.
#[tactic(auto, using(crate::proofs::Arithmetic::numbers))]
pub fn integers_of(a: Value<'_>, b: Value<'_>) -> Option<(i64, i64)>
    ensures { result ≡ integers_of (term_in a.entry) (term_in b.entry) }
{
    match integer_of(a) {
        Some(m) => match integer_of(b) {
            Some(n) => Some((m, n)),
            None => None,
        },
        None => None,
    }
}

#[tactic(auto, using(crate::proofs::Arithmetic::numbers))]
impl<'a> Ground<'a> {
    /// `+`.
    pub fn added(self, a: Value<'a>, b: Value<'a>) -> Outcome<'a>
        ensures { outcome_in result ≡ arithmetic (λ m n. m +ℤ n) (term_in a.entry) (term_in b.entry) }
    {
        match integers_of(a, b) {
            Some((m, n)) => self.number(integer::sum(m, n)),
            None => self.badarith(),
        }
    }

    /// `-` of two integers.
    pub fn subtracted(self, a: Value<'a>, b: Value<'a>) -> Outcome<'a>
        ensures { outcome_in result ≡ arithmetic (λ m n. m -ℤ n) (term_in a.entry) (term_in b.entry) }
    {
        match integers_of(a, b) {
            Some((m, n)) => self.number(integer::difference(m, n)),
            None => self.badarith(),
        }
    }

    /// `*`.
    pub fn multiplied(self, a: Value<'a>, b: Value<'a>) -> Outcome<'a>
        ensures { outcome_in result ≡ arithmetic (λ m n. m *ℤ n) (term_in a.entry) (term_in b.entry) }
    {
        match integers_of(a, b) {
            Some((m, n)) => self.number(integer::product(m, n)),
            None => self.badarith(),
        }
    }

    /// `-` of one integer.
    pub fn negated(self, a: Value<'a>) -> Outcome<'a>
        ensures { outcome_in result ≡ negated (term_in a.entry) }
    {
        match integer_of(a) {
            Some(n) => self.number(integer::negative(n)),
            None => self.badarith(),
        }
    }

    /// `div`.
    pub fn divided(self, a: Value<'a>, b: Value<'a>) -> Outcome<'a>
        ensures { outcome_in result ≡ divided (term_in a.entry) (term_in b.entry) }
    {
        match integers_of(a, b) {
            Some((m, n)) => {
                if n == 0 {
                    return self.badarith();
                }
                self.number(integer::quotient(m, n))
            }
            None => self.badarith(),
        }
    }

    /// `rem`.
    pub fn remainder(self, a: Value<'a>, b: Value<'a>) -> Outcome<'a>
        ensures { outcome_in result ≡ remainder (term_in a.entry) (term_in b.entry) }
    {
        match integers_of(a, b) {
            Some((m, n)) => {
                if n == 0 {
                    return self.badarith();
                }
                gives_integer(integer::remainder(m, n))
            }
            None => self.badarith(),
        }
    }

    /// `band`.
    pub fn bits_and(self, a: Value<'a>, b: Value<'a>) -> Outcome<'a>
        ensures { outcome_in result ≡ bitwise (int_bit_and w64) (term_in a.entry) (term_in b.entry) }
    {
        match integers_of(a, b) {
            Some((m, n)) => gives_integer(m & n),
            None => self.badarith(),
        }
    }

    /// `bor`.
    pub fn bits_or(self, a: Value<'a>, b: Value<'a>) -> Outcome<'a>
        ensures { outcome_in result ≡ bitwise (int_bit_or w64) (term_in a.entry) (term_in b.entry) }
    {
        match integers_of(a, b) {
            Some((m, n)) => gives_integer(m | n),
            None => self.badarith(),
        }
    }

    /// `bxor`.
    pub fn bits_xor(self, a: Value<'a>, b: Value<'a>) -> Outcome<'a>
        ensures { outcome_in result ≡ bitwise (int_bit_xor w64) (term_in a.entry) (term_in b.entry) }
    {
        match integers_of(a, b) {
            Some((m, n)) => gives_integer(m ^ n),
            None => self.badarith(),
        }
    }

    /// `bnot`.
    pub fn bits_turned(self, a: Value<'a>) -> Outcome<'a>
        ensures { outcome_in result ≡ bits_turned (term_in a.entry) }
    {
        match integer_of(a) {
            Some(n) => gives_integer(!n),
            None => self.badarith(),
        }
    }

    /// `bsl`.
    pub fn shifted_left(self, a: Value<'a>, b: Value<'a>) -> Outcome<'a>
        ensures { outcome_in result ≡ arithmetic shifted_left (term_in a.entry) (term_in b.entry) }
    {
        match integers_of(a, b) {
            Some((m, n)) => self.number(integer::shifted_left(m, n)),
            None => self.badarith(),
        }
    }

    /// `bsr`.
    pub fn shifted_right(self, a: Value<'a>, b: Value<'a>) -> Outcome<'a>
        ensures { outcome_in result ≡ arithmetic shifted_right (term_in a.entry) (term_in b.entry) }
    {
        match integers_of(a, b) {
            Some((m, n)) => self.number(integer::shifted_right(m, n)),
            None => self.badarith(),
        }
    }
}
