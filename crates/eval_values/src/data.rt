// The built-in functions on Booleans, lists, tuples and funs.

ghost use Rattle.std.specs.Prelude.{◌≡◌, ℕ, ◌+◌, ◌*◌, suc, pos, slice_get, option_map, IfOk, Option, ◌&&◌, ◌||◌};
ghost use Rattle.hipe_terms.specs.Outcome.{boolean, negation, head, tail, length_of, appended, element, element_set, size_of, has_arity, has_arity_at, nth, element_at, with_nth, element_set_at};
ghost use Rattle.hipe_terms.specs.Terms.{terms};
ghost use Rattle.hipe_terms.specs.Words.{list_words, tuple_words};
ghost use Rattle.eval_values.specs.Integers.{index_of, parts_of};
ghost use Rattle.eval_values.specs.Results.{outcome_in, arities_in};
ghost use Rattle.eval_values.specs.Values.{term_in, terms_in};

use crate::ends::{Ground, builds, gives};
use crate::list::{cells, elements, tuple};
use crate::numbers::integer_of;
use crate::result::Outcome;
use crate::value::{Shape, Value, shape_of};
use hipe_base::Memory;
use sqlite_items::{Items, at};

impl<'a> Ground<'a> {
    /// `not`.
    #[tactic(auto, using(crate::proofs::Rules::booleans))]
    pub fn negation(self, a: Value<'a>) -> Outcome<'a>
        ensures { outcome_in result ≡ negation (term_in a.entry) }
    {
        match self.boolean_of(a) {
            Some(b) => self.truth(!b),
            None => self.badarg(),
        }
    }

    /// `and`.
    #[tactic(auto, using(crate::proofs::Rules::booleans))]
    pub fn both(self, a: Value<'a>, b: Value<'a>) -> Outcome<'a>
        ensures { outcome_in result ≡ boolean (λ x y. x && y) (term_in a.entry) (term_in b.entry) }
    {
        match self.boolean_of(a) {
            Some(x) => match self.boolean_of(b) {
                Some(y) => self.truth(x && y),
                None => self.badarg(),
            },
            None => self.badarg(),
        }
    }

    /// `or`.
    #[tactic(auto, using(crate::proofs::Rules::booleans))]
    pub fn either(self, a: Value<'a>, b: Value<'a>) -> Outcome<'a>
        ensures { outcome_in result ≡ boolean (λ x y. x || y) (term_in a.entry) (term_in b.entry) }
    {
        match self.boolean_of(a) {
            Some(x) => match self.boolean_of(b) {
                Some(y) => self.truth(x || y),
                None => self.badarg(),
            },
            None => self.badarg(),
        }
    }

    /// `hd`.
    pub fn head(self, a: Value<'a>) -> Outcome<'a>
        ensures { outcome_in result ≡ head (term_in a.entry) }
    {
        match shape_of(a) {
            Shape::Cons(first, rest) => gives(first),
            Shape::Int(_) | Shape::Atom(_) => self.badarg(),
            Shape::Nil | Shape::Tuple(_) => self.badarg(),
            Shape::Fun(_, _) => self.badarg(),
        }
    }

    /// `tl`.
    pub fn tail(self, a: Value<'a>) -> Outcome<'a>
        ensures { outcome_in result ≡ tail (term_in a.entry) }
    {
        match shape_of(a) {
            Shape::Cons(first, rest) => gives(rest),
            Shape::Int(_) | Shape::Atom(_) => self.badarg(),
            Shape::Nil | Shape::Tuple(_) => self.badarg(),
            Shape::Fun(_, _) => self.badarg(),
        }
    }

    /// `length` of a proper list. An error where there is no memory for its elements.
    #[tactic(auto, using(crate::proofs::Rules::lists))]
    pub fn length(self, a: Value<'a>) -> Result<Outcome<'a>, Memory>
        ensures { IfOk result (λ o. outcome_in o ≡ length_of (term_in a.entry)) }
    {
        match elements(self.alloc, a)? {
            Some(found) => Ok(self.size(found.len())),
            None => Ok(self.badarg()),
        }
    }

    /// The left list is copied, and the right value is its tail.
    #[tactic(auto, using(crate::proofs::Rules::lists))]
    pub fn append(self, a: Value<'a>, b: Value<'a>) -> Result<Outcome<'a>, Memory>
        ensures { IfOk result (λ o. outcome_in o ≡ appended (term_in a.entry) (term_in b.entry)) }
    {
        match elements(self.alloc, a)? {
            Some(found) => {
                let list = cells(self.bump, found.as_slice(), b)?;
                Ok(builds(list, list_words(found.len())?))
            }
            None => Ok(self.badarg()),
        }
    }

    /// `tuple_size`.
    #[tactic(auto, using(crate::proofs::Rules::tuples))]
    pub fn tuple_size(self, a: Value<'a>) -> Outcome<'a>
        ensures { outcome_in result ≡ size_of (term_in a.entry) }
    {
        match shape_of(a) {
            Shape::Tuple(parts) => self.size(parts.len()),
            Shape::Int(_) | Shape::Atom(_) => self.badarg(),
            Shape::Nil | Shape::Cons(_, _) => self.badarg(),
            Shape::Fun(_, _) => self.badarg(),
        }
    }

    /// `element`: elements are counted from 1.
    #[tactic(auto, using(crate::proofs::Rules::tuples))]
    pub fn element(self, a: Value<'a>, b: Value<'a>) -> Outcome<'a>
        ensures { outcome_in result ≡ element (term_in a.entry) (term_in b.entry) }
    {
        match index_of(a) {
            Some(i) => match parts_of(b) {
                Some(parts) => self.nth(parts, i),
                None => self.badarg(),
            },
            None => self.badarg(),
        }
    }

    /// The element with this many before it.
    #[tactic(auto, using(crate::proofs::Rules::tuples))]
    fn nth(self, parts: &[Value<'a>], i: usize) -> Outcome<'a>
        ensures { outcome_in result ≡ element_at (nth (terms (terms_in parts.now)) i) }
    {
        match at(parts, i) {
            Some(part) => gives(*part),
            None => self.badarg(),
        }
    }

    /// A copy of the tuple with another element.
    #[tactic(auto, using(crate::proofs::Rules::tuples))]
    pub fn set_element(
        self,
        a: Value<'a>,
        b: Value<'a>,
        c: Value<'a>,
    ) -> Result<Outcome<'a>, Memory>
        ensures { IfOk result (λ o. outcome_in o ≡ element_set (term_in a.entry) (term_in b.entry) (term_in c.entry)) }
    {
        match index_of(a) {
            Some(i) => match parts_of(b) {
                Some(parts) => self.with_nth(parts, i, c),
                None => Ok(self.badarg()),
            },
            None => Ok(self.badarg()),
        }
    }

    /// A copy of a tuple of these elements with another at this index, counted from 0.
    #[tactic(auto, using(crate::proofs::Rules::tuples))]
    fn with_nth(self, parts: &[Value<'a>], i: usize, c: Value<'a>) -> Result<Outcome<'a>, Memory>
        ensures { IfOk result (λ o. outcome_in o ≡ element_set_at (with_nth (terms (terms_in parts.now)) i (term_in c.entry))) }
    {
        if i >= parts.len() {
            return Ok(self.badarg());
        }
        let mut copy = Items::from_slice(self.alloc, parts)?;
        copy.set(i, c);
        let words = tuple_words(copy.len())?;
        let value = tuple(self.bump, copy.as_slice())?;
        Ok(builds(value, words))
    }

    /// Whether a value is a fun of this arity.
    #[tactic(auto, using(crate::proofs::Rules::tuples))]
    pub fn has_arity(self, a: Value<'a>, b: Value<'a>) -> Outcome<'a>
        ensures { outcome_in result ≡ has_arity (arities_in self.entry.arities.now) (term_in a.entry) (term_in b.entry) }
    {
        match integer_of(b) {
            Some(n) => match u64::try_from(n) {
                Ok(n) => self.truth(self.is_of_arity(a, n)),
                Err(_) => self.badarg(),
            },
            None => self.badarg(),
        }
    }

    fn is_of_arity(self, a: Value<'_>, n: u64) -> bool
        ensures { result ≡ has_arity_at (arities_in self.entry.arities.now) (term_in a.entry) n }
    {
        match shape_of(a) {
            Shape::Fun(f, _) => self.arity_of(f) == n,
            Shape::Int(_) | Shape::Atom(_) => false,
            Shape::Nil | Shape::Cons(_, _) => false,
            Shape::Tuple(_) => false,
        }
    }

    /// The arity of the function of this number, and 0 where there is none.
    pub fn arity_of(self, f: u64) -> u64
        ensures { result ≡ arities_in self.entry.arities.now f }
    {
        match self.arities.get(f as usize) {
            Some(arity) => *arity,
            None => 0,
        }
    }
}

/// Two words for each element. An error where they don't fit.
fn list_words(n: usize) -> Result<u64, Memory>
    ensures { IfOk result (λ words. words ≡ list_words n) }
{
    match (n as u64).checked_mul(2) {
        Some(words) => Ok(words),
        None => Err(Memory),
    }
}

/// A word for each element, and one for the size. An error where they don't fit.
fn tuple_words(n: usize) -> Result<u64, Memory>
    ensures { IfOk result (λ words. words ≡ tuple_words n) }
{
    match (n as u64).checked_add(1) {
        Some(words) => Ok(words),
        None => Err(Memory),
    }
}

/// The index, counted from 0, of the element with this number, which is counted from 1.
#[tactic(auto, using(crate::proofs::Rules::tuples))]
fn index_of(a: Value<'_>) -> Option<usize>
    ensures { result ≡ index_of (term_in a.entry) }
{
    match integer_of(a) {
        Some(n) => match usize::try_from(n) {
            Ok(k) => k.checked_sub(1),
            Err(_) => None,
        },
        None => None,
    }
}

/// The elements of a tuple.
fn parts_of<'a>(a: Value<'a>) -> Option<&'a [Value<'a>]>
    ensures { option_map (λ ps. terms (terms_in ps.now)) result ≡ parts_of (term_in a.entry) }
{
    match shape_of(a) {
        Shape::Tuple(parts) => Some(parts),
        Shape::Int(_) | Shape::Atom(_) => None,
        Shape::Nil | Shape::Cons(_, _) => None,
        Shape::Fun(_, _) => None,
    }
}
