// The order of constants.

ghost use Rattle.std.specs.Prelude.{◌≡◌, ◌↔◌, map, length, IsTrue};
ghost use Rattle.std.specs.Ordering.{ordering_then, nat_cmp};
ghost use Rattle.hipe_terms.specs.Constants.{IsConstant, AreConstants};
ghost use Rattle.hipe_terms.specs.Laws.{OrderIsTotal, OrderTellsApart};
ghost use Rattle.hipe_terms.specs.Order.{order, order_common};
ghost use Rattle.hipe_terms.specs.Terms.{term_of, tuple, terms};

use crate::constant::Constant;
use std::cmp::Ordering;

/// The order of two constants, as their terms': number < atom < tuple < nil < list. Atoms compare by code points,
/// tuples by size and then by elements, and lists element by element and then by tail. It takes no memory, and its
/// depth is the constants' nesting.
#[cycle(order)]
#[tactic(auto, using(crate::proofs::Levels::term_levels))]
pub fn order(a: &Constant, b: &Constant) -> Ordering
    requires first { IsConstant a.now }
    requires second { IsConstant b.now }
    ensures { result ≡ order (term_of a.now) (term_of b.now) }
{
    match a {
        Constant::Int(m) => match b {
            Constant::Int(n) => m.cmp(n),
            Constant::Atom(_) | Constant::Tuple(_) | Constant::Nil => Ordering::Less,
            Constant::List(_, _) => Ordering::Less,
        },
        Constant::Atom(x) => match b {
            Constant::Int(_) => Ordering::Greater,
            Constant::Atom(y) => x.order(y),
            Constant::Tuple(_) | Constant::Nil => Ordering::Less,
            Constant::List(_, _) => Ordering::Less,
        },
        Constant::Tuple(xs) => match b {
            Constant::Int(_) | Constant::Atom(_) => Ordering::Greater,
            Constant::Tuple(ys) => order_tuples(xs.as_slice(), ys.as_slice()),
            Constant::Nil => Ordering::Less,
            Constant::List(_, _) => Ordering::Less,
        },
        Constant::Nil => match b {
            Constant::Int(_) | Constant::Atom(_) | Constant::Tuple(_) => Ordering::Greater,
            Constant::Nil => Ordering::Equal,
            Constant::List(_, _) => Ordering::Less,
        },
        Constant::List(xs, x) => match b {
            Constant::List(ys, y) => match order_lists(xs.as_slice(), ys.as_slice()) {
                Ordering::Equal => order(x.get(), y.get()),
                unequal => unequal,
            },
            _ => Ordering::Greater,
        },
    }
}

/// Whether two constants are equal. It takes no memory.
#[tactic(auto, using(crate::proofs::TotalOrder::order_tells_apart))]
pub fn same(a: &Constant, b: &Constant) -> bool
    requires first { IsConstant a.now }
    requires second { IsConstant b.now }
    ensures { IsTrue result ↔ (term_of a.now ≡ term_of b.now) }
{
    order(a, b) == Ordering::Equal
}

/// The order of terms is total: of two terms one comes first, or neither, whichever is asked about, and what comes before
/// another comes before all that come after that one.
pub fn order_is_total()
    ensures { OrderIsTotal }
{}

/// The order of terms tells all terms apart: neither of two comes first if and only if they are equal.
pub fn order_tells_apart()
    ensures { OrderTellsApart }
{}

// The order of two tuples of these elements.
#[cycle(order)]
#[tactic(auto, using(crate::proofs::Levels::term_levels))]
fn order_tuples(xs: &[Constant], ys: &[Constant]) -> Ordering
    requires first { AreConstants xs.now }
    requires second { AreConstants ys.now }
    ensures { result ≡ order (tuple (terms (map term_of xs.now))) (tuple (terms (map term_of ys.now))) }
{
    match xs.len().cmp(&ys.len()) {
        Ordering::Equal => order_each(xs, ys),
        unequal => unequal,
    }
}

// The order of two lists of these elements by all but their tails, which are no lists.
#[cycle(order)]
#[tactic(auto, using(crate::proofs::Levels::term_levels))]
fn order_lists(xs: &[Constant], ys: &[Constant]) -> Ordering
    requires first { AreConstants xs.now }
    requires second { AreConstants ys.now }
    ensures { result ≡ ordering_then (order_common (map term_of xs.now) (map term_of ys.now)) (nat_cmp (length xs.now) (length ys.now)) }
{
    match order_each(xs, ys) {
        Ordering::Equal => xs.len().cmp(&ys.len()),
        unequal => unequal,
    }
}

// The order of the first two that differ, of as many as both have.
#[cycle(order)]
#[tactic(auto, using(crate::proofs::Levels::term_levels))]
fn order_each(xs: &[Constant], ys: &[Constant]) -> Ordering
    requires first { AreConstants xs.now }
    requires second { AreConstants ys.now }
    ensures { result ≡ order_common (map term_of xs.now) (map term_of ys.now) }
{
    for (i, x) in xs.iter().enumerate() {
        match ys.get(i) {
            Some(y) => match order(x, y) {
                Ordering::Equal => {}
                unequal => return unequal,
            },
            None => return Ordering::Equal,
        }
    }
    Ordering::Equal
}
