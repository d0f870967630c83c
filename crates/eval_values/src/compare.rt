// The order of values.

ghost use Rattle.std.specs.Prelude.{◌≡◌, ◌≤◌, length, IfOk, OnOk};
ghost use Rattle.std.specs.Ordering.{ordering_then};
ghost use Rattle.hipe_terms.specs.Order.{order, order_all, rank};
ghost use Rattle.hipe_terms.specs.Terms.{terms};
ghost use Rattle.eval_values.specs.Pairs.{first_order, kind_order, parts_order, rest_order, order_last};
ghost use Rattle.eval_values.specs.Values.{term_in, terms_in};

use crate::value::{Shape, Value, shape_of};
use hipe_base::Memory;
use std::alloc::Global;
use std::cmp::Ordering;

/// The order of two values: number < atom < fun < tuple < nil < list. An error where there is no memory for the pairs that are
/// still to be compared, or after 2^64 - 1 pairs.
#[tactic(auto, using(crate::proofs::Comparing::comparing))]
pub fn order<'a>(alloc: Global, a: Value<'a>, b: Value<'a>) -> Result<Ordering, Memory>
    ensures { IfOk result (λ o. o ≡ order (term_in a.entry) (term_in b.entry)) }
{
    let mut pairs = Vec::new(alloc);
    pairs.push((a, b))?;
    for _ in 0..u64::MAX {
        match pairs.pop() {
            None => return Ok(Ordering::Equal),
            Some((x, y)) => match first_order(x, y) {
                Ordering::Equal => push_parts(&mut pairs, x, y)?,
                unequal => return Ok(unequal),
            },
        }
    }
    Err(Memory)
}

/// The order of two values as far as it shows without their parts.
#[tactic(auto, using(crate::proofs::Comparing::comparing))]
fn first_order(a: Value<'_>, b: Value<'_>) -> Ordering
    ensures { result ≡ first_order (term_in a.entry) (term_in b.entry) }
{
    match rank(a).cmp(&rank(b)) {
        Ordering::Equal => kind_order(a, b),
        unequal => unequal,
    }
}

/// The order of two values of one kind as far as it shows without their parts.
#[tactic(auto, using(crate::proofs::Comparing::comparing))]
fn kind_order(a: Value<'_>, b: Value<'_>) -> Ordering
    ensures { result ≡ kind_order (term_in a.entry) (term_in b.entry) }
{
    match shape_of(a) {
        Shape::Int(m) => match shape_of(b) {
            Shape::Int(n) => m.cmp(&n),
            Shape::Atom(_) | Shape::Nil => Ordering::Equal,
            Shape::Cons(_, _) | Shape::Tuple(_) => Ordering::Equal,
            Shape::Fun(_, _) => Ordering::Equal,
        },
        Shape::Atom(x) => match shape_of(b) {
            Shape::Atom(y) => x.order(y),
            Shape::Int(_) | Shape::Nil => Ordering::Equal,
            Shape::Cons(_, _) | Shape::Tuple(_) => Ordering::Equal,
            Shape::Fun(_, _) => Ordering::Equal,
        },
        Shape::Fun(m, _) => match shape_of(b) {
            Shape::Fun(n, _) => m.cmp(&n),
            Shape::Int(_) | Shape::Atom(_) => Ordering::Equal,
            Shape::Nil | Shape::Cons(_, _) => Ordering::Equal,
            Shape::Tuple(_) => Ordering::Equal,
        },
        Shape::Tuple(xs) => match shape_of(b) {
            Shape::Tuple(ys) => xs.len().cmp(&ys.len()),
            Shape::Int(_) | Shape::Atom(_) => Ordering::Equal,
            Shape::Nil | Shape::Cons(_, _) => Ordering::Equal,
            Shape::Fun(_, _) => Ordering::Equal,
        },
        Shape::Nil | Shape::Cons(_, _) => Ordering::Equal,
    }
}

/// The number of a value's kind in the order of the kinds.
fn rank(a: Value<'_>) -> u8
    ensures { result ≡ rank (term_in a.entry) }
{
    match shape_of(a) {
        Shape::Int(_) => 0,
        Shape::Atom(_) => 1,
        Shape::Fun(_, _) => 2,
        Shape::Tuple(_) => 3,
        Shape::Nil => 4,
        Shape::Cons(_, _) => 5,
    }
}

/// Puts the pairs of parts of two values of one kind behind the others, the first pair last.
#[tactic(auto, using(crate::proofs::Comparing::comparing))]
fn push_parts<'a>(
    pairs: &mut Vec<(Value<'a>, Value<'a>)>,
    a: Value<'a>,
    b: Value<'a>,
) -> Result<(), Memory>
    ensures { OnOk result (order_last pairs.new.items ≡ ordering_then (parts_order (term_in a.entry) (term_in b.entry)) (order_last pairs.old.items)) }
{
    match shape_of(a) {
        Shape::Int(_) | Shape::Atom(_) => Ok(()),
        Shape::Nil => Ok(()),
        Shape::Cons(x, xs) => match shape_of(b) {
            Shape::Cons(y, ys) => {
                push(pairs, xs, ys)?;
                push(pairs, x, y)
            }
            Shape::Int(_) | Shape::Atom(_) => Ok(()),
            Shape::Nil | Shape::Tuple(_) => Ok(()),
            Shape::Fun(_, _) => Ok(()),
        },
        Shape::Tuple(xs) => match shape_of(b) {
            Shape::Tuple(ys) => push_each(pairs, xs, ys),
            Shape::Int(_) | Shape::Atom(_) => Ok(()),
            Shape::Nil | Shape::Cons(_, _) => Ok(()),
            Shape::Fun(_, _) => Ok(()),
        },
        Shape::Fun(_, xs) => match shape_of(b) {
            Shape::Fun(_, ys) => push_each(pairs, xs, ys),
            Shape::Int(_) | Shape::Atom(_) => Ok(()),
            Shape::Nil | Shape::Cons(_, _) => Ok(()),
            Shape::Tuple(_) => Ok(()),
        },
    }
}

/// Puts a pair behind the others.
#[tactic(auto, using(crate::proofs::Comparing::comparing))]
fn push<'a>(
    pairs: &mut Vec<(Value<'a>, Value<'a>)>,
    a: Value<'a>,
    b: Value<'a>,
) -> Result<(), Memory>
    ensures { OnOk result (order_last pairs.new.items ≡ ordering_then (order (term_in a.entry) (term_in b.entry)) (order_last pairs.old.items)) }
{
    match pairs.push((a, b)) {
        Ok(()) => Ok(()),
        Err(_) => Err(Memory),
    }
}

/// Puts the pairs of elements of two lists behind the others, the first pair last, and before them a pair that is in the order
/// of their lengths.
#[tactic(auto, using(crate::proofs::Comparing::comparing))]
fn push_each<'a>(
    pairs: &mut Vec<(Value<'a>, Value<'a>)>,
    xs: &[Value<'a>],
    ys: &[Value<'a>],
) -> Result<(), Memory>
    ensures { OnOk result (order_last pairs.new.items ≡ ordering_then (order_all (terms (terms_in xs.now)) (terms (terms_in ys.now))) (order_last pairs.old.items)) }
{
    let mut left = push_rest(pairs, xs, ys)?;
    while left > 0 {
        left -= 1;
        push(pairs, xs[left], ys[left])?;
    }
    Ok(())
}

/// Puts a pair behind the others that is in the order of two lists behind as many elements as both have, where they are not
/// of one length, and gives that number.
#[tactic(auto, using(crate::proofs::Comparing::comparing))]
fn push_rest<'a>(
    pairs: &mut Vec<(Value<'a>, Value<'a>)>,
    xs: &[Value<'a>],
    ys: &[Value<'a>],
) -> Result<usize, Memory>
    ensures first { IfOk result (λ n. n ≤ length xs.now) }
    ensures second { IfOk result (λ n. n ≤ length ys.now) }
    ensures order { IfOk result (λ n. order_last pairs.new.items ≡ ordering_then (rest_order n xs.now ys.now) (order_last pairs.old.items)) }
{
    if xs.len() < ys.len() {
        push(pairs, Value::Int(0), Value::Int(1))?;
        return Ok(xs.len());
    }
    if ys.len() < xs.len() {
        push(pairs, Value::Int(1), Value::Int(0))?;
        return Ok(ys.len());
    }
    Ok(xs.len())
}
