// Patterns against values.

ghost use Rattle.std.specs.Prelude.{◌≡◌, map, option_map, IfOk};
ghost use Rattle.core_ast.specs.Trees.{pattern_of, patterns};
ghost use Rattle.core_meaning.specs.Matching.{Match, matched, matched_all, parts_of, is_this_integer, is_this_atom, is_nil};
ghost use Rattle.eval_values.specs.Values.{term_in, terms_in};
ghost use Rattle.hipe_terms.specs.Terms.{Term, terms};
ghost use Rattle.eval_contexts.specs.Matches.{after, where_matched, go_on, each_matched, cells_matched};

use core_ast::{PatNode, Pattern};
use eval_values::{Shape, Value, same_atom, shape_of};
use hipe_base::Memory;
use hipe_terms::Atom;
use std::alloc::Global;

/// What the variables of these patterns are bound to, in the order of the text, where there are as many patterns as values and each
/// pattern matches its value. An error where there is no memory for it.
#[tactic(auto, using(crate::proofs::Matched::whole))]
pub fn matched_all<'a>(
    alloc: Global,
    ps: &[Pattern],
    values: &[Value<'a>],
) -> Result<Option<Vec<Value<'a>>>, Memory>
    ensures { IfOk result (λ found. option_map (λ vs. terms_in vs.items) found ≡ matched_all (patterns (map pattern_of ps.now)) (terms (terms_in values.now))) }
{
    let mut bound = Vec::new(alloc);
    if each_matches(ps, values, &mut bound)? {
        Ok(Some(bound))
    } else {
        Ok(None)
    }
}

// Whether a pattern matches a value. Where it does, what its variables are bound to comes behind what was bound, in the order of the
// text.
#[cycle(matches)]
#[tactic(auto, using(crate::proofs::Matched::levels))]
fn matches<'a>(p: &Pattern, v: Value<'a>, bound: &mut Vec<Value<'a>>) -> Result<bool, Memory>
    ensures { IfOk result (λ b. where_matched b (terms_in bound.new.items) ≡ after (terms_in bound.old.items) (matched (pattern_of p.now) (term_in v.entry))) }
{
    match &p.node {
        PatNode::Var(_) => {
            bound.push(v)?;
            Ok(true)
        }
        PatNode::Int(n) => Ok(is_this_integer(*n, v)),
        PatNode::Atom(a) => Ok(is_this_atom(a, v)),
        PatNode::Nil => Ok(is_nil(v)),
        PatNode::Tuple(parts) => match shape_of(v) {
            Shape::Tuple(values) => each_matches(parts.as_slice(), values, bound),
            Shape::Int(_) | Shape::Atom(_) => Ok(false),
            Shape::Nil | Shape::Cons(_, _) => Ok(false),
            Shape::Fun(_, _) => Ok(false),
        },
        PatNode::List(parts, tail) => match cells_match(parts.as_slice(), v, bound)? {
            Some(rest) => matches(tail.get(), rest, bound),
            None => Ok(false),
        },
        PatNode::Alias(_, part) => {
            bound.push(v)?;
            let found = matches(part.get(), v, bound)?;
            Ok(found)
        }
    }
}

// Whether there are as many patterns as values, and each pattern matches its value.
#[cycle(matches)]
#[tactic(auto, using(crate::proofs::Matched::levels))]
fn each_matches<'a>(
    ps: &[Pattern],
    values: &[Value<'a>],
    bound: &mut Vec<Value<'a>>,
) -> Result<bool, Memory>
    ensures { IfOk result (λ b. where_matched b (terms_in bound.new.items) ≡ after (terms_in bound.old.items) (each_matched ps.now values.now)) }
{
    if ps.len() != values.len() {
        return Ok(false);
    }
    for (i, p) in ps.iter().enumerate() {
        if !matches(p, values[i], bound)? {
            return Ok(false);
        }
    }
    Ok(true)
}

// The rest of a list behind as many elements as there are patterns, where each pattern matches its element.
#[cycle(matches)]
#[tactic(auto, using(crate::proofs::Matched::levels))]
fn cells_match<'a>(
    ps: &[Pattern],
    v: Value<'a>,
    bound: &mut Vec<Value<'a>>,
) -> Result<Option<Value<'a>>, Memory>
    ensures { IfOk result (λ rest. (tail : Term → Match) → go_on rest (terms_in bound.new.items) tail ≡ after (terms_in bound.old.items) (cells_matched ps.now v.entry tail)) }
{
    let mut rest = v;
    for p in ps {
        match parts_of(rest) {
            Some((head, next)) => {
                if !matches(p, head, bound)? {
                    return Ok(None);
                }
                rest = next;
            }
            None => return Ok(None),
        }
    }
    Ok(Some(rest))
}

// The head and the tail of a list.
fn parts_of<'a>(v: Value<'a>) -> Option<(Value<'a>, Value<'a>)>
    ensures { option_map (λ p. (term_in p.0, term_in p.1)) result ≡ parts_of (term_in v.entry) }
{
    match shape_of(v) {
        Shape::Cons(head, tail) => Some((head, tail)),
        Shape::Int(_) | Shape::Atom(_) => None,
        Shape::Nil | Shape::Tuple(_) => None,
        Shape::Fun(_, _) => None,
    }
}

fn is_this_integer(n: i64, v: Value<'_>) -> bool
    ensures { result ≡ is_this_integer n (term_in v.entry) }
{
    match shape_of(v) {
        Shape::Int(m) => m == n,
        Shape::Atom(_) | Shape::Nil => false,
        Shape::Cons(_, _) | Shape::Tuple(_) => false,
        Shape::Fun(_, _) => false,
    }
}

fn is_this_atom(a: &Atom, v: Value<'_>) -> bool
    ensures { result ≡ is_this_atom a.now (term_in v.entry) }
{
    match shape_of(v) {
        Shape::Atom(b) => same_atom(a, b),
        Shape::Int(_) | Shape::Nil => false,
        Shape::Cons(_, _) | Shape::Tuple(_) => false,
        Shape::Fun(_, _) => false,
    }
}

fn is_nil(v: Value<'_>) -> bool
    ensures { result ≡ is_nil (term_in v.entry) }
{
    match shape_of(v) {
        Shape::Nil => true,
        Shape::Int(_) | Shape::Atom(_) => false,
        Shape::Cons(_, _) | Shape::Tuple(_) => false,
        Shape::Fun(_, _) => false,
    }
}
