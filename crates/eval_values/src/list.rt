// Lists.

ghost use Rattle.std.specs.Prelude.{◌≡◌, map, option_map, IfOk};
ghost use Rattle.hipe_terms.specs.Outcome.{elements};
ghost use Rattle.hipe_terms.specs.Terms.{cons, tuple, terms, cells};
ghost use Rattle.eval_values.specs.Values.{term_in, terms_in};

use crate::value::{Cell, Value};
use bumpalo::Bump;
use hipe_base::Memory;
use std::alloc::Global;

/// The list with this first element and this rest. An error where there is no memory for it.
#[tactic(auto, using(crate::proofs::Levels::levels))]
pub fn cons<'a>(bump: &'a Bump, head: Value<'a>, tail: Value<'a>) -> Result<Value<'a>, Memory>
    ensures { IfOk result (λ v. term_in v ≡ cons (term_in head.entry) (term_in tail.entry)) }
{
    match bump.try_alloc(Cell { head, tail }) {
        Ok(cell) => Ok(Value::Cons(cell)),
        Err(_) => Err(Memory),
    }
}

/// The tuple of these elements. An error where there is no memory for it.
#[tactic(auto, using(crate::proofs::Levels::levels))]
pub fn tuple<'a>(bump: &'a Bump, elements: &[Value<'a>]) -> Result<Value<'a>, Memory>
    ensures { IfOk result (λ v. term_in v ≡ tuple (terms (terms_in elements.now))) }
{
    match bump.try_alloc_slice_copy(elements) {
        Ok(copy) => Ok(Value::Tuple(copy)),
        Err(_) => Err(Memory),
    }
}

/// The list with these elements before its tail. An error where there is no memory for its cells.
#[tactic(auto, using(crate::proofs::Levels::levels))]
pub fn cells<'a>(
    bump: &'a Bump,
    elements: &[Value<'a>],
    tail: Value<'a>,
) -> Result<Value<'a>, Memory>
    ensures { IfOk result (λ v. term_in v ≡ cells (terms_in elements.now) (term_in tail.entry)) }
{
    let mut list = tail;
    let mut left = elements.len();
    while left > 0 {
        left -= 1;
        list = cons(bump, elements[left], list)?;
    }
    Ok(list)
}

/// The elements of a proper list, or nothing where the value is none. An error where there is no memory for them.
#[tactic(auto, using(crate::proofs::Levels::levels))]
pub fn elements<'a>(alloc: Global, list: Value<'a>) -> Result<Option<Vec<Value<'a>>>, Memory>
    ensures { IfOk result (λ found. option_map (λ vs. terms_in vs.items) found ≡ elements (term_in list.entry)) }
{
    let mut found = Vec::new(alloc);
    let mut rest = list;
    while let Value::Cons(cell) = rest {
        found.push(cell.head)?;
        rest = cell.tail;
    }
    match rest {
        Value::Nil => Ok(Some(found)),
        _ => Ok(None),
    }
}
