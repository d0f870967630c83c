// The sum that an expression is made as.

ghost use Rattle.std.specs.Prelude.{◌≡◌, [], ◌∷◌, map, IfOk};
ghost use Rattle.core_ast.specs.Trees.{expression_of, expressions};
ghost use Rattle.core_sum.specs.Made.{small, added, sum_in, sums_in};

use crate::name::is_addition;
use crate::sum::Sum;
use core_ast::{Expr, Node};
use hipe_base::Memory;
use sqlite_items::Boxed;
use std::alloc::Global;

// How far from 0 an integer of a sum goes.
const MOST: i64 = 999_999;

// An integer as a sum.
#[tactic(auto, using(crate::proofs::Levels::made))]
fn small(n: i64) -> Option<Sum>
    ensures { result ≡ small n }
{
    if -MOST <= n && n <= MOST {
        Some(Sum::Int(n))
    } else {
        None
    }
}

// The sum of two parts.
#[tactic(auto, using(crate::proofs::Levels::made))]
fn plus(alloc: Global, left: Option<Sum>, right: Option<Sum>) -> Result<Option<Sum>, Memory>
    ensures { IfOk result (λ sum. sum ≡ added (left ∷ right ∷ [])) }
{
    match (left, right) {
        (Some(left), Some(right)) => Ok(Some(Sum::Plus(
            Boxed::new(alloc, left)?,
            Boxed::new(alloc, right)?,
        ))),
        _ => Ok(None),
    }
}

/// The sum that an expression is made as, or none where it isn't made of small integers and calls of `erlang:'+'`.
#[cycle(sum)]
#[tactic(auto, using(crate::proofs::Parts::parts))]
pub fn sum_in(alloc: Global, e: &Expr) -> Result<Option<Sum>, Memory>
    ensures { IfOk result (λ sum. sum ≡ sum_in (expression_of e.now)) }
{
    match &e.node {
        Node::Int(n) => Ok(small(*n)),
        Node::Call(of, name, args) if is_addition(of, name) => addition(alloc, args.as_slice()),
        _ => Ok(None),
    }
}

// The sum of these two parts.
#[cycle(sum)]
#[tactic(auto, using(crate::proofs::Parts::parts))]
fn addition(alloc: Global, parts: &[Expr]) -> Result<Option<Sum>, Memory>
    ensures { IfOk result (λ sum. sum ≡ added (sums_in (expressions (map expression_of parts.now)))) }
{
    if parts.len() != 2 {
        return Ok(None);
    }
    let left = sum_in(alloc, &parts[0])?;
    let right = sum_in(alloc, &parts[1])?;
    plus(alloc, left, right)
}
