// The nodes of functions.

ghost use Rattle.std.specs.Prelude.{◌≡◌, ◌-◌, ◌^◌, ℕ, map, length, IfOk};
ghost use Rattle.core_ast.specs.Nodes.{patterns_nodes, expression_nodes, frame_of};
ghost use Rattle.core_ast.specs.Trees.{pattern_of, patterns, expression_of};

use crate::count::add;
use core_ast::{Expr, Pattern, Var, count};
use hipe_base::Memory;

/// The words of the stack that one activation of a function with these parameters and this body claims, where it captures so many
/// variables. An error where the count passes 2^64 - 1.
pub fn frame(parameters: &[Var], body: &Expr, captured: u64) -> Result<u64, Memory>
    ensures { IfOk result (λ n. n ≡ frame_of (expression_nodes (expression_of body.now)) (length parameters.now) captured) }
{
    let named = add(expression_nodes(body)?, parameters.len() as u64)?;
    let units = add(named, captured)?;
    match units.checked_mul(4) {
        Some(words) => add(words, 16),
        None => Err(Memory),
    }
}

/// The nodes of an expression, itself among them. An error where they are more than 2^64 - 2, which no memory holds.
pub fn expression_nodes(e: &Expr) -> Result<u64, Memory>
    ensures { IfOk result (λ n. n ≡ expression_nodes (expression_of e.now)) }
{
    taken(count::expression(e, u64::MAX))
}

/// The nodes of these patterns together. An error where they are more than 2^64 - 2, which no memory holds.
pub fn patterns_nodes(list: &[Pattern]) -> Result<u64, Memory>
    ensures { IfOk result (λ n. n ≡ patterns_nodes (patterns (map pattern_of list.now))) }
{
    taken(count::patterns(list, u64::MAX))
}

// The count that leaves so much of a room of 2^64 - 1. An error where nothing is left.
fn taken(left: u64) -> Result<u64, Memory>
    ensures { IfOk result (λ n. (k : ℕ) → left ≡ 2 ^ 64 - 1 - k → n ≡ k) }
{
    if left == 0 {
        return Err(Memory);
    }
    Ok(u64::MAX - left)
}
