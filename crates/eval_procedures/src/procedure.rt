// A function by its number.

ghost use Rattle.std.specs.Prelude.{◌≡◌, length};
ghost use Rattle.core_ast.specs.Nodes.{expression_nodes, frame_of};
ghost use Rattle.core_ast.specs.Trees.{expression_of};

use crate::scope::Scope;
use core_ast::{Expr, Var};

/// A function: its parameters, its body, the scope that it captured with the number of its variables, the number of the first
/// fun in its body, and the words of the stack that one activation claims.
#[derive(Clone, Copy)]
pub struct Procedure<'a> {
    pub parameters: &'a [Var],
    pub body: &'a Expr,
    pub scope: Scope<'a>,
    pub captured: u64,
    pub first: u64,
    pub frame: u64,
    pub ghost claimed: { frame ≡ frame_of (expression_nodes (expression_of body.now)) (length parameters.now) captured },
}
