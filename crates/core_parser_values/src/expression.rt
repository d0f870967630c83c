// Expressions.

ghost use Rattle.std.specs.Prelude.{◌≡◌, ◌∷◌, OnOk};
ghost use Rattle.core_parser.specs.declared.value.Value.{Value as AValue};
ghost use Rattle.core_parser.specs.Values as V;
ghost use Rattle.core_parser.specs.Values.{top, below, to_place, literal, name, with_arity, lets, case, lambda, letrec, apply, call, primop, tries, sequence, caught};

use crate::stack::Stack;
use crate::taken::{
    take, to_atom, to_clauses, to_definitions, to_expression, to_expressions, to_fun, to_name,
    to_place, to_variables,
};
use core_ast::{Expr, FunName, Node};
use core_parser::Value;
use hipe_base::Memory;
use sqlite_items::Boxed;
use std::alloc::Global;

// An expression, at the place on top.
fn push_at(values: &mut Stack<Value>, node: Node) -> Result<(), Memory>
    ensures { OnOk result (values.new ≡ AValue.Expression (record { node = node; at = to_place (top values.old) }) ∷ below values.old) }
{
    let at = to_place(take(values));
    values.push(Value::Expression(Expr { node, at }))
}

/// An atom, as an expression.
#[tactic(auto, unfolding(core_grammar::specs::Trees::expression_at))]
pub fn literal(alloc: Global, values: &mut Stack<Value>) -> Result<(), Memory>
    ensures { OnOk result (values.new ≡ literal values.old) }
{
    let atom = to_atom(alloc, take(values));
    push_at(values, Node::Atom(atom))
}

/// The name of a function, as an expression.
#[tactic(auto, unfolding(core_grammar::specs::Trees::expression_at))]
pub fn name(alloc: Global, values: &mut Stack<Value>) -> Result<(), Memory>
    ensures { OnOk result (values.new ≡ name values.old) }
{
    let name = to_name(alloc, take(values));
    push_at(values, Node::Name(name))
}

/// An atom becomes the name of a function with this number of parameters.
pub fn with_arity(alloc: Global, arity: u64, values: &mut Stack<Value>) -> Result<(), Memory>
    ensures { OnOk result (values.new ≡ with_arity arity values.old) }
{
    let name = to_atom(alloc, take(values));
    values.push(Value::Name(FunName { name, arity }))
}

/// Values.
#[tactic(auto, unfolding(core_grammar::specs::Trees::expression_at))]
pub fn several(alloc: Global, values: &mut Stack<Value>) -> Result<(), Memory>
    ensures { OnOk result (values.new ≡ V.values values.old) }
{
    let parts = to_expressions(alloc, take(values));
    push_at(values, Node::Values(parts))
}

/// A `let`.
#[tactic(auto, unfolding(core_grammar::specs::Trees::expression_at))]
pub fn bind(alloc: Global, values: &mut Stack<Value>) -> Result<(), Memory>
    ensures { OnOk result (values.new ≡ lets values.old) }
{
    let body = Boxed::new(alloc, to_expression(take(values)))?;
    let bound = Boxed::new(alloc, to_expression(take(values)))?;
    let variables = to_variables(alloc, take(values));
    push_at(values, Node::Let(variables, bound, body))
}

/// A `case`.
#[tactic(auto, unfolding(core_grammar::specs::Trees::expression_at))]
pub fn case(alloc: Global, values: &mut Stack<Value>) -> Result<(), Memory>
    ensures { OnOk result (values.new ≡ case values.old) }
{
    let clauses = to_clauses(alloc, take(values));
    let subject = Boxed::new(alloc, to_expression(take(values)))?;
    push_at(values, Node::Case(subject, clauses))
}

/// A fun, as an expression.
#[tactic(auto, unfolding(core_grammar::specs::Trees::expression_at))]
pub fn lambda(alloc: Global, values: &mut Stack<Value>) -> Result<(), Memory>
    ensures { OnOk result (values.new ≡ lambda values.old) }
{
    let fun = to_fun(alloc, take(values))?;
    push_at(values, Node::Lambda(fun))
}

/// A `letrec`.
#[tactic(auto, unfolding(core_grammar::specs::Trees::expression_at))]
pub fn letrec(alloc: Global, values: &mut Stack<Value>) -> Result<(), Memory>
    ensures { OnOk result (values.new ≡ letrec values.old) }
{
    let body = Boxed::new(alloc, to_expression(take(values)))?;
    let definitions = to_definitions(alloc, take(values));
    push_at(values, Node::Letrec(definitions, body))
}

/// An `apply`.
#[tactic(auto, unfolding(core_grammar::specs::Trees::expression_at))]
pub fn apply(alloc: Global, values: &mut Stack<Value>) -> Result<(), Memory>
    ensures { OnOk result (values.new ≡ apply values.old) }
{
    let arguments = to_expressions(alloc, take(values));
    let fun = Boxed::new(alloc, to_expression(take(values)))?;
    push_at(values, Node::Apply(fun, arguments))
}

/// A `call`.
#[tactic(auto, unfolding(core_grammar::specs::Trees::expression_at))]
pub fn call(alloc: Global, values: &mut Stack<Value>) -> Result<(), Memory>
    ensures { OnOk result (values.new ≡ call values.old) }
{
    let arguments = to_expressions(alloc, take(values));
    let name = to_atom(alloc, take(values));
    let module = to_atom(alloc, take(values));
    push_at(values, Node::Call(module, name, arguments))
}

/// A `primop`.
#[tactic(auto, unfolding(core_grammar::specs::Trees::expression_at))]
pub fn primop(alloc: Global, values: &mut Stack<Value>) -> Result<(), Memory>
    ensures { OnOk result (values.new ≡ primop values.old) }
{
    let arguments = to_expressions(alloc, take(values));
    let name = to_atom(alloc, take(values));
    push_at(values, Node::Primop(name, arguments))
}

/// A `try`.
#[tactic(auto, unfolding(core_grammar::specs::Trees::expression_at))]
pub fn attempt(alloc: Global, values: &mut Stack<Value>) -> Result<(), Memory>
    ensures { OnOk result (values.new ≡ tries values.old) }
{
    let handler = Boxed::new(alloc, to_expression(take(values)))?;
    let causes = to_variables(alloc, take(values));
    let body = Boxed::new(alloc, to_expression(take(values)))?;
    let variables = to_variables(alloc, take(values));
    let part = Boxed::new(alloc, to_expression(take(values)))?;
    push_at(values, Node::Try(part, variables, body, causes, handler))
}

/// A `do`.
#[tactic(auto, unfolding(core_grammar::specs::Trees::expression_at))]
pub fn sequence(alloc: Global, values: &mut Stack<Value>) -> Result<(), Memory>
    ensures { OnOk result (values.new ≡ sequence values.old) }
{
    let second = Boxed::new(alloc, to_expression(take(values)))?;
    let first = Boxed::new(alloc, to_expression(take(values)))?;
    push_at(values, Node::Do(first, second))
}

/// A `catch`.
#[tactic(auto, unfolding(core_grammar::specs::Trees::expression_at))]
pub fn caught(alloc: Global, values: &mut Stack<Value>) -> Result<(), Memory>
    ensures { OnOk result (values.new ≡ caught values.old) }
{
    let part = Boxed::new(alloc, to_expression(take(values)))?;
    push_at(values, Node::Catch(part))
}
