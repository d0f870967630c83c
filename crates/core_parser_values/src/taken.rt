// The value on top of the stack, as one of a kind. A value of another kind doesn't come in a run of the parser; it is taken
// for one without parts.

ghost use Rattle.std.specs.Prelude.{◌≡◌, [], IfOk};
ghost use Rattle.core_parser.specs.Values.{nowhere, top, below, to_place, to_atom, to_name, to_variable, to_variables, to_constant, to_constants, to_pattern, to_patterns, to_expression, to_expressions, to_clauses, to_fun, to_definitions, to_exports, to_attributes, to_module, to_call};

use crate::stack::Stack;
use core_ast::{
    Clause, Expr, Fun, FunDef, FunName, Module, Node, PatNode, Pattern, Var, VariableName,
};
use core_parser::Value;
use hipe_base::Memory;
use hipe_terms::{Atom, Call, Constant, Place};
use sqlite_items::{Boxed, Items};
use std::alloc::Global;

// Lets a value go. A value of a kind that no function below knows is let go here, and nowhere else.
fn discard(_value: Value) {}

/// The place of what has none.
pub fn nowhere() -> Place
    ensures { result ≡ nowhere }
{
    Place { line: 0, col: 0 }
}

/// The atom without characters.
#[tactic(auto, using(crate::proofs::Empty::empty_text))]
pub fn no_atom(alloc: Global) -> Atom
    ensures { result ≡ [] }
{
    match Atom::new(String::new(alloc)) {
        Ok(atom) => atom,
        Err(_) => unreachable!(),
    }
}

/// Takes the top off; where there is none, it is a place that is nowhere.
pub fn take(values: &mut Stack<Value>) -> Value
    ensures top { result ≡ top values.old }
    ensures below { values.new ≡ below values.old }
{
    match values.pop() {
        Some(value) => value,
        None => Value::At(nowhere()),
    }
}

/// Lets the top go.
pub fn drop_top(values: &mut Stack<Value>)
    ensures { values.new ≡ below values.old }
{
    discard(take(values));
}

/// A place.
pub fn to_place(value: Value) -> Place
    ensures { result ≡ to_place value }
{
    match value {
        Value::At(found) => found,
        other => {
            discard(other);
            nowhere()
        }
    }
}

/// An atom.
pub fn to_atom(alloc: Global, value: Value) -> Atom
    ensures { result ≡ to_atom value }
{
    match value {
        Value::Atom(found) => found,
        other => {
            discard(other);
            no_atom(alloc)
        }
    }
}

/// The name of a function.
pub fn to_name(alloc: Global, value: Value) -> FunName
    ensures { result ≡ to_name value }
{
    match value {
        Value::Name(found) => found,
        other => {
            discard(other);
            FunName {
                name: no_atom(alloc),
                arity: 0,
            }
        }
    }
}

/// A variable.
pub fn to_variable(alloc: Global, value: Value) -> Var
    ensures { result ≡ to_variable value }
{
    match value {
        Value::Variable(found) => found,
        other => {
            discard(other);
            Var {
                name: VariableName::new(String::new(alloc)),
                at: nowhere(),
            }
        }
    }
}

/// Variables.
pub fn to_variables(alloc: Global, value: Value) -> Items<Var>
    ensures { result ≡ to_variables value }
{
    match value {
        Value::Variables(found) => found,
        other => {
            discard(other);
            Items::new(alloc)
        }
    }
}

/// A constant.
#[tactic(auto, unfolding(core_grammar::specs::Trees::constant_of))]
pub fn to_constant(value: Value) -> Constant
    ensures { result ≡ to_constant value }
{
    match value {
        Value::Constant(found) => found,
        other => {
            discard(other);
            Constant::Nil
        }
    }
}

/// Constants.
pub fn to_constants(alloc: Global, value: Value) -> Items<Constant>
    ensures { result ≡ to_constants value }
{
    match value {
        Value::Constants(found) => found,
        other => {
            discard(other);
            Items::new(alloc)
        }
    }
}

/// A pattern.
#[tactic(auto, unfolding(core_grammar::specs::Trees::pattern_at))]
pub fn to_pattern(value: Value) -> Pattern
    ensures { result ≡ to_pattern value }
{
    match value {
        Value::Pattern(found) => found,
        other => {
            discard(other);
            Pattern {
                node: PatNode::Nil,
                at: nowhere(),
            }
        }
    }
}

/// Patterns.
pub fn to_patterns(alloc: Global, value: Value) -> Items<Pattern>
    ensures { result ≡ to_patterns value }
{
    match value {
        Value::Patterns(found) => found,
        other => {
            discard(other);
            Items::new(alloc)
        }
    }
}

/// An expression.
#[tactic(auto, unfolding(core_grammar::specs::Trees::expression_at))]
pub fn to_expression(value: Value) -> Expr
    ensures { result ≡ to_expression value }
{
    match value {
        Value::Expression(found) => found,
        other => {
            discard(other);
            Expr {
                node: Node::Nil,
                at: nowhere(),
            }
        }
    }
}

/// Expressions.
pub fn to_expressions(alloc: Global, value: Value) -> Items<Expr>
    ensures { result ≡ to_expressions value }
{
    match value {
        Value::Expressions(found) => found,
        other => {
            discard(other);
            Items::new(alloc)
        }
    }
}

/// Clauses.
pub fn to_clauses(alloc: Global, value: Value) -> Items<Clause>
    ensures { result ≡ to_clauses value }
{
    match value {
        Value::Clauses(found) => found,
        other => {
            discard(other);
            Items::new(alloc)
        }
    }
}

// A fun without parameters, whose body is the empty list.
#[tactic(auto, unfolding(core_grammar::specs::Trees::expression_at, core_grammar::specs::Trees::fun_at))]
fn no_fun(alloc: Global) -> Result<Fun, Memory>
    ensures { IfOk result (λ f. f ≡ to_fun (top [])) }
{
    let body = Expr {
        node: Node::Nil,
        at: nowhere(),
    };
    Ok(Fun {
        params: Items::new(alloc),
        body: Boxed::new(alloc, body)?,
        at: nowhere(),
    })
}

/// A fun. The error is that memory ran out.
pub fn to_fun(alloc: Global, value: Value) -> Result<Fun, Memory>
    ensures { IfOk result (λ f. f ≡ to_fun value) }
{
    match value {
        Value::Fun(found) => Ok(found),
        other => {
            discard(other);
            no_fun(alloc)
        }
    }
}

/// Definitions.
pub fn to_definitions(alloc: Global, value: Value) -> Items<FunDef>
    ensures { result ≡ to_definitions value }
{
    match value {
        Value::Definitions(found) => found,
        other => {
            discard(other);
            Items::new(alloc)
        }
    }
}

/// Exports.
pub fn to_exports(alloc: Global, value: Value) -> Items<(FunName, Place)>
    ensures { result ≡ to_exports value }
{
    match value {
        Value::Exports(found) => found,
        other => {
            discard(other);
            Items::new(alloc)
        }
    }
}

/// Attributes.
pub fn to_attributes(alloc: Global, value: Value) -> Items<(Atom, Constant)>
    ensures { result ≡ to_attributes value }
{
    match value {
        Value::Attributes(found) => found,
        other => {
            discard(other);
            Items::new(alloc)
        }
    }
}

/// A module.
pub fn to_module(alloc: Global, value: Value) -> Module
    ensures { result ≡ to_module value }
{
    match value {
        Value::Module(found) => found,
        other => {
            discard(other);
            Module {
                name: no_atom(alloc),
                exports: Items::new(alloc),
                attributes: Items::new(alloc),
                defs: Items::new(alloc),
            }
        }
    }
}

/// A call.
pub fn to_call(alloc: Global, value: Value) -> Call
    ensures { result ≡ to_call value }
{
    match value {
        Value::Call(found) => found,
        other => {
            discard(other);
            Call {
                name: no_atom(alloc),
                args: Items::new(alloc),
            }
        }
    }
}
