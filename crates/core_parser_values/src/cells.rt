// Lists, and tuples.

ghost use Rattle.std.specs.Prelude.{◌≡◌, ◌∷◌, OnOk, IfOk};
ghost use Rattle.core_parser.specs.declared.symbol.Term.{Term as ATerm};
ghost use Rattle.core_grammar.specs.Trees.{cells, pattern_cells, constant_cells};
ghost use Rattle.core_parser.specs.Values.{no_cells, all_cells, joined, continued, tuple};

use crate::stack::Stack;
use crate::taken::{
    drop_top, take, to_constant, to_constants, to_expression, to_expressions, to_pattern,
    to_patterns, to_place,
};
use core_ast::{Expr, Node, PatNode, Pattern};
use core_parser::{Term, Value};
use hipe_base::Memory;
use hipe_terms::{Constant, Place};
use sqlite_items::{Boxed, Items};
use std::alloc::Global;

/// A list with no element.
#[tactic(auto, unfolding(core_grammar::specs::Trees::expression_at, core_grammar::specs::Trees::pattern_at, core_grammar::specs::Trees::constant_of))]
pub fn no_cells(term: Term, values: &mut Stack<Value>) -> Result<(), Memory>
    ensures { OnOk result (values.new ≡ no_cells term values.old) }
{
    drop_top(values);
    drop_top(values);
    let at = to_place(take(values));
    match term {
        Term::Expression(_) => values.push(Value::Expression(Expr {
            node: Node::Nil,
            at,
        })),
        Term::Pattern(_) => values.push(Value::Pattern(Pattern {
            node: PatNode::Nil,
            at,
        })),
        Term::Constant(_) => values.push(Value::Constant(Constant::Nil)),
    }
}

#[tactic(auto, unfolding(core_grammar::specs::Trees::expression_at))]
fn all_expressions(alloc: Global, values: &mut Stack<Value>) -> Result<(), Memory>
    ensures { OnOk result (values.new ≡ all_cells (ATerm.Expression 0) values.old) }
{
    let parts = to_expressions(alloc, take(values));
    let end = Expr {
        node: Node::Nil,
        at: to_place(take(values)),
    };
    let tail = Boxed::new(alloc, end)?;
    let at = to_place(take(values));
    values.push(Value::Expression(Expr {
        node: Node::List(parts, tail),
        at,
    }))
}

#[tactic(auto, unfolding(core_grammar::specs::Trees::pattern_at))]
fn all_patterns(alloc: Global, values: &mut Stack<Value>) -> Result<(), Memory>
    ensures { OnOk result (values.new ≡ all_cells (ATerm.Pattern 0) values.old) }
{
    let parts = to_patterns(alloc, take(values));
    let end = Pattern {
        node: PatNode::Nil,
        at: to_place(take(values)),
    };
    let tail = Boxed::new(alloc, end)?;
    let at = to_place(take(values));
    values.push(Value::Pattern(Pattern {
        node: PatNode::List(parts, tail),
        at,
    }))
}

#[tactic(auto, unfolding(core_grammar::specs::Trees::constant_of))]
fn all_constants(alloc: Global, values: &mut Stack<Value>) -> Result<(), Memory>
    ensures { OnOk result (values.new ≡ all_cells (ATerm.Constant 0) values.old) }
{
    let parts = to_constants(alloc, take(values));
    drop_top(values);
    drop_top(values);
    let tail = Boxed::new(alloc, Constant::Nil)?;
    values.push(Value::Constant(Constant::List(parts, tail)))
}

/// A list with elements, and no other tail.
pub fn all_cells(alloc: Global, term: Term, values: &mut Stack<Value>) -> Result<(), Memory>
    ensures { OnOk result (values.new ≡ all_cells term values.old) }
{
    match term {
        Term::Expression(_) => all_expressions(alloc, values),
        Term::Pattern(_) => all_patterns(alloc, values),
        Term::Constant(_) => all_constants(alloc, values),
    }
}

// The list of a place with these elements before a tail.
#[tactic(auto, unfolding(core_grammar::specs::Trees::expression_at))]
fn expression_cells(
    alloc: Global,
    at: Place,
    parts: Items<Expr>,
    tail: Expr,
) -> Result<Expr, Memory>
    ensures { IfOk result (λ e. e ≡ cells at parts tail) }
{
    let mut parts = parts;
    let Expr { node, at: end_at } = tail;
    match node {
        Node::List(more, end) => {
            parts.append(more)?;
            Ok(Expr {
                node: Node::List(parts, end),
                at,
            })
        }
        node => {
            let tail = Boxed::new(alloc, Expr { node, at: end_at })?;
            Ok(Expr {
                node: Node::List(parts, tail),
                at,
            })
        }
    }
}

// The list of a place with these elements before a tail.
#[tactic(auto, unfolding(core_grammar::specs::Trees::pattern_at))]
fn pattern_cells(
    alloc: Global,
    at: Place,
    parts: Items<Pattern>,
    tail: Pattern,
) -> Result<Pattern, Memory>
    ensures { IfOk result (λ f. f ≡ pattern_cells at parts tail) }
{
    let mut parts = parts;
    let Pattern { node, at: end_at } = tail;
    match node {
        PatNode::List(more, end) => {
            parts.append(more)?;
            Ok(Pattern {
                node: PatNode::List(parts, end),
                at,
            })
        }
        node => {
            let tail = Boxed::new(alloc, Pattern { node, at: end_at })?;
            Ok(Pattern {
                node: PatNode::List(parts, tail),
                at,
            })
        }
    }
}

// These elements before a tail.
#[tactic(auto, unfolding(core_grammar::specs::Trees::constant_of))]
fn constant_cells(alloc: Global, parts: Items<Constant>, tail: Constant) -> Result<Constant, Memory>
    ensures { IfOk result (λ c. c ≡ constant_cells parts tail) }
{
    let mut parts = parts;
    match tail {
        Constant::List(more, end) => {
            parts.append(more)?;
            Ok(Constant::List(parts, end))
        }
        tail => {
            let tail = Boxed::new(alloc, tail)?;
            Ok(Constant::List(parts, tail))
        }
    }
}

fn join_expression(alloc: Global, values: &mut Stack<Value>) -> Result<(), Memory>
    ensures { OnOk result (values.new ≡ joined (ATerm.Expression 0) values.old) }
{
    let tail = to_expression(take(values));
    let parts = to_expressions(alloc, take(values));
    drop_top(values);
    let at = to_place(take(values));
    let list = expression_cells(alloc, at, parts, tail)?;
    values.push(Value::Expression(list))
}

fn join_pattern(alloc: Global, values: &mut Stack<Value>) -> Result<(), Memory>
    ensures { OnOk result (values.new ≡ joined (ATerm.Pattern 0) values.old) }
{
    let tail = to_pattern(take(values));
    let parts = to_patterns(alloc, take(values));
    drop_top(values);
    let at = to_place(take(values));
    let list = pattern_cells(alloc, at, parts, tail)?;
    values.push(Value::Pattern(list))
}

fn join_constant(alloc: Global, values: &mut Stack<Value>) -> Result<(), Memory>
    ensures { OnOk result (values.new ≡ joined (ATerm.Constant 0) values.old) }
{
    let tail = to_constant(take(values));
    let parts = to_constants(alloc, take(values));
    drop_top(values);
    drop_top(values);
    let list = constant_cells(alloc, parts, tail)?;
    values.push(Value::Constant(list))
}

/// A list with elements before a tail.
pub fn join(alloc: Global, term: Term, values: &mut Stack<Value>) -> Result<(), Memory>
    ensures { OnOk result (values.new ≡ joined term values.old) }
{
    match term {
        Term::Expression(_) => join_expression(alloc, values),
        Term::Pattern(_) => join_pattern(alloc, values),
        Term::Constant(_) => join_constant(alloc, values),
    }
}

/// The next elements stand behind the `[` at this place.
pub fn go_on(at: Place, values: &mut Stack<Value>) -> Result<(), Memory>
    ensures { OnOk result (values.new ≡ continued at values.old) }
{
    let elements = take(values);
    drop_top(values);
    values.push(Value::At(at))?;
    values.push(elements)
}

/// A tuple.
#[tactic(auto, unfolding(core_grammar::specs::Trees::expression_at, core_grammar::specs::Trees::pattern_at, core_grammar::specs::Trees::constant_of))]
pub fn tuple(alloc: Global, term: Term, values: &mut Stack<Value>) -> Result<(), Memory>
    ensures { OnOk result (values.new ≡ tuple term values.old) }
{
    let parts = take(values);
    let at = to_place(take(values));
    match term {
        Term::Expression(_) => {
            let parts = to_expressions(alloc, parts);
            values.push(Value::Expression(Expr {
                node: Node::Tuple(parts),
                at,
            }))
        }
        Term::Pattern(_) => {
            let parts = to_patterns(alloc, parts);
            values.push(Value::Pattern(Pattern {
                node: PatNode::Tuple(parts),
                at,
            }))
        }
        Term::Constant(_) => {
            let parts = to_constants(alloc, parts);
            values.push(Value::Constant(Constant::Tuple(parts)))
        }
    }
}
