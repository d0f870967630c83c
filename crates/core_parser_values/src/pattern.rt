// Patterns, clauses and variables.

ghost use Rattle.std.specs.Prelude.{◌≡◌, ◌∷◌, OnOk};
ghost use Rattle.core_parser.specs.Values.{clause, one_pattern, variable_pattern, alias, one_variable};

use crate::element::{added, alone};
use crate::stack::Stack;
use crate::taken::{
    take, to_clauses, to_expression, to_pattern, to_patterns, to_place, to_variable,
};
use core_ast::{Clause, PatNode, Pattern, Var};
use core_parser::Value;
use hipe_base::Memory;
use sqlite_items::Boxed;
use std::alloc::Global;

/// A clause, at the end of the clauses below it.
#[tactic(auto, unfolding(core_grammar::specs::Trees::clause_at))]
pub fn clause(alloc: Global, values: &mut Stack<Value>) -> Result<(), Memory>
    ensures { OnOk result (values.new ≡ clause values.old) }
{
    let body = to_expression(take(values));
    let guard = to_expression(take(values));
    let patterns = to_patterns(alloc, take(values));
    let at = to_place(take(values));
    let clause = Clause {
        patterns,
        guard,
        body,
        at,
    };
    let clauses = added(alloc, to_clauses(alloc, take(values)), clause)?;
    values.push(Value::Clauses(clauses))
}

/// The patterns of a clause that has one, and its place.
pub fn one_pattern(alloc: Global, values: &mut Stack<Value>) -> Result<(), Memory>
    ensures { OnOk result (values.new ≡ one_pattern values.old) }
{
    let pattern = to_pattern(take(values));
    values.push(Value::At(pattern.at))?;
    let patterns = alone(alloc, pattern)?;
    values.push(Value::Patterns(patterns))
}

/// A variable, as a pattern.
#[tactic(auto, unfolding(core_grammar::specs::Trees::pattern_at))]
pub fn variable_pattern(alloc: Global, values: &mut Stack<Value>) -> Result<(), Memory>
    ensures { OnOk result (values.new ≡ variable_pattern values.old) }
{
    let Var { name, at } = to_variable(alloc, take(values));
    values.push(Value::Pattern(Pattern {
        node: PatNode::Var(name),
        at,
    }))
}

/// An alias.
#[tactic(auto, unfolding(core_grammar::specs::Trees::pattern_at))]
pub fn alias(alloc: Global, values: &mut Stack<Value>) -> Result<(), Memory>
    ensures { OnOk result (values.new ≡ alias values.old) }
{
    let part = Boxed::new(alloc, to_pattern(take(values)))?;
    let variable = to_variable(alloc, take(values));
    let at = variable.at;
    values.push(Value::Pattern(Pattern {
        node: PatNode::Alias(variable, part),
        at,
    }))
}

/// The variables where there is one without `<`.
pub fn one_variable(alloc: Global, values: &mut Stack<Value>) -> Result<(), Memory>
    ensures { OnOk result (values.new ≡ one_variable values.old) }
{
    let variable = to_variable(alloc, take(values));
    let variables = alone(alloc, variable)?;
    values.push(Value::Variables(variables))
}
