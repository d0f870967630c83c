// Elements of lists of parts.

ghost use Rattle.std.specs.Prelude.{◌≡◌, [], ◌∷◌, ◌++◌, IfOk, OnOk};
ghost use Rattle.core_parser.specs.declared.symbol.Element.{Element as AnElement};
ghost use Rattle.core_parser.specs.declared.symbol.Term.{Term as ATerm};
ghost use Rattle.core_parser.specs.Values.{empty, pushed};

use crate::stack::Stack;
use crate::taken::{
    take, to_atom, to_attributes, to_constant, to_constants, to_exports, to_expression,
    to_expressions, to_name, to_pattern, to_patterns, to_place, to_variable, to_variables,
};
use core_parser::{Element, Term, Value};
use hipe_base::Memory;
use sqlite_items::Items;
use std::alloc::Global;

/// No elements.
pub fn empty(alloc: Global, element: Element) -> Value
    ensures { result ≡ empty element }
{
    match element {
        Element::Variable => Value::Variables(Items::new(alloc)),
        Element::Export => Value::Exports(Items::new(alloc)),
        Element::Attribute => Value::Attributes(Items::new(alloc)),
        Element::Term(Term::Expression(_)) => Value::Expressions(Items::new(alloc)),
        Element::Term(Term::Pattern(_)) => Value::Patterns(Items::new(alloc)),
        Element::Term(Term::Constant(_)) => Value::Constants(Items::new(alloc)),
    }
}

/// One element, with room for itself alone.
pub(crate) fn alone<T: Drop>(alloc: Global, element: T) -> Result<Items<T>, Memory>
    ensures { IfOk result (λ all. all ≡ element ∷ []) }
{
    let mut first = Vec::with_capacity(alloc, 1)?;
    first.push_reserved(element);
    Ok(Items::from_vec(first))
}

/// The elements, and one more at their end. The first takes room for itself alone, since many lists of a module get no second.
pub(crate) fn added<T: Drop>(
    alloc: Global,
    elements: Items<T>,
    element: T,
) -> Result<Items<T>, Memory>
    ensures { IfOk result (λ all. all ≡ elements ++ element ∷ []) }
{
    if elements.is_empty() {
        return alone(alloc, element);
    }
    let mut all = elements;
    all.push(element)?;
    Ok(all)
}

fn push_variable(alloc: Global, values: &mut Stack<Value>) -> Result<(), Memory>
    ensures { OnOk result (values.new ≡ pushed AnElement.Variable values.old) }
{
    let element = to_variable(alloc, take(values));
    let elements = added(alloc, to_variables(alloc, take(values)), element)?;
    values.push(Value::Variables(elements))
}

fn push_export(alloc: Global, values: &mut Stack<Value>) -> Result<(), Memory>
    ensures { OnOk result (values.new ≡ pushed AnElement.Export values.old) }
{
    let name = to_name(alloc, take(values));
    let at = to_place(take(values));
    let elements = added(alloc, to_exports(alloc, take(values)), (name, at))?;
    values.push(Value::Exports(elements))
}

fn push_attribute(alloc: Global, values: &mut Stack<Value>) -> Result<(), Memory>
    ensures { OnOk result (values.new ≡ pushed AnElement.Attribute values.old) }
{
    let constant = to_constant(take(values));
    let name = to_atom(alloc, take(values));
    let elements = added(alloc, to_attributes(alloc, take(values)), (name, constant))?;
    values.push(Value::Attributes(elements))
}

fn push_expression(alloc: Global, values: &mut Stack<Value>) -> Result<(), Memory>
    ensures { OnOk result (values.new ≡ pushed (AnElement.Term (ATerm.Expression 0)) values.old) }
{
    let element = to_expression(take(values));
    let elements = added(alloc, to_expressions(alloc, take(values)), element)?;
    values.push(Value::Expressions(elements))
}

fn push_pattern(alloc: Global, values: &mut Stack<Value>) -> Result<(), Memory>
    ensures { OnOk result (values.new ≡ pushed (AnElement.Term (ATerm.Pattern 0)) values.old) }
{
    let element = to_pattern(take(values));
    let elements = added(alloc, to_patterns(alloc, take(values)), element)?;
    values.push(Value::Patterns(elements))
}

fn push_constant(alloc: Global, values: &mut Stack<Value>) -> Result<(), Memory>
    ensures { OnOk result (values.new ≡ pushed (AnElement.Term (ATerm.Constant 0)) values.old) }
{
    let element = to_constant(take(values));
    let elements = added(alloc, to_constants(alloc, take(values)), element)?;
    values.push(Value::Constants(elements))
}

/// The element on top goes to the end of those below it.
pub fn push(alloc: Global, element: Element, values: &mut Stack<Value>) -> Result<(), Memory>
    ensures { OnOk result (values.new ≡ pushed element values.old) }
{
    match element {
        Element::Variable => push_variable(alloc, values),
        Element::Export => push_export(alloc, values),
        Element::Attribute => push_attribute(alloc, values),
        Element::Term(Term::Expression(_)) => push_expression(alloc, values),
        Element::Term(Term::Pattern(_)) => push_pattern(alloc, values),
        Element::Term(Term::Constant(_)) => push_constant(alloc, values),
    }
}
