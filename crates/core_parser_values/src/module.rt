// Functions, modules and calls.

ghost use Rattle.std.specs.Prelude.{◌≡◌, ◌∷◌, OnOk};
ghost use Rattle.core_parser.specs.Values.{function, definition, whole_module, whole_call};

use crate::element::added;
use crate::stack::Stack;
use crate::taken::{
    take, to_atom, to_attributes, to_constants, to_definitions, to_exports, to_expression, to_fun,
    to_name, to_place, to_variables,
};
use core_ast::{Fun, FunDef, Module};
use core_parser::Value;
use hipe_base::Memory;
use hipe_terms::Call;
use sqlite_items::Boxed;
use std::alloc::Global;

/// A fun.
#[tactic(auto, unfolding(core_grammar::specs::Trees::fun_at))]
pub fn function(alloc: Global, values: &mut Stack<Value>) -> Result<(), Memory>
    ensures { OnOk result (values.new ≡ function values.old) }
{
    let body = Boxed::new(alloc, to_expression(take(values)))?;
    let params = to_variables(alloc, take(values));
    let at = to_place(take(values));
    values.push(Value::Fun(Fun { params, body, at }))
}

/// A definition, at the end of the definitions below it.
#[tactic(auto, unfolding(core_grammar::specs::Trees::definition_at))]
pub fn definition(alloc: Global, values: &mut Stack<Value>) -> Result<(), Memory>
    ensures { OnOk result (values.new ≡ definition values.old) }
{
    let fun = to_fun(alloc, take(values))?;
    let name = to_name(alloc, take(values));
    let at = to_place(take(values));
    let definition = FunDef { name, fun, at };
    let definitions = added(alloc, to_definitions(alloc, take(values)), definition)?;
    values.push(Value::Definitions(definitions))
}

/// A module.
pub fn whole_module(alloc: Global, values: &mut Stack<Value>) -> Result<(), Memory>
    ensures { OnOk result (values.new ≡ whole_module values.old) }
{
    let defs = to_definitions(alloc, take(values));
    let attributes = to_attributes(alloc, take(values));
    let exports = to_exports(alloc, take(values));
    let name = to_atom(alloc, take(values));
    values.push(Value::Module(Module {
        name,
        exports,
        attributes,
        defs,
    }))
}

/// A call from outside.
pub fn whole_call(alloc: Global, values: &mut Stack<Value>) -> Result<(), Memory>
    ensures { OnOk result (values.new ≡ whole_call values.old) }
{
    let args = to_constants(alloc, take(values));
    let name = to_atom(alloc, take(values));
    values.push(Value::Call(Call { name, args }))
}
