// What a maker makes.

ghost use Rattle.std.specs.Prelude.{◌≡◌, OnOk};
ghost use Rattle.core_parser.specs.Values.{made};

use crate::stack::Stack;
use crate::taken::drop_top;
use crate::{cells, element, expression, module, pattern};
use core_parser::{Maker, Value};
use hipe_base::Memory;
use sqlite_items::Items;
use std::alloc::Global;

/// Puts values together as a maker says.
pub fn make(alloc: Global, maker: Maker, values: &mut Stack<Value>) -> Result<(), Memory>
    ensures { OnOk result (values.new ≡ made maker values.old) }
{
    match maker {
        Maker::Empty(x) => values.push(element::empty(alloc, x)),
        Maker::Push(x) => element::push(alloc, x, values),
        Maker::Join(x) => cells::join(alloc, x, values),
        Maker::Name => expression::name(alloc, values),
        Maker::Tuple(x) => cells::tuple(alloc, x, values),
        Maker::Values => expression::several(alloc, values),
        Maker::Let => expression::bind(alloc, values),
        Maker::Lambda => expression::lambda(alloc, values),
        Maker::Letrec => expression::letrec(alloc, values),
        Maker::Apply => expression::apply(alloc, values),
        Maker::Call => expression::call(alloc, values),
        Maker::Primop => expression::primop(alloc, values),
        Maker::Try => expression::attempt(alloc, values),
        Maker::Do => expression::sequence(alloc, values),
        Maker::Catch => expression::caught(alloc, values),
        Maker::NoClauses => values.push(Value::Clauses(Items::new(alloc))),
        Maker::Clause => pattern::clause(alloc, values),
        Maker::OnePattern => pattern::one_pattern(alloc, values),
        Maker::Alias => pattern::alias(alloc, values),
        Maker::OneVariable => pattern::one_variable(alloc, values),
        Maker::Fun => module::function(alloc, values),
        Maker::NoDefinitions => values.push(Value::Definitions(Items::new(alloc))),
        Maker::Definition => module::definition(alloc, values),
        Maker::Drop => {
            drop_top(values);
            Ok(())
        }
    }
}
