// Parts that may be annotated.

ghost use Rattle.std.specs.Prelude.{◌≡◌, IfOk};
ghost use Rattle.core_parser.specs.Machine as M;
ghost use Rattle.core_parser.specs.Machine.{moved};
ghost use Rattle.core_parser_steps.specs.Steps.{IsNarrow};

use crate::coming::annotation;
use crate::constant::constant;
use crate::definition::bare_module;
use crate::expression::{bare_expression, bare_fun};
use crate::name::{bare_atom, bare_name, bare_operand, bare_variable};
use core_grammar::{Kind, Mark, Terminal};
use core_parser::{Moved, Part, Symbol, Value};
use core_parser_values::Stack;
use hipe_base::Memory;
use std::alloc::Global;

/// A part without an annotation.
pub fn bare(
    alloc: Global,
    x: Part,
    t: Terminal,
    symbols: &mut Stack<Symbol>,
    values: &mut Stack<Value>,
) -> Result<Moved, Memory>
    requires { IsNarrow t.kind }
    ensures { IfOk result (λ m. M.bare x t.kind t.at symbols.old values.old ≡ moved m symbols.new values.new) }
{
    match x {
        Part::Module => bare_module(t, symbols, values),
        Part::Name => bare_name(t, symbols, values),
        Part::Atom => bare_atom(t, symbols, values),
        Part::Operand => bare_operand(alloc, t, symbols, values),
        Part::Variable => bare_variable(t, symbols, values),
        Part::Constant(k) => constant(alloc, k, t, symbols, values),
        Part::Fun(k) => bare_fun(alloc, k, t, symbols, values),
        Part::Expression(k) => bare_expression(alloc, k, t, symbols, values),
    }
}

/// A part, annotated or not.
pub fn annotated(
    alloc: Global,
    x: Part,
    t: Terminal,
    symbols: &mut Stack<Symbol>,
    values: &mut Stack<Value>,
) -> Result<Moved, Memory>
    requires { IsNarrow t.kind }
    ensures { IfOk result (λ m. M.annotated x t.kind t.at symbols.old values.old ≡ moved m symbols.new values.new) }
{
    match t.kind {
        Kind::Mark(Mark::OpenRound) => {
            annotation(symbols)?;
            symbols.push(Symbol::Bare(x))?;
            Ok(Moved::Plain)
        }
        _ => bare(alloc, x, t, symbols, values),
    }
}
