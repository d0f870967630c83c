// The arguments of a call.

ghost use Rattle.std.specs.Prelude.{◌≡◌, ◌+◌, ◌∷◌, List, OnOk, IfOk};
ghost use Rattle.core_grammar.specs.Leave.{argument};
ghost use Rattle.core_parser.specs.declared.symbol.Symbol.{Symbol as ASymbol};
ghost use Rattle.core_parser.specs.declared.value.Value.{Value as AValue};
ghost use Rattle.core_parser.specs.Machine as M;
ghost use Rattle.core_parser.specs.Machine.{moved, also};
ghost use Rattle.core_parser_steps.specs.Steps.{IsNarrow, IsPart};

use crate::coming::deeper;
use crate::constant::constant;
use core_grammar::{Kind, Mark, Terminal};
use core_parser::{Element, Maker, Moved, Symbol, Term, Value, Wanted};
use core_parser_values::{Stack, module};
use hipe_base::Memory;
use std::alloc::Global;

// A part, with the number of the argument that begins with it.
fn numbered(i: u32, part: Moved) -> Moved
    requires { IsPart part }
    ensures { (ss : List ASymbol) (vs : List AValue) → also (argument i) (moved part ss vs) ≡ moved result ss vs }
{
    match part {
        Moved::Begins(k) => Moved::Argument(i, k),
        other => other,
    }
}

/// The argument of this number.
pub fn call_argument(
    alloc: Global,
    i: u32,
    t: Terminal,
    symbols: &mut Stack<Symbol>,
    values: &mut Stack<Value>,
) -> Result<Moved, Memory>
    requires { IsNarrow t.kind }
    ensures { IfOk result (λ m. M.call_argument i t.kind t.at symbols.old values.old ≡ moved m symbols.new values.new) }
{
    let part = constant(alloc, 1, t, symbols, values)?;
    Ok(numbered(i, part))
}

// What follows an argument.
fn argument_pushed(i: u32, symbols: &mut Stack<Symbol>) -> Result<(), Memory>
    ensures { OnOk result (symbols.new ≡ M.argument_pushed i symbols.old) }
{
    symbols.push(Symbol::ArgumentsRest(i))?;
    symbols.push(Symbol::Make(Maker::Push(Element::Term(Term::Constant(1)))))
}

/// The arguments of a call and `)`.
pub fn arguments_first(
    alloc: Global,
    t: Terminal,
    symbols: &mut Stack<Symbol>,
    values: &mut Stack<Value>,
) -> Result<Moved, Memory>
    requires { IsNarrow t.kind }
    ensures { IfOk result (λ m. M.arguments_first t.kind t.at symbols.old values.old ≡ moved m symbols.new values.new) }
{
    match t.kind {
        Kind::Mark(Mark::CloseRound) => {
            module::whole_call(alloc, values)?;
            Ok(Moved::Plain)
        }
        _ => {
            argument_pushed(2, symbols)?;
            call_argument(alloc, 1, t, symbols, values)
        }
    }
}

/// What follows an argument: `,` and the argument of this number, or `)`.
pub fn arguments_rest(
    alloc: Global,
    i: u32,
    t: Terminal,
    symbols: &mut Stack<Symbol>,
    values: &mut Stack<Value>,
) -> Result<Moved, Memory>
    ensures { IfOk result (λ m. M.arguments_rest i t.kind symbols.old values.old ≡ moved m symbols.new values.new) }
{
    match t.kind {
        Kind::Mark(Mark::Comma) => {
            let next = deeper(i)?;
            argument_pushed(next, symbols)?;
            symbols.push(Symbol::Argument(i))?;
            Ok(Moved::Plain)
        }
        Kind::Mark(Mark::CloseRound) => {
            module::whole_call(alloc, values)?;
            Ok(Moved::Plain)
        }
        _ => Ok(Moved::Stuck(Wanted::Other)),
    }
}
