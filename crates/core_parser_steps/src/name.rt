// Names: atoms, variables, and the names of functions.

ghost use Rattle.std.specs.Prelude.{◌≡◌, IfOk};
ghost use Rattle.core_grammar.specs.declared.terminal.Kind.{Kind as AKind};
ghost use Rattle.core_parser.specs.Machine as M;
ghost use Rattle.core_parser.specs.Machine.{moved};

use core_ast::Var;
use core_grammar::{Kind, Mark, Terminal};
use core_parser::{Moved, Symbol, Value, Wanted};
use core_parser_values::taken::no_atom;
use core_parser_values::{Stack, expression};
use hipe_base::Memory;
use hipe_terms::{Atom, Place};
use std::alloc::Global;

/// An atom.
pub fn bare_atom(
    t: Terminal,
    symbols: &mut Stack<Symbol>,
    values: &mut Stack<Value>,
) -> Result<Moved, Memory>
    ensures { IfOk result (λ m. M.bare_atom t.kind symbols.old values.old ≡ moved m symbols.new values.new) }
{
    match t.kind {
        Kind::Atom(a) => {
            values.push(Value::Atom(a))?;
            Ok(Moved::Plain)
        }
        _ => Ok(Moved::Stuck(Wanted::Other)),
    }
}

/// The module or the name of a `call`.
pub fn bare_operand(
    alloc: Global,
    t: Terminal,
    symbols: &mut Stack<Symbol>,
    values: &mut Stack<Value>,
) -> Result<Moved, Memory>
    ensures { IfOk result (λ m. M.bare_operand t.kind symbols.old values.old ≡ moved m symbols.new values.new) }
{
    match t.kind {
        Kind::Atom(a) => {
            values.push(Value::Atom(a))?;
            Ok(Moved::Plain)
        }
        Kind::Variable(_) => {
            values.push(Value::Atom(no_atom(alloc)))?;
            Ok(Moved::Operand)
        }
        _ => Ok(Moved::Stuck(Wanted::Other)),
    }
}

/// A variable.
pub fn bare_variable(
    t: Terminal,
    symbols: &mut Stack<Symbol>,
    values: &mut Stack<Value>,
) -> Result<Moved, Memory>
    ensures { IfOk result (λ m. M.bare_variable t.kind t.at symbols.old values.old ≡ moved m symbols.new values.new) }
{
    let Terminal { kind, at } = t;
    match kind {
        Kind::Variable(x) => {
            values.push(Value::Variable(Var { name: x, at: at }))?;
            Ok(Moved::Plain)
        }
        _ => Ok(Moved::Stuck(Wanted::Other)),
    }
}

// The atom of a function's name.
fn name_atom(
    at: Place,
    atom: Atom,
    symbols: &mut Stack<Symbol>,
    values: &mut Stack<Value>,
) -> Result<Moved, Memory>
    ensures { IfOk result (λ m. M.bare_name (AKind.Atom atom) at symbols.old values.old ≡ moved m symbols.new values.new) }
{
    symbols.push(Symbol::Arity)?;
    symbols.push(Symbol::Wants(Mark::Slash))?;
    values.push(Value::At(at))?;
    values.push(Value::Atom(atom))?;
    Ok(Moved::Plain)
}

/// The name of a function.
pub fn bare_name(
    t: Terminal,
    symbols: &mut Stack<Symbol>,
    values: &mut Stack<Value>,
) -> Result<Moved, Memory>
    ensures { IfOk result (λ m. M.bare_name t.kind t.at symbols.old values.old ≡ moved m symbols.new values.new) }
{
    let Terminal { kind, at } = t;
    match kind {
        Kind::Atom(a) => name_atom(at, a, symbols, values),
        _ => Ok(Moved::Stuck(Wanted::Other)),
    }
}

/// The number of parameters in the name of a function.
pub fn arity(
    alloc: Global,
    t: Terminal,
    symbols: &mut Stack<Symbol>,
    values: &mut Stack<Value>,
) -> Result<Moved, Memory>
    ensures { IfOk result (λ m. M.arity t.kind symbols.old values.old ≡ moved m symbols.new values.new) }
{
    match t.kind {
        Kind::Natural(n) => {
            expression::with_arity(alloc, n, values)?;
            Ok(Moved::Plain)
        }
        _ => Ok(Moved::Stuck(Wanted::Integer)),
    }
}
