// Elements with commas.

ghost use Rattle.std.specs.Prelude.{◌≡◌, IfOk};
ghost use Rattle.core_parser.specs.declared.symbol.Element.{Element as AnElement};
ghost use Rattle.core_parser.specs.Machine as M;
ghost use Rattle.core_parser.specs.Machine.{moved, closes};
ghost use Rattle.core_parser_steps.specs.Steps.{IsNarrow};

use crate::constant::constant;
use crate::part::annotated;
use crate::pattern::pattern;
use core_grammar::{Kind, Mark, Terminal};
use core_parser::{Closer, Element, Maker, Moved, Part, Symbol, Term, Value, Wanted};
use core_parser_values::Stack;
use hipe_base::Memory;
use sqlite_items::Items;
use std::alloc::Global;

/// A term.
pub fn term(
    alloc: Global,
    x: Term,
    t: Terminal,
    symbols: &mut Stack<Symbol>,
    values: &mut Stack<Value>,
) -> Result<Moved, Memory>
    requires { IsNarrow t.kind }
    ensures { IfOk result (λ m. M.term x t.kind t.at symbols.old values.old ≡ moved m symbols.new values.new) }
{
    match x {
        Term::Expression(k) => annotated(alloc, Part::Expression(k), t, symbols, values),
        Term::Pattern(k) => pattern(alloc, k, t, symbols, values),
        Term::Constant(k) => constant(alloc, k, t, symbols, values),
    }
}

// An attribute.
fn attribute(
    alloc: Global,
    t: Terminal,
    symbols: &mut Stack<Symbol>,
    values: &mut Stack<Value>,
) -> Result<Moved, Memory>
    requires { IsNarrow t.kind }
    ensures { IfOk result (λ m. M.item AnElement.Attribute t.kind t.at symbols.old values.old ≡ moved m symbols.new values.new) }
{
    symbols.push(Symbol::Annotated(Part::Constant(1)))?;
    symbols.push(Symbol::Wants(Mark::Equals))?;
    annotated(alloc, Part::Atom, t, symbols, values)
}

/// An element.
pub fn item(
    alloc: Global,
    x: Element,
    t: Terminal,
    symbols: &mut Stack<Symbol>,
    values: &mut Stack<Value>,
) -> Result<Moved, Memory>
    requires { IsNarrow t.kind }
    ensures { IfOk result (λ m. M.item x t.kind t.at symbols.old values.old ≡ moved m symbols.new values.new) }
{
    match x {
        Element::Variable => annotated(alloc, Part::Variable, t, symbols, values),
        Element::Export => annotated(alloc, Part::Name, t, symbols, values),
        Element::Attribute => attribute(alloc, t, symbols, values),
        Element::Term(x) => term(alloc, x, t, symbols, values),
    }
}

// Whether a terminal closes elements.
fn closes(c: Closer, kind: &Kind) -> bool
    ensures { result ≡ closes c kind.now }
{
    match c {
        Closer::Round => matches!(kind, Kind::Mark(Mark::CloseRound)),
        Closer::Brace => matches!(kind, Kind::Mark(Mark::CloseBrace)),
        Closer::Square => matches!(kind, Kind::Mark(Mark::CloseSquare)),
        Closer::Angle => matches!(kind, Kind::Mark(Mark::Greater)),
    }
}

/// Elements with commas, none or more, and what closes them.
pub fn first(
    alloc: Global,
    x: Element,
    c: Closer,
    t: Terminal,
    symbols: &mut Stack<Symbol>,
    values: &mut Stack<Value>,
) -> Result<Moved, Memory>
    requires { IsNarrow t.kind }
    ensures { IfOk result (λ m. M.first x c t.kind t.at symbols.old values.old ≡ moved m symbols.new values.new) }
{
    if closes(c, &t.kind) {
        return Ok(Moved::Plain);
    }
    symbols.push(Symbol::Rest(x, c))?;
    symbols.push(Symbol::Make(Maker::Push(x)))?;
    item(alloc, x, t, symbols, values)
}

// The comma behind an element.
fn comma(
    x: Element,
    c: Closer,
    t: Terminal,
    symbols: &mut Stack<Symbol>,
    values: &mut Stack<Value>,
) -> Result<Moved, Memory>
    ensures { IfOk result (λ m. M.comma x c t.kind symbols.old values.old ≡ moved m symbols.new values.new) }
{
    match t.kind {
        Kind::Mark(Mark::Comma) => {
            symbols.push(Symbol::Rest(x, c))?;
            symbols.push(Symbol::Make(Maker::Push(x)))?;
            symbols.push(Symbol::Item(x))?;
            Ok(Moved::Plain)
        }
        _ => Ok(Moved::Stuck(Wanted::Other)),
    }
}

/// The same behind an element.
pub fn rest(
    x: Element,
    c: Closer,
    t: Terminal,
    symbols: &mut Stack<Symbol>,
    values: &mut Stack<Value>,
) -> Result<Moved, Memory>
    ensures { IfOk result (λ m. M.rest x c t.kind symbols.old values.old ≡ moved m symbols.new values.new) }
{
    if closes(c, &t.kind) {
        return Ok(Moved::Plain);
    }
    comma(x, c, t, symbols, values)
}

/// Variables: one, or none or more in `<..>`.
pub fn variables(
    alloc: Global,
    t: Terminal,
    symbols: &mut Stack<Symbol>,
    values: &mut Stack<Value>,
) -> Result<Moved, Memory>
    requires { IsNarrow t.kind }
    ensures { IfOk result (λ m. M.variables t.kind t.at symbols.old values.old ≡ moved m symbols.new values.new) }
{
    match t.kind {
        Kind::Mark(Mark::Less) => {
            symbols.push(Symbol::First(Element::Variable, Closer::Angle))?;
            values.push(Value::Variables(Items::new(alloc)))?;
            Ok(Moved::Plain)
        }
        _ => {
            symbols.push(Symbol::Make(Maker::OneVariable))?;
            annotated(alloc, Part::Variable, t, symbols, values)
        }
    }
}
