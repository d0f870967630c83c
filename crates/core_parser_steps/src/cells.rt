// Lists and their tails.

ghost use Rattle.std.specs.Prelude.{◌≡◌, IfOk};
ghost use Rattle.core_parser.specs.Machine as M;
ghost use Rattle.core_parser.specs.Machine.{moved};
ghost use Rattle.core_parser_steps.specs.Cells.{next_element};
ghost use Rattle.core_parser_steps.specs.Steps.{IsNarrow};

use crate::coming::{annotation, deeper_term, level_of};
use crate::constant::constant;
use crate::element::term;
use crate::expression::bare_expression;
use crate::pattern::{bare_pattern, pattern_inside, plain_pattern};
use core_grammar::{Kind, Mark, Terminal};
use core_parser::{Element, Maker, Moved, Symbol, Term, Value, Wanted};
use core_parser_values::{Stack, cells};
use hipe_base::Memory;
use hipe_terms::Place;
use std::alloc::Global;

// An element, and what follows it.
fn next_element(
    alloc: Global,
    x: Term,
    t: Terminal,
    symbols: &mut Stack<Symbol>,
    values: &mut Stack<Value>,
) -> Result<Moved, Memory>
    requires { IsNarrow t.kind }
    ensures { IfOk result (λ m. next_element x t.kind t.at symbols.old values.old ≡ moved m symbols.new values.new) }
{
    let inner = deeper_term(x)?;
    symbols.push(Symbol::CellsRest(x))?;
    symbols.push(Symbol::Make(Maker::Push(Element::Term(inner))))?;
    term(alloc, inner, t, symbols, values)
}

/// What follows the `[` of a list.
pub fn cells_first(
    alloc: Global,
    x: Term,
    t: Terminal,
    symbols: &mut Stack<Symbol>,
    values: &mut Stack<Value>,
) -> Result<Moved, Memory>
    requires { IsNarrow t.kind }
    ensures { IfOk result (λ m. M.cells_first x t.kind t.at symbols.old values.old ≡ moved m symbols.new values.new) }
{
    match t.kind {
        Kind::Mark(Mark::CloseSquare) => {
            cells::no_cells(x, values)?;
            Ok(Moved::Plain)
        }
        _ => next_element(alloc, x, t, symbols, values),
    }
}

/// What follows an element of a list.
pub fn cells_rest(
    alloc: Global,
    x: Term,
    t: Terminal,
    symbols: &mut Stack<Symbol>,
    values: &mut Stack<Value>,
) -> Result<Moved, Memory>
    ensures { IfOk result (λ m. M.cells_rest x t.kind symbols.old values.old ≡ moved m symbols.new values.new) }
{
    match t.kind {
        Kind::Mark(Mark::Comma) => {
            let inner = Element::Term(deeper_term(x)?);
            symbols.push(Symbol::CellsRest(x))?;
            symbols.push(Symbol::Make(Maker::Push(inner)))?;
            symbols.push(Symbol::Item(inner))?;
            Ok(Moved::Plain)
        }
        Kind::Mark(Mark::Bar) => {
            symbols.push(Symbol::Wants(Mark::CloseSquare))?;
            symbols.push(Symbol::Tail(x))?;
            Ok(Moved::Plain)
        }
        Kind::Mark(Mark::CloseSquare) => {
            cells::all_cells(alloc, x, values)?;
            Ok(Moved::Plain)
        }
        _ => Ok(Moved::Stuck(Wanted::Other)),
    }
}

// A list that is a tail.
fn tail_list(
    x: Term,
    at: Place,
    symbols: &mut Stack<Symbol>,
    values: &mut Stack<Value>,
) -> Result<Moved, Memory>
    ensures { IfOk result (λ m. M.tail_list x at symbols.old values.old ≡ moved m symbols.new values.new) }
{
    symbols.push(Symbol::TailFirst(x))?;
    cells::go_on(at, values)?;
    Ok(Moved::Begins(level_of(x)))
}

// A tail that begins with neither `[` nor `(`.
fn other_tail(
    alloc: Global,
    x: Term,
    t: Terminal,
    symbols: &mut Stack<Symbol>,
    values: &mut Stack<Value>,
) -> Result<Moved, Memory>
    requires { IsNarrow t.kind }
    ensures { IfOk result (λ m. M.other_tail x t.kind t.at symbols.old values.old ≡ moved m symbols.new values.new) }
{
    match x {
        Term::Expression(k) => bare_expression(alloc, k, t, symbols, values),
        Term::Pattern(k) => bare_pattern(alloc, k, t, symbols, values),
        Term::Constant(k) => constant(alloc, k, t, symbols, values),
    }
}

// The `(` of a tail.
fn tail_open(
    x: Term,
    symbols: &mut Stack<Symbol>,
    values: &mut Stack<Value>,
) -> Result<Moved, Memory>
    ensures { IfOk result (λ m. M.tail_open x symbols.old values.old ≡ moved m symbols.new values.new) }
{
    match x {
        Term::Expression(k) => {
            symbols.push(Symbol::ExpressionTailInside(k))?;
            Ok(Moved::Plain)
        }
        Term::Pattern(k) => {
            symbols.push(Symbol::PatternTailInside(k))?;
            Ok(Moved::Plain)
        }
        Term::Constant(_) => Ok(Moved::Stuck(Wanted::Integer)),
    }
}

/// The tail of a list.
pub fn tail(
    alloc: Global,
    x: Term,
    t: Terminal,
    symbols: &mut Stack<Symbol>,
    values: &mut Stack<Value>,
) -> Result<Moved, Memory>
    requires { IsNarrow t.kind }
    ensures { IfOk result (λ m. M.tail x t.kind t.at symbols.old values.old ≡ moved m symbols.new values.new) }
{
    match t.kind {
        Kind::Mark(Mark::OpenSquare) => tail_list(x, t.at, symbols, values),
        Kind::Mark(Mark::OpenRound) => tail_open(x, symbols, values),
        _ => {
            symbols.push(Symbol::Make(Maker::Join(x)))?;
            other_tail(alloc, x, t, symbols, values)
        }
    }
}

// A list that is a tail, behind its `(`.
fn tail_list_inside(
    x: Term,
    at: Place,
    symbols: &mut Stack<Symbol>,
    values: &mut Stack<Value>,
) -> Result<Moved, Memory>
    ensures { IfOk result (λ m. M.tail_list x at (M.annotation symbols.old) values.old ≡ moved m symbols.new values.new) }
{
    annotation(symbols)?;
    tail_list(x, at, symbols, values)
}

/// An expression that is a tail, behind its `(`.
pub fn expression_tail_inside(
    alloc: Global,
    k: u32,
    t: Terminal,
    symbols: &mut Stack<Symbol>,
    values: &mut Stack<Value>,
) -> Result<Moved, Memory>
    requires { IsNarrow t.kind }
    ensures { IfOk result (λ m. M.expression_tail_inside k t.kind t.at symbols.old values.old ≡ moved m symbols.new values.new) }
{
    match t.kind {
        Kind::Mark(Mark::OpenSquare) => {
            tail_list_inside(Term::Expression(k), t.at, symbols, values)
        }
        _ => {
            annotation(symbols)?;
            symbols.push(Symbol::Make(Maker::Join(Term::Expression(k))))?;
            bare_expression(alloc, k, t, symbols, values)
        }
    }
}

/// A pattern that is a tail, behind its `(`.
pub fn pattern_tail_inside(
    alloc: Global,
    k: u32,
    t: Terminal,
    symbols: &mut Stack<Symbol>,
    values: &mut Stack<Value>,
) -> Result<Moved, Memory>
    requires { IsNarrow t.kind }
    ensures { IfOk result (λ m. M.pattern_tail_inside k t.kind t.at symbols.old values.old ≡ moved m symbols.new values.new) }
{
    match t.kind {
        Kind::Mark(Mark::OpenSquare) => tail_list_inside(Term::Pattern(k), t.at, symbols, values),
        Kind::Variable(_) | Kind::Mark(Mark::OpenRound) => {
            symbols.push(Symbol::Make(Maker::Join(Term::Pattern(k))))?;
            pattern_inside(alloc, k, t, symbols, values)
        }
        _ => {
            annotation(symbols)?;
            symbols.push(Symbol::Make(Maker::Join(Term::Pattern(k))))?;
            plain_pattern(alloc, k, t, symbols, values)
        }
    }
}

/// What follows the `[` of a list that is a tail.
pub fn tail_first(
    alloc: Global,
    x: Term,
    t: Terminal,
    symbols: &mut Stack<Symbol>,
    values: &mut Stack<Value>,
) -> Result<Moved, Memory>
    requires { IsNarrow t.kind }
    ensures { IfOk result (λ m. M.tail_first x t.kind t.at symbols.old values.old ≡ moved m symbols.new values.new) }
{
    match t.kind {
        Kind::Mark(Mark::CloseSquare) => {
            cells::all_cells(alloc, x, values)?;
            Ok(Moved::Plain)
        }
        _ => next_element(alloc, x, t, symbols, values),
    }
}
