// Clauses.

ghost use Rattle.std.specs.Prelude.{◌≡◌, ◌+◌, ◌∷◌, OnOk, IfOk};
ghost use Rattle.core_parser.specs.declared.symbol.Symbol.{Symbol as ASymbol};
ghost use Rattle.core_parser.specs.Values.{one_pattern, variable_pattern};
ghost use Rattle.core_parser.specs.Machine as M;
ghost use Rattle.core_parser.specs.Machine.{moved};
ghost use Rattle.core_parser_steps.specs.Steps.{IsNarrow};

use crate::coming::{
    alias_of, annotation, annotation_list, deeper, guarded, one_when_guarded, when_guarded,
};
use crate::pattern::{annotated_alias, bare_pattern, pattern_variable, plain_pattern};
use core_grammar::{Kind, Mark, Terminal};
use core_parser::{Closer, Element, Moved, Symbol, Term, Value, Wanted};
use core_parser_values::{Stack, expression, pattern};
use hipe_base::Memory;
use hipe_terms::Place;
use sqlite_items::Items;
use std::alloc::Global;

// The `<` of a clause's patterns.
fn value_patterns(
    alloc: Global,
    k: u32,
    at: Place,
    symbols: &mut Stack<Symbol>,
    values: &mut Stack<Value>,
) -> Result<Moved, Memory>
    ensures { IfOk result (λ m. M.value_patterns k at symbols.old values.old ≡ moved m symbols.new values.new) }
{
    let inner = deeper(k)?;
    symbols.push(Symbol::First(Element::Term(Term::Pattern(inner)), Closer::Angle))?;
    values.push(Value::At(at))?;
    values.push(Value::Patterns(Items::new(alloc)))?;
    Ok(Moved::Begins(k))
}

/// A clause, annotated or not.
pub fn clause(
    alloc: Global,
    k: u32,
    t: Terminal,
    symbols: &mut Stack<Symbol>,
    values: &mut Stack<Value>,
) -> Result<Moved, Memory>
    requires { IsNarrow t.kind }
    ensures { IfOk result (λ m. M.clause k t.kind t.at symbols.old values.old ≡ moved m symbols.new values.new) }
{
    match t.kind {
        Kind::Mark(Mark::OpenRound) => {
            symbols.push(Symbol::ClauseInside(k))?;
            Ok(Moved::Plain)
        }
        Kind::Mark(Mark::Less) => {
            when_guarded(k, symbols)?;
            value_patterns(alloc, k, t.at, symbols, values)
        }
        _ => {
            let inner = deeper(k)?;
            one_when_guarded(k, symbols)?;
            bare_pattern(alloc, inner, t, symbols, values)
        }
    }
}

/// A clause behind `(`.
pub fn clause_inside(
    alloc: Global,
    k: u32,
    t: Terminal,
    symbols: &mut Stack<Symbol>,
    values: &mut Stack<Value>,
) -> Result<Moved, Memory>
    requires { IsNarrow t.kind }
    ensures { IfOk result (λ m. M.clause_inside k t.kind t.at symbols.old values.old ≡ moved m symbols.new values.new) }
{
    let Terminal { kind, at } = t;
    match kind {
        Kind::Variable(x) => {
            let inner = deeper(k)?;
            pattern_variable(
                Symbol::ClauseInsideVariable(k),
                inner,
                x,
                at,
                symbols,
                values,
            )
        }
        Kind::Mark(Mark::OpenRound) => {
            symbols.push(Symbol::ClauseTwiceInside(k))?;
            Ok(Moved::Plain)
        }
        Kind::Mark(Mark::Less) => {
            annotation(symbols)?;
            when_guarded(k, symbols)?;
            value_patterns(alloc, k, at, symbols, values)
        }
        kind => {
            let inner = deeper(k)?;
            symbols.push(Symbol::ClauseMiddle(k))?;
            plain_pattern(alloc, inner, Terminal { kind, at }, symbols, values)
        }
    }
}

// The `=` of an alias that is a clause's pattern or stands in its annotation.
fn middle_alias(k: u32, symbols: &mut Stack<Symbol>) -> Result<(), Memory>
    ensures { OnOk result (symbols.new ≡ M.alias_of (k + 1) (ASymbol.ClauseMiddle k ∷ symbols.old)) }
{
    let inner = deeper(k)?;
    symbols.push(Symbol::ClauseMiddle(k))?;
    alias_of(inner, symbols)
}

// The `when` of a clause that is annotated.
fn annotated_guard(k: u32, symbols: &mut Stack<Symbol>) -> Result<(), Memory>
    ensures { OnOk result (symbols.new ≡ M.guarded k (M.annotation symbols.old)) }
{
    annotation(symbols)?;
    guarded(k, symbols)
}

// The `when` behind a variable, of a clause that is annotated.
fn variable_guard(
    alloc: Global,
    k: u32,
    symbols: &mut Stack<Symbol>,
    values: &mut Stack<Value>,
) -> Result<(), Memory>
    ensures symbols { OnOk result (symbols.new ≡ M.guarded k (M.annotation symbols.old)) }
    ensures values { OnOk result (values.new ≡ one_pattern (variable_pattern values.old)) }
{
    annotated_guard(k, symbols)?;
    pattern::variable_pattern(alloc, values)?;
    pattern::one_pattern(alloc, values)
}

/// A clause behind `( V`.
pub fn clause_inside_variable(
    alloc: Global,
    k: u32,
    t: Terminal,
    symbols: &mut Stack<Symbol>,
    values: &mut Stack<Value>,
) -> Result<Moved, Memory>
    ensures { IfOk result (λ m. M.clause_inside_variable k t.kind symbols.old values.old ≡ moved m symbols.new values.new) }
{
    match t.kind {
        Kind::Mark(Mark::Equals) => {
            middle_alias(k, symbols)?;
            Ok(Moved::Plain)
        }
        Kind::Mark(Mark::Dash) => {
            let inner = deeper(k)?;
            one_when_guarded(k, symbols)?;
            symbols.push(Symbol::AfterVariable(inner))?;
            annotation_list(symbols)?;
            Ok(Moved::Plain)
        }
        Kind::Mark(Mark::When) => {
            variable_guard(alloc, k, symbols, values)?;
            Ok(Moved::Plain)
        }
        _ => Ok(Moved::Stuck(Wanted::Other)),
    }
}

// What follows the pattern in `( ( pattern`: its annotation, the guard and the body, and the clause's annotation.
fn both_annotated(k: u32, symbols: &mut Stack<Symbol>) -> Result<(), Memory>
    ensures { OnOk result (symbols.new ≡ M.annotation (M.one_when_guarded k (M.annotation symbols.old))) }
{
    annotation(symbols)?;
    one_when_guarded(k, symbols)?;
    annotation(symbols)
}

/// A clause behind `( (`.
pub fn clause_twice_inside(
    alloc: Global,
    k: u32,
    t: Terminal,
    symbols: &mut Stack<Symbol>,
    values: &mut Stack<Value>,
) -> Result<Moved, Memory>
    requires { IsNarrow t.kind }
    ensures { IfOk result (λ m. M.clause_twice_inside k t.kind t.at symbols.old values.old ≡ moved m symbols.new values.new) }
{
    let inner = deeper(k)?;
    let Terminal { kind, at } = t;
    match kind {
        Kind::Variable(x) => {
            pattern_variable(
                Symbol::ClauseTwiceInsideVariable(k),
                inner,
                x,
                at,
                symbols,
                values,
            )
        }
        Kind::Mark(Mark::OpenRound) => {
            both_annotated(k, symbols)?;
            annotated_alias(inner, symbols)?;
            Ok(Moved::Plain)
        }
        kind => {
            both_annotated(k, symbols)?;
            plain_pattern(alloc, inner, Terminal { kind, at }, symbols, values)
        }
    }
}

/// A clause behind `( ( V`.
pub fn clause_twice_inside_variable(
    k: u32,
    t: Terminal,
    symbols: &mut Stack<Symbol>,
    values: &mut Stack<Value>,
) -> Result<Moved, Memory>
    ensures { IfOk result (λ m. M.clause_twice_inside_variable k t.kind symbols.old values.old ≡ moved m symbols.new values.new) }
{
    match t.kind {
        Kind::Mark(Mark::Equals) => {
            let inner = deeper(k)?;
            both_annotated(k, symbols)?;
            alias_of(inner, symbols)?;
            Ok(Moved::Plain)
        }
        Kind::Mark(Mark::Dash) => {
            symbols.push(Symbol::ClauseTwiceInsideAnnotated(k))?;
            annotation_list(symbols)?;
            Ok(Moved::Plain)
        }
        _ => Ok(Moved::Stuck(Wanted::Other)),
    }
}

/// A clause behind `( ( V -| [..] )`.
pub fn clause_twice_inside_annotated(
    alloc: Global,
    k: u32,
    t: Terminal,
    symbols: &mut Stack<Symbol>,
    values: &mut Stack<Value>,
) -> Result<Moved, Memory>
    ensures { IfOk result (λ m. M.clause_twice_inside_annotated k t.kind symbols.old values.old ≡ moved m symbols.new values.new) }
{
    match t.kind {
        Kind::Mark(Mark::Equals) => {
            middle_alias(k, symbols)?;
            Ok(Moved::Plain)
        }
        Kind::Mark(Mark::When) => {
            variable_guard(alloc, k, symbols, values)?;
            Ok(Moved::Plain)
        }
        _ => Ok(Moved::Stuck(Wanted::Other)),
    }
}

/// What follows `(` and a pattern.
pub fn clause_middle(
    alloc: Global,
    k: u32,
    t: Terminal,
    symbols: &mut Stack<Symbol>,
    values: &mut Stack<Value>,
) -> Result<Moved, Memory>
    ensures { IfOk result (λ m. M.clause_middle k t.kind symbols.old values.old ≡ moved m symbols.new values.new) }
{
    match t.kind {
        Kind::Mark(Mark::When) => {
            annotated_guard(k, symbols)?;
            pattern::one_pattern(alloc, values)?;
            Ok(Moved::Plain)
        }
        Kind::Mark(Mark::Dash) => {
            one_when_guarded(k, symbols)?;
            annotation_list(symbols)?;
            Ok(Moved::Plain)
        }
        _ => Ok(Moved::Stuck(Wanted::Other)),
    }
}

/// Clauses, none or more, and `end`.
pub fn clauses_rest(
    alloc: Global,
    k: u32,
    t: Terminal,
    symbols: &mut Stack<Symbol>,
    values: &mut Stack<Value>,
) -> Result<Moved, Memory>
    requires { IsNarrow t.kind }
    ensures { IfOk result (λ m. M.clauses_rest k t.kind t.at symbols.old values.old ≡ moved m symbols.new values.new) }
{
    match t.kind {
        Kind::Mark(Mark::End) => {
            expression::case(alloc, values)?;
            Ok(Moved::Plain)
        }
        _ => {
            symbols.push(Symbol::ClausesRest(k))?;
            clause(alloc, k, t, symbols, values)
        }
    }
}
