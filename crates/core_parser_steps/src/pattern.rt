// Patterns.

ghost use Rattle.std.specs.Prelude.{◌≡◌, ◌∷◌, OnOk, IfOk};
ghost use Rattle.core_grammar.specs.declared.terminal.Mark.{Mark as AMark};
ghost use Rattle.core_parser.specs.declared.symbol.Symbol.{Symbol as ASymbol};
ghost use Rattle.core_parser.specs.declared.value.Value.{Value as AValue};
ghost use Rattle.core_parser.specs.Machine as M;
ghost use Rattle.core_parser.specs.Machine.{moved};
ghost use Rattle.core_parser_steps.specs.Steps.{IsNarrow};

use crate::beginning::{open_list, open_tuple, single};
use crate::coming::{alias_of, annotation, annotation_list, text_level};
use core_ast::{PatNode, Pattern, Var, VariableName};
use core_grammar::{Kind, Mark, Terminal};
use core_parser::{Moved, Symbol, Term, Value, Wanted};
use core_parser_values::Stack;
use core_parser_values::text::pattern_text;
use hipe_base::Memory;
use hipe_terms::Place;
use std::alloc::Global;

// A pattern at a place.
fn pattern_at(at: Place, node: PatNode) -> Value
    ensures { result ≡ AValue.Pattern (record { node = node; at = at }) }
{
    Value::Pattern(Pattern { node, at })
}

/// A pattern that isn't a variable or an alias.
#[tactic(auto, unfolding(core_grammar::specs::Trees::pattern_at))]
pub fn plain_pattern(
    alloc: Global,
    k: u32,
    t: Terminal,
    symbols: &mut Stack<Symbol>,
    values: &mut Stack<Value>,
) -> Result<Moved, Memory>
    requires { IsNarrow t.kind }
    ensures { IfOk result (λ m. M.plain_pattern k t.kind t.at symbols.old values.old ≡ moved m symbols.new values.new) }
{
    let Terminal { kind, at } = t;
    match kind {
        Kind::Natural(n) => single(k, pattern_at(at, PatNode::Int(n as i64)), values),
        Kind::Integer(n) => single(k, pattern_at(at, PatNode::Int(n)), values),
        Kind::Text(s) => {
            let text = Value::Pattern(pattern_text(alloc, at, s.as_slice())?);
            single(text_level(k, s.as_slice())?, text, values)
        }
        Kind::Atom(a) => single(k, pattern_at(at, PatNode::Atom(a)), values),
        Kind::Mark(Mark::OpenSquare) => open_list(alloc, Term::Pattern(k), at, symbols, values),
        Kind::Mark(Mark::OpenBrace) => open_tuple(alloc, Term::Pattern(k), at, symbols, values),
        _ => Ok(Moved::Stuck(Wanted::Integer)),
    }
}

/// A variable of a pattern of this level, and what may follow it.
pub fn pattern_variable(
    next: Symbol,
    k: u32,
    x: VariableName,
    at: Place,
    symbols: &mut Stack<Symbol>,
    values: &mut Stack<Value>,
) -> Result<Moved, Memory>
    ensures { IfOk result (λ m. M.pattern_variable next k x at symbols.old values.old ≡ moved m symbols.new values.new) }
{
    symbols.push(next)?;
    values.push(Value::Variable(Var { name: x, at }))?;
    Ok(Moved::Begins(k))
}

/// A pattern without an annotation.
pub fn bare_pattern(
    alloc: Global,
    k: u32,
    t: Terminal,
    symbols: &mut Stack<Symbol>,
    values: &mut Stack<Value>,
) -> Result<Moved, Memory>
    requires { IsNarrow t.kind }
    ensures { IfOk result (λ m. M.bare_pattern k t.kind t.at symbols.old values.old ≡ moved m symbols.new values.new) }
{
    let Terminal { kind, at } = t;
    match kind {
        Kind::Variable(x) => pattern_variable(Symbol::AfterVariable(k), k, x, at, symbols, values),
        kind => plain_pattern(alloc, k, Terminal { kind, at }, symbols, values),
    }
}

/// A pattern.
pub fn pattern(
    alloc: Global,
    k: u32,
    t: Terminal,
    symbols: &mut Stack<Symbol>,
    values: &mut Stack<Value>,
) -> Result<Moved, Memory>
    requires { IsNarrow t.kind }
    ensures { IfOk result (λ m. M.pattern k t.kind t.at symbols.old values.old ≡ moved m symbols.new values.new) }
{
    match t.kind {
        Kind::Mark(Mark::OpenRound) => {
            symbols.push(Symbol::PatternInside(k))?;
            Ok(Moved::Plain)
        }
        _ => bare_pattern(alloc, k, t, symbols, values),
    }
}

/// What follows `( (` in a pattern: an annotated variable, `=`, and the pattern of an alias that is annotated.
pub fn annotated_alias(k: u32, symbols: &mut Stack<Symbol>) -> Result<(), Memory>
    ensures { OnOk result (symbols.new ≡ ASymbol.AliasName k ∷ M.annotation (ASymbol.Wants AMark.Equals ∷ M.alias_of k symbols.old)) }
{
    alias_of(k, symbols)?;
    symbols.push(Symbol::Wants(Mark::Equals))?;
    annotation(symbols)?;
    symbols.push(Symbol::AliasName(k))
}

/// A pattern behind its `(`.
pub fn pattern_inside(
    alloc: Global,
    k: u32,
    t: Terminal,
    symbols: &mut Stack<Symbol>,
    values: &mut Stack<Value>,
) -> Result<Moved, Memory>
    requires { IsNarrow t.kind }
    ensures { IfOk result (λ m. M.pattern_inside k t.kind t.at symbols.old values.old ≡ moved m symbols.new values.new) }
{
    let Terminal { kind, at } = t;
    match kind {
        Kind::Variable(x) => {
            pattern_variable(Symbol::PatternInsideVariable(k), k, x, at, symbols, values)
        }
        Kind::Mark(Mark::OpenRound) => {
            annotation(symbols)?;
            annotated_alias(k, symbols)?;
            Ok(Moved::Plain)
        }
        kind => {
            annotation(symbols)?;
            plain_pattern(alloc, k, Terminal { kind, at }, symbols, values)
        }
    }
}

/// A pattern behind `(` and a variable.
pub fn pattern_inside_variable(
    k: u32,
    t: Terminal,
    symbols: &mut Stack<Symbol>,
    values: &mut Stack<Value>,
) -> Result<Moved, Memory>
    ensures { IfOk result (λ m. M.pattern_inside_variable k t.kind symbols.old values.old ≡ moved m symbols.new values.new) }
{
    match t.kind {
        Kind::Mark(Mark::Equals) => {
            annotation(symbols)?;
            alias_of(k, symbols)?;
            Ok(Moved::Plain)
        }
        Kind::Mark(Mark::Dash) => {
            symbols.push(Symbol::AfterVariable(k))?;
            annotation_list(symbols)?;
            Ok(Moved::Plain)
        }
        _ => Ok(Moved::Stuck(Wanted::Other)),
    }
}

/// A variable that is an alias.
pub fn alias_name(
    k: u32,
    t: Terminal,
    symbols: &mut Stack<Symbol>,
    values: &mut Stack<Value>,
) -> Result<Moved, Memory>
    ensures { IfOk result (λ m. M.alias_name k t.kind t.at symbols.old values.old ≡ moved m symbols.new values.new) }
{
    let Terminal { kind, at } = t;
    match kind {
        Kind::Variable(x) => {
            values.push(Value::Variable(Var { name: x, at: at }))?;
            Ok(Moved::Begins(k))
        }
        _ => Ok(Moved::Stuck(Wanted::Other)),
    }
}
