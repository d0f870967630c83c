// How parts begin: what expressions, patterns and constants share.

ghost use Rattle.std.specs.Prelude.{◌≡◌, ◌∷◌, ◌++◌, OnOk, IfOk};
ghost use Rattle.core_parser.specs.declared.moved.Moved.{Moved as AMoved};
ghost use Rattle.core_parser.specs.declared.symbol.Closer.{Closer as ACloser};
ghost use Rattle.core_parser.specs.declared.symbol.Element.{Element as AnElement};
ghost use Rattle.core_parser.specs.declared.symbol.Maker.{Maker as AMaker};
ghost use Rattle.core_parser.specs.declared.symbol.Symbol.{Symbol as ASymbol};
ghost use Rattle.core_parser.specs.declared.value.Value.{Value as AValue};
ghost use Rattle.core_parser.specs.Machine as M;
ghost use Rattle.core_parser.specs.Values.{empty};

use crate::coming::{deeper_term, level_of, push_all};
use core_parser::{Closer, Element, Maker, Moved, Symbol, Term, Value};
use core_parser_values::{Stack, element};
use hipe_base::Memory;
use hipe_terms::Place;
use std::alloc::Global;

/// A part of this level that is one terminal.
pub fn single(k: u32, part: Value, values: &mut Stack<Value>) -> Result<Moved, Memory>
    ensures begins { IfOk result (λ m. m ≡ AMoved.Begins k) }
    ensures value { OnOk result (values.new ≡ part ∷ values.old) }
{
    values.push(part)?;
    Ok(Moved::Begins(k))
}

/// A part of this level begins at a place, and goes on with these symbols.
pub fn begin(
    k: u32,
    at: Place,
    coming: &[Symbol],
    symbols: &mut Stack<Symbol>,
    values: &mut Stack<Value>,
) -> Result<Moved, Memory>
    ensures begins { IfOk result (λ m. m ≡ AMoved.Begins k) }
    ensures symbols { OnOk result (symbols.new ≡ coming.now ++ symbols.old) }
    ensures values { OnOk result (values.new ≡ AValue.At at ∷ values.old) }
{
    push_all(coming, symbols)?;
    values.push(Value::At(at))?;
    Ok(Moved::Begins(k))
}

/// The `[` of a list.
pub fn open_list(
    alloc: Global,
    x: Term,
    at: Place,
    symbols: &mut Stack<Symbol>,
    values: &mut Stack<Value>,
) -> Result<Moved, Memory>
    ensures begins { IfOk result (λ m. m ≡ AMoved.Begins (M.level_of x)) }
    ensures symbols { OnOk result (symbols.new ≡ ASymbol.CellsFirst x ∷ symbols.old) }
    ensures values { OnOk result (values.new ≡ empty (AnElement.Term x) ∷ AValue.At at ∷ AValue.At at ∷ values.old) }
{
    symbols.push(Symbol::CellsFirst(x))?;
    values.push(Value::At(at))?;
    values.push(Value::At(at))?;
    values.push(element::empty(alloc, Element::Term(x)))?;
    Ok(Moved::Begins(level_of(x)))
}

/// The `{` of a tuple.
pub fn open_tuple(
    alloc: Global,
    x: Term,
    at: Place,
    symbols: &mut Stack<Symbol>,
    values: &mut Stack<Value>,
) -> Result<Moved, Memory>
    ensures begins { IfOk result (λ m. m ≡ AMoved.Begins (M.level_of x)) }
    ensures symbols { OnOk result (symbols.new ≡ ASymbol.First (AnElement.Term (M.deeper x)) ACloser.Brace ∷ ASymbol.Make (AMaker.Tuple x) ∷ symbols.old) }
    ensures values { OnOk result (values.new ≡ empty (AnElement.Term x) ∷ AValue.At at ∷ values.old) }
{
    let part = Element::Term(deeper_term(x)?);
    symbols.push(Symbol::Make(Maker::Tuple(x)))?;
    symbols.push(Symbol::First(part, Closer::Brace))?;
    values.push(Value::At(at))?;
    values.push(element::empty(alloc, Element::Term(x)))?;
    Ok(Moved::Begins(level_of(x)))
}
