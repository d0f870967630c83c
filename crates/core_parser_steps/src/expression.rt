// Expressions.

ghost use Rattle.std.specs.Prelude.{◌≡◌, IfOk};
ghost use Rattle.core_grammar.specs.declared.terminal.Kind.{Kind as AKind};
ghost use Rattle.core_grammar.specs.declared.terminal.Mark.{Mark as AMark};
ghost use Rattle.core_parser.specs.declared.value.Value.{Value as AValue};
ghost use Rattle.core_parser.specs.Machine as M;
ghost use Rattle.core_parser.specs.Machine.{moved};
ghost use Rattle.core_parser_steps.specs.Steps.{IsNarrow};

use crate::beginning::{begin, open_list, open_tuple, single};
use crate::coming::{arguments, deeper, part, text_level};
use core_ast::{Expr, Node};
use core_grammar::{Kind, Mark, Terminal};
use core_parser::{Closer, Element, Maker, Moved, Part, Symbol, Term, Value, Wanted};
use core_parser_values::Stack;
use core_parser_values::text::text_at;
use hipe_base::Memory;
use hipe_terms::{Atom, Place};
use sqlite_items::Items;
use std::alloc::Global;

// An expression at a place.
fn expression_at(at: Place, node: Node) -> Value
    ensures { result ≡ AValue.Expression (record { node = node; at = at }) }
{
    Value::Expression(Expr { node, at })
}

// An atom, or the name of a function.
fn atom(
    k: u32,
    at: Place,
    atom: Atom,
    symbols: &mut Stack<Symbol>,
    values: &mut Stack<Value>,
) -> Result<Moved, Memory>
    ensures { IfOk result (λ m. M.bare_expression k (AKind.Atom atom) at symbols.old values.old ≡ moved m symbols.new values.new) }
{
    symbols.push(Symbol::AfterAtom)?;
    values.push(Value::At(at))?;
    single(k, Value::Atom(atom), values)
}

// The `<` of values.
fn open_values(
    alloc: Global,
    k: u32,
    at: Place,
    symbols: &mut Stack<Symbol>,
    values: &mut Stack<Value>,
) -> Result<Moved, Memory>
    ensures { IfOk result (λ m. M.bare_expression k (AKind.Mark AMark.Less) at symbols.old values.old ≡ moved m symbols.new values.new) }
{
    let inner = Element::Term(Term::Expression(deeper(k)?));
    let coming = [
        Symbol::First(inner, Closer::Angle),
        Symbol::Make(Maker::Values),
    ];
    let begun = begin(k, at, &coming, symbols, values)?;
    values.push(Value::Expressions(Items::new(alloc)))?;
    Ok(begun)
}

// let Vars = E in E
fn begin_let(
    k: u32,
    at: Place,
    symbols: &mut Stack<Symbol>,
    values: &mut Stack<Value>,
) -> Result<Moved, Memory>
    ensures { IfOk result (λ m. M.bare_expression k (AKind.Mark AMark.Let) at symbols.old values.old ≡ moved m symbols.new values.new) }
{
    let part = part(k)?;
    let coming = [
        Symbol::Variables,
        Symbol::Wants(Mark::Equals),
        part,
        Symbol::Wants(Mark::In),
        part,
        Symbol::Make(Maker::Let),
    ];
    begin(k, at, &coming, symbols, values)
}

// case E of clauses end
fn begin_case(
    k: u32,
    at: Place,
    symbols: &mut Stack<Symbol>,
    values: &mut Stack<Value>,
) -> Result<Moved, Memory>
    ensures { IfOk result (λ m. M.bare_expression k (AKind.Mark AMark.Case) at symbols.old values.old ≡ moved m symbols.new values.new) }
{
    let inner = deeper(k)?;
    let part = Symbol::Annotated(Part::Expression(inner));
    let coming = [
        part,
        Symbol::Wants(Mark::Of),
        Symbol::Make(Maker::NoClauses),
        Symbol::Clause(inner),
        Symbol::ClausesRest(inner),
    ];
    begin(k, at, &coming, symbols, values)
}

// fun ( variables ) -> E
fn begin_fun(
    alloc: Global,
    k: u32,
    at: Place,
    symbols: &mut Stack<Symbol>,
    values: &mut Stack<Value>,
) -> Result<Moved, Memory>
    ensures { IfOk result (λ m. M.bare_fun k (AKind.Mark AMark.Fun) at symbols.old values.old ≡ moved m symbols.new values.new) }
{
    let coming = [
        Symbol::Wants(Mark::OpenRound),
        Symbol::First(Element::Variable, Closer::Round),
        Symbol::Wants(Mark::Arrow),
        part(k)?,
        Symbol::Make(Maker::Fun),
    ];
    let begun = begin(k, at, &coming, symbols, values)?;
    values.push(Value::Variables(Items::new(alloc)))?;
    Ok(begun)
}

// The `fun` of an expression.
fn begin_lambda(
    alloc: Global,
    k: u32,
    at: Place,
    symbols: &mut Stack<Symbol>,
    values: &mut Stack<Value>,
) -> Result<Moved, Memory>
    ensures { IfOk result (λ m. M.bare_expression k (AKind.Mark AMark.Fun) at symbols.old values.old ≡ moved m symbols.new values.new) }
{
    symbols.push(Symbol::Make(Maker::Lambda))?;
    values.push(Value::At(at))?;
    begin_fun(alloc, k, at, symbols, values)
}

/// A fun.
pub fn bare_fun(
    alloc: Global,
    k: u32,
    t: Terminal,
    symbols: &mut Stack<Symbol>,
    values: &mut Stack<Value>,
) -> Result<Moved, Memory>
    ensures { IfOk result (λ m. M.bare_fun k t.kind t.at symbols.old values.old ≡ moved m symbols.new values.new) }
{
    match t.kind {
        Kind::Mark(Mark::Fun) => begin_fun(alloc, k, t.at, symbols, values),
        _ => Ok(Moved::Stuck(Wanted::Other)),
    }
}

// letrec definitions in E
fn begin_letrec(
    k: u32,
    at: Place,
    symbols: &mut Stack<Symbol>,
    values: &mut Stack<Value>,
) -> Result<Moved, Memory>
    ensures { IfOk result (λ m. M.bare_expression k (AKind.Mark AMark.Letrec) at symbols.old values.old ≡ moved m symbols.new values.new) }
{
    let inner = deeper(k)?;
    let part = Symbol::Annotated(Part::Expression(inner));
    let coming = [
        Symbol::Make(Maker::NoDefinitions),
        Symbol::Definitions(inner),
        Symbol::Wants(Mark::In),
        part,
        Symbol::Make(Maker::Letrec),
    ];
    begin(k, at, &coming, symbols, values)
}

// apply E ( list(E) )
fn begin_apply(
    k: u32,
    at: Place,
    symbols: &mut Stack<Symbol>,
    values: &mut Stack<Value>,
) -> Result<Moved, Memory>
    ensures { IfOk result (λ m. M.bare_expression k (AKind.Mark AMark.Apply) at symbols.old values.old ≡ moved m symbols.new values.new) }
{
    arguments(deeper(k)?, Maker::Apply, symbols)?;
    begin(k, at, &[part(k)?], symbols, values)
}

// call A(atom) : A(atom) ( list(E) )
fn begin_call(
    k: u32,
    at: Place,
    symbols: &mut Stack<Symbol>,
    values: &mut Stack<Value>,
) -> Result<Moved, Memory>
    ensures { IfOk result (λ m. M.bare_expression k (AKind.Mark AMark.Call) at symbols.old values.old ≡ moved m symbols.new values.new) }
{
    arguments(deeper(k)?, Maker::Call, symbols)?;
    let coming = [
        Symbol::Annotated(Part::Operand),
        Symbol::Wants(Mark::Colon),
        Symbol::Annotated(Part::Operand),
    ];
    begin(k, at, &coming, symbols, values)
}

// primop A(atom) ( list(E) )
fn begin_primop(
    k: u32,
    at: Place,
    symbols: &mut Stack<Symbol>,
    values: &mut Stack<Value>,
) -> Result<Moved, Memory>
    ensures { IfOk result (λ m. M.bare_expression k (AKind.Mark AMark.Primop) at symbols.old values.old ≡ moved m symbols.new values.new) }
{
    arguments(deeper(k)?, Maker::Primop, symbols)?;
    begin(k, at, &[Symbol::Annotated(Part::Atom)], symbols, values)
}

// try E of Vars -> E catch Vars -> E
fn begin_try(
    k: u32,
    at: Place,
    symbols: &mut Stack<Symbol>,
    values: &mut Stack<Value>,
) -> Result<Moved, Memory>
    ensures { IfOk result (λ m. M.bare_expression k (AKind.Mark AMark.Try) at symbols.old values.old ≡ moved m symbols.new values.new) }
{
    let part = part(k)?;
    let coming = [
        part,
        Symbol::Wants(Mark::Of),
        Symbol::Variables,
        Symbol::Wants(Mark::Arrow),
        part,
        Symbol::Wants(Mark::Catch),
        Symbol::Variables,
        Symbol::Wants(Mark::Arrow),
        part,
        Symbol::Make(Maker::Try),
    ];
    begin(k, at, &coming, symbols, values)
}

// do E E
fn begin_do(
    k: u32,
    at: Place,
    symbols: &mut Stack<Symbol>,
    values: &mut Stack<Value>,
) -> Result<Moved, Memory>
    ensures { IfOk result (λ m. M.bare_expression k (AKind.Mark AMark.Do) at symbols.old values.old ≡ moved m symbols.new values.new) }
{
    let part = part(k)?;
    let coming = [part, part, Symbol::Make(Maker::Do)];
    begin(k, at, &coming, symbols, values)
}

// catch E
fn begin_catch(
    k: u32,
    at: Place,
    symbols: &mut Stack<Symbol>,
    values: &mut Stack<Value>,
) -> Result<Moved, Memory>
    ensures { IfOk result (λ m. M.bare_expression k (AKind.Mark AMark.Catch) at symbols.old values.old ≡ moved m symbols.new values.new) }
{
    let part = part(k)?;
    let coming = [part, Symbol::Make(Maker::Catch)];
    begin(k, at, &coming, symbols, values)
}

// An expression that begins with a keyword or a sign.
fn marked(
    alloc: Global,
    k: u32,
    at: Place,
    mark: Mark,
    symbols: &mut Stack<Symbol>,
    values: &mut Stack<Value>,
) -> Result<Moved, Memory>
    ensures { IfOk result (λ m. M.bare_expression k (AKind.Mark mark) at symbols.old values.old ≡ moved m symbols.new values.new) }
{
    match mark {
        Mark::OpenSquare => open_list(alloc, Term::Expression(k), at, symbols, values),
        Mark::OpenBrace => open_tuple(alloc, Term::Expression(k), at, symbols, values),
        Mark::Less => open_values(alloc, k, at, symbols, values),
        Mark::Let => begin_let(k, at, symbols, values),
        Mark::Case => begin_case(k, at, symbols, values),
        Mark::Fun => begin_lambda(alloc, k, at, symbols, values),
        Mark::Letrec => begin_letrec(k, at, symbols, values),
        Mark::Apply => begin_apply(k, at, symbols, values),
        Mark::Call => begin_call(k, at, symbols, values),
        Mark::Primop => begin_primop(k, at, symbols, values),
        Mark::Try => begin_try(k, at, symbols, values),
        Mark::Do => begin_do(k, at, symbols, values),
        Mark::Catch => begin_catch(k, at, symbols, values),
        _ => Ok(Moved::Stuck(Wanted::Integer)),
    }
}

/// An expression of this level.
#[tactic(auto, unfolding(core_grammar::specs::Trees::expression_at))]
pub fn bare_expression(
    alloc: Global,
    k: u32,
    t: Terminal,
    symbols: &mut Stack<Symbol>,
    values: &mut Stack<Value>,
) -> Result<Moved, Memory>
    requires { IsNarrow t.kind }
    ensures { IfOk result (λ m. M.bare_expression k t.kind t.at symbols.old values.old ≡ moved m symbols.new values.new) }
{
    let Terminal { kind, at } = t;
    match kind {
        Kind::Natural(n) => single(k, expression_at(at, Node::Int(n as i64)), values),
        Kind::Integer(n) => single(k, expression_at(at, Node::Int(n)), values),
        Kind::Text(s) => {
            let text = Value::Expression(text_at(alloc, at, s.as_slice())?);
            single(text_level(k, s.as_slice())?, text, values)
        }
        Kind::Atom(a) => atom(k, at, a, symbols, values),
        Kind::Variable(x) => single(k, expression_at(at, Node::Var(x)), values),
        Kind::Mark(mark) => marked(alloc, k, at, mark, symbols, values),
        Kind::Float => Ok(Moved::Stuck(Wanted::Integer)),
    }
}
