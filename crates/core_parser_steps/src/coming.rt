// What is to come.

ghost use Rattle.std.specs.Prelude.{◌≡◌, ◌+◌, ◌++◌, OnOk, IfOk};
ghost use Rattle.core_grammar.specs.Leave.{text_level};
ghost use Rattle.core_parser.specs.declared.symbol.Part.{Part as APart};
ghost use Rattle.core_parser.specs.declared.symbol.Symbol.{Symbol as ASymbol};
ghost use Rattle.core_parser.specs.Machine as M;

use core_grammar::Mark;
use core_parser::{Closer, Element, Maker, Part, Symbol, Term};
use core_parser_values::Stack;
use hipe_base::Memory;

/// These symbols come next, in reading order.
pub fn push_all(coming: &[Symbol], symbols: &mut Stack<Symbol>) -> Result<(), Memory>
    ensures { OnOk result (symbols.new ≡ coming.now ++ symbols.old) }
{
    let mut left = coming.len();
    while left > 0 {
        left -= 1;
        symbols.push(coming[left])?;
    }
    Ok(())
}

/// One level deeper. A level is never so great that there is none, since parts of much lesser levels are refused; the answer
/// would be that of memory.
pub fn deeper(k: u32) -> Result<u32, Memory>
    ensures { IfOk result (λ m. m ≡ k + 1) }
{
    if k == u32::MAX {
        return Err(Memory);
    }
    Ok(k + 1)
}

/// The level of the deepest part that begins with a text.
pub fn text_level(k: u32, text: &[u32]) -> Result<u32, Memory>
    ensures { IfOk result (λ m. m ≡ text_level k text.now) }
{
    if text.is_empty() {
        return Ok(k);
    }
    deeper(k)
}

/// One level deeper.
pub fn deeper_term(x: Term) -> Result<Term, Memory>
    ensures { IfOk result (λ y. y ≡ M.deeper x) }
{
    match x {
        Term::Expression(k) => {
            let k = deeper(k)?;
            Ok(Term::Expression(k))
        }
        Term::Pattern(k) => {
            let k = deeper(k)?;
            Ok(Term::Pattern(k))
        }
        Term::Constant(k) => {
            let k = deeper(k)?;
            Ok(Term::Constant(k))
        }
    }
}

/// The level of a term.
pub fn level_of(x: Term) -> u32
    ensures { result ≡ M.level_of x }
{
    match x {
        Term::Expression(k) | Term::Pattern(k) | Term::Constant(k) => k,
    }
}

/// The constants of an annotation, with what closes them.
pub fn annotation_list(symbols: &mut Stack<Symbol>) -> Result<(), Memory>
    ensures { OnOk result (symbols.new ≡ M.annotation_list symbols.old) }
{
    let constant = Element::Term(Term::Constant(1));
    let coming = [
        Symbol::Wants(Mark::OpenSquare),
        Symbol::Make(Maker::Empty(constant)),
        Symbol::First(constant, Closer::Square),
        Symbol::Make(Maker::Drop),
        Symbol::Wants(Mark::CloseRound),
    ];
    push_all(&coming, symbols)
}

/// What closes an annotation.
pub fn annotation(symbols: &mut Stack<Symbol>) -> Result<(), Memory>
    ensures { OnOk result (symbols.new ≡ M.annotation symbols.old) }
{
    annotation_list(symbols)?;
    symbols.push(Symbol::Wants(Mark::Dash))
}

/// Arguments in `(..)`, of this level.
pub fn arguments(k: u32, maker: Maker, symbols: &mut Stack<Symbol>) -> Result<(), Memory>
    ensures { OnOk result (symbols.new ≡ M.arguments k maker symbols.old) }
{
    let part = Element::Term(Term::Expression(k));
    let coming = [
        Symbol::Wants(Mark::OpenRound),
        Symbol::Make(Maker::Empty(part)),
        Symbol::First(part, Closer::Round),
        Symbol::Make(maker),
    ];
    push_all(&coming, symbols)
}

/// An expression that is a part of one of this level.
pub fn part(k: u32) -> Result<Symbol, Memory>
    ensures { IfOk result (λ s. s ≡ ASymbol.Annotated (APart.Expression (k + 1))) }
{
    let inner = deeper(k)?;
    Ok(Symbol::Annotated(Part::Expression(inner)))
}

/// The guard and the body of a clause of this level.
pub fn guarded(k: u32, symbols: &mut Stack<Symbol>) -> Result<(), Memory>
    ensures { OnOk result (symbols.new ≡ M.guarded k symbols.old) }
{
    let part = part(k)?;
    let coming = [
        part,
        Symbol::Wants(Mark::Arrow),
        part,
        Symbol::Make(Maker::Clause),
    ];
    push_all(&coming, symbols)
}

/// What follows the patterns of a clause.
pub fn when_guarded(k: u32, symbols: &mut Stack<Symbol>) -> Result<(), Memory>
    ensures { OnOk result (symbols.new ≡ M.when_guarded k symbols.old) }
{
    guarded(k, symbols)?;
    symbols.push(Symbol::Wants(Mark::When))
}

/// What follows the pattern of a clause that has one without `<`.
pub fn one_when_guarded(k: u32, symbols: &mut Stack<Symbol>) -> Result<(), Memory>
    ensures { OnOk result (symbols.new ≡ M.one_when_guarded k symbols.old) }
{
    when_guarded(k, symbols)?;
    symbols.push(Symbol::Make(Maker::OnePattern))
}

/// What follows the `=` of an alias.
pub fn alias_of(k: u32, symbols: &mut Stack<Symbol>) -> Result<(), Memory>
    ensures { OnOk result (symbols.new ≡ M.alias_of k symbols.old) }
{
    let inner = deeper(k)?;
    push_all(
        &[Symbol::Pattern(inner), Symbol::Make(Maker::Alias)],
        symbols,
    )
}

/// What follows the name of a definition.
pub fn defined(k: u32, symbols: &mut Stack<Symbol>) -> Result<(), Memory>
    ensures { OnOk result (symbols.new ≡ M.defined k symbols.old) }
{
    let coming = [
        Symbol::Wants(Mark::Equals),
        Symbol::Annotated(Part::Fun(k)),
        Symbol::Make(Maker::Definition),
        Symbol::Definitions(k),
    ];
    push_all(&coming, symbols)
}
