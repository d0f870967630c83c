// Modules and calls.

ghost use Rattle.std.specs.Prelude.{◌≡◌, ◌<◌, ◌^◌, length, IfOk};
ghost use Rattle.core_ast.specs.Trees.{module_of as tree_of};
ghost use Rattle.core_ast.specs.WellFormed.{IsWellFormed};
ghost use Rattle.core_parser.specs.Machine.{module_start, call_start};
ghost use Rattle.core_reader.specs.Language.{end_of, token_refusal, fault_refusal, Answers, Only, AnswersCall, OnlyCall};
ghost use Rattle.core_reader.specs.Reading.{module_of, Found, call_of, FoundCall};
ghost use Rattle.hipe_terms.specs.Constants.{AreConstants};

use crate::refusal::{CallRefusal, ReadRefusal};
use crate::run::run;
use core_ast::Module;
use core_grammar::{Fault, Mark};
use core_parser::{Element, Maker, Part, Symbol, Term};
use core_parser_steps::Refusal;
use core_parser_values::Stack;
use core_parser_values::taken::{take, to_call, to_module};
use core_text::place::{place_after, start};
use core_token::{TokenFault, TokenKind, tokens};
use hipe_base::Memory;
use hipe_terms::{Call, Place};
use std::alloc::Global;

// The place of a text's end.
fn end_of(text: &[u8]) -> Place
    requires { length text.now < 2 ^ 32 }
    ensures { result ≡ end_of text.now }
{
    place_after(start(), text)
}

// Why a text has no tokens.
fn token_refusal(kind: TokenKind, at: Place) -> ReadRefusal
    ensures { result ≡ token_refusal kind at }
{
    match kind {
        TokenKind::Token => ReadRefusal::Token { at },
        TokenKind::WideInteger => ReadRefusal::WideInteger { at },
        TokenKind::LongAtom => ReadRefusal::LongAtom { at },
    }
}

// Why its tokens are no module.
fn fault_refusal(fault: Fault, at: Place) -> ReadRefusal
    ensures { result ≡ fault_refusal fault at }
{
    match fault {
        Fault::Syntax => ReadRefusal::Syntax { at },
        Fault::NotInProfile => ReadRefusal::NotInProfile { at },
        Fault::TooDeep => ReadRefusal::TooDeep { at },
    }
}

// Where a module begins.
fn module_start(alloc: Global) -> Result<Stack<Symbol>, Memory>
    ensures { IfOk result (λ symbols. symbols ≡ module_start) }
{
    let mut symbols = Stack::new(alloc);
    symbols.push(Symbol::Annotated(Part::Module))?;
    Ok(symbols)
}

// Where a call begins.
fn call_start(alloc: Global) -> Result<Stack<Symbol>, Memory>
    ensures { IfOk result (λ symbols. symbols ≡ call_start) }
{
    let mut symbols = Stack::new(alloc);
    symbols.push(Symbol::ArgumentsFirst)?;
    symbols.push(Symbol::Make(Maker::Empty(Element::Term(Term::Constant(1)))))?;
    symbols.push(Symbol::Wants(Mark::OpenRound))?;
    symbols.push(Symbol::Bare(Part::Atom))?;
    Ok(symbols)
}

// The module that the machine finds in a text.
#[tactic(auto, unfolding(crate::specs::Reading::module_of))]
fn found_module(alloc: Global, text: &[u8]) -> Result<Module, ReadRefusal>
    requires { length text.now < 2 ^ 32 }
    ensures { Found (module_of text.now) result }
{
    let list = match tokens(alloc, text) {
        Ok(list) => list,
        Err(TokenFault::Refused { kind, at }) => return Err(token_refusal(kind, at)),
        Err(TokenFault::Memory) => return Err(ReadRefusal::Memory),
    };
    let symbols = module_start(alloc)?;
    match run(alloc, text, list.list(), end_of(text), symbols) {
        Ok(values) => {
            let mut values = values;
            Ok(to_module(alloc, take(&mut values)))
        }
        Err(Refusal::At(fault, at)) => Err(fault_refusal(fault, at)),
        Err(Refusal::Memory) => Err(ReadRefusal::Memory),
    }
}

/// The module of a text of less than 2^32 bytes, with the places of its parts: the grammar of Core Erlang 1.0.3, appendix A,
/// without floats, `receive`, binaries and maps.
///
/// # Errors
///
/// - `Token`, `WideInteger` or `LongAtom` exactly where the text has no tokens, at its first fault; this comes before the others.
/// - `Syntax` or `NotInProfile` at the first token with which no module goes on, whatever its levels: `NotInProfile` where it is
///   a float, `receive`, `#` or `~` and an integer could stand there, or a variable as the module or the name of a `call`.
///   `TooDeep` at the first token with which a part of level 1,001 begins. The first of these tokens counts, and the end of the
///   text is a last token, which is `Syntax`.
/// - `Memory` where memory runs out.
#[tactic(auto, using(crate::proofs::Answering::answering, crate::proofs::Ranges::ranges))]
pub fn read_module(alloc: Global, text: &[u8]) -> Result<Module, ReadRefusal>
    requires short { length text.now < 2 ^ 32 }
    ensures answer { Answers text.now result }
    ensures only { Only text.now result }
    // What is read is as every call wants modules.
    ensures well_formed { IfOk result (λ m. IsWellFormed (tree_of m)) }
{
    found_module(alloc, text)
}

// The call that the machine finds in a text.
#[tactic(auto, unfolding(crate::specs::Reading::call_of))]
fn found_call(alloc: Global, text: &[u8]) -> Result<Call, CallRefusal>
    requires { length text.now < 2 ^ 32 }
    ensures { FoundCall (call_of text.now) result }
{
    let list = match tokens(alloc, text) {
        Ok(list) => list,
        Err(TokenFault::Refused { kind: _, at }) => return Err(CallRefusal::Refused { at }),
        Err(TokenFault::Memory) => return Err(CallRefusal::Memory),
    };
    let symbols = call_start(alloc)?;
    match run(alloc, text, list.list(), end_of(text), symbols) {
        Ok(values) => {
            let mut values = values;
            Ok(to_call(alloc, take(&mut values)))
        }
        Err(Refusal::At(_, at)) => Err(CallRefusal::Refused { at }),
        Err(Refusal::Memory) => Err(CallRefusal::Memory),
    }
}

/// The call of a text of less than 2^32 bytes, as `'f'(1,[2])`: an atom, and constants in `(..)`.
///
/// # Errors
///
/// - `Refused` exactly where the text is no call, at the first fault of its tokens, or else at the first token with which no call
///   goes on, with which a part of level 1,001 begins, or with which the 256th argument begins. The end of the text counts as a
///   last token.
/// - `Memory` where memory runs out.
#[tactic(auto, using(crate::proofs::Answering::answering, crate::proofs::Ranges::ranges))]
pub fn read_call(alloc: Global, text: &str) -> Result<Call, CallRefusal>
    requires short { length text.now < 2 ^ 32 }
    ensures answer { AnswersCall text.now result }
    ensures only { OnlyCall text.now result }
    // What is read is as every call wants constants.
    ensures constants { IfOk result (λ c. AreConstants c.args) }
{
    found_call(alloc, text.as_bytes())
}
