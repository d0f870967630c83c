// A run of the parser over the tokens of a text.

ghost use Rattle.std.specs.Prelude.{◌≡◌, ◌<◌, ◌^◌, [], length, All};
ghost use Rattle.core_token.specs.Text.{StandsIn};
ghost use Rattle.core_grammar.specs.Language.{limit};
ghost use Rattle.core_parser.specs.Machine.{run};
ghost use Rattle.hipe_base.specs.declared.limits.TheConstants.{LEVEL_LIMIT};
ghost use Rattle.core_reader.specs.Reading.{AnswersRun};
ghost use Rattle.core_reader.specs.Terminals.{terminals_of};

use crate::terminal::terminal_of;
use core_grammar::Fault;
use core_parser::{Symbol, Value};
use core_parser_steps::{Refusal, step};
use core_parser_values::Stack;
use core_token::Token;
use hipe_base::limits::LEVEL_LIMIT;
use hipe_terms::Place;
use std::alloc::Global;

/// The values that are left once these symbols were read, or the first fault; the text ends at a place.
pub fn run(
    alloc: Global,
    text: &[u8],
    tokens: &[Token],
    end: Place,
    symbols: Stack<Symbol>,
) -> Result<Stack<Value>, Refusal>
    requires short { length text.now < 2 ^ 32 }
    requires stand { All (StandsIn text.now) tokens.now }
    ensures { AnswersRun (run (limit LEVEL_LIMIT) end symbols [] (terminals_of text.now tokens.now)) result }
{
    let mut symbols = symbols;
    let mut values: Stack<Value> = Stack::new(alloc);
    for token in tokens {
        let terminal = terminal_of(alloc, text, *token)?;
        match step(alloc, LEVEL_LIMIT, terminal, &mut symbols, &mut values) {
            Ok(()) => {}
            Err(refusal) => return Err(refusal),
        }
    }
    match symbols.pop() {
        Some(_) => Err(Refusal::At(Fault::Syntax, end)),
        None => Ok(values),
    }
}
