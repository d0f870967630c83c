// A terminal of a run.

ghost use Rattle.std.specs.Prelude.{◌≡◌, if◌then◌else◌};
ghost use Rattle.core_grammar.specs.declared.fault.Fault.{Fault as AFault};
ghost use Rattle.core_grammar.specs.Language.{is_foreign};
ghost use Rattle.core_parser.specs.Machine.{outside_of};
ghost use Rattle.core_parser_steps.specs.Steps.{IsNarrow};
ghost use Rattle.core_parser_steps.specs.Runs.{Stepped};

use crate::machine::go;
use crate::refusal::Refusal;
use core_grammar::{Fault, Kind, Mark, Terminal};
use core_parser::{Moved, Symbol, Value, Wanted};
use core_parser_values::Stack;
use hipe_base::limits::ARITY_LIMIT;
use std::alloc::Global;

// Whether Core Erlang has such a terminal, and the profile hasn't.
fn is_foreign(kind: &Kind) -> bool
    ensures { result ≡ is_foreign kind.now }
{
    matches!(
        kind,
        Kind::Float | Kind::Mark(Mark::Receive | Mark::Hash | Mark::Tilde)
    )
}

// Why a terminal doesn't go on.
fn why(foreign: bool, wanted: Wanted) -> Fault
    ensures { result ≡ if foreign then outside_of wanted else AFault.Syntax }
{
    if !foreign {
        return Fault::Syntax;
    }
    match wanted {
        Wanted::Integer => Fault::NotInProfile,
        Wanted::Other => Fault::Syntax,
    }
}

/// The move of a terminal in a run where no part may have a level above the most, and no call more than 255 arguments.
pub fn step(
    alloc: Global,
    most: u32,
    t: Terminal,
    symbols: &mut Stack<Symbol>,
    values: &mut Stack<Value>,
) -> Result<(), Refusal>
    requires { IsNarrow t.kind }
    ensures { Stepped most t symbols.old values.old symbols.new values.new result }
{
    let at = t.at;
    let foreign = is_foreign(&t.kind);
    match go(alloc, t, symbols, values)? {
        Moved::Plain => Ok(()),
        Moved::Begins(k) => {
            if k > most {
                return Err(Refusal::At(Fault::TooDeep, at));
            }
            Ok(())
        }
        Moved::Argument(i, k) => {
            if u64::from(i) > ARITY_LIMIT || k > most {
                return Err(Refusal::At(Fault::TooDeep, at));
            }
            Ok(())
        }
        Moved::Operand => Err(Refusal::At(Fault::NotInProfile, at)),
        Moved::Stuck(wanted) => Err(Refusal::At(why(foreign, wanted), at)),
    }
}
