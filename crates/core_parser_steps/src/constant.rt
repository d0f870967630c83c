// Constants.

ghost use Rattle.std.specs.Prelude.{◌≡◌, IfOk};
ghost use Rattle.core_parser.specs.Machine as M;
ghost use Rattle.core_parser.specs.Machine.{moved};
ghost use Rattle.core_parser_steps.specs.Steps.{IsNarrow, IsPart};

use crate::beginning::{open_list, open_tuple, single};
use crate::coming::text_level;
use core_grammar::{Kind, Mark, Terminal};
use core_parser::{Moved, Symbol, Term, Value, Wanted};
use core_parser_values::Stack;
use core_parser_values::text::constant_text;
use hipe_base::Memory;
use hipe_terms::Constant;
use std::alloc::Global;

/// A constant of this level.
#[tactic(auto, unfolding(core_grammar::specs::Trees::constant_of))]
pub fn constant(
    alloc: Global,
    k: u32,
    t: Terminal,
    symbols: &mut Stack<Symbol>,
    values: &mut Stack<Value>,
) -> Result<Moved, Memory>
    requires { IsNarrow t.kind }
    ensures part { IfOk result (λ m. IsPart m) }
    ensures moves { IfOk result (λ m. M.constant k t.kind t.at symbols.old values.old ≡ moved m symbols.new values.new) }
{
    let Terminal { kind, at } = t;
    match kind {
        Kind::Natural(n) => single(k, Value::Constant(Constant::Int(n as i64)), values),
        Kind::Integer(n) => single(k, Value::Constant(Constant::Int(n)), values),
        Kind::Text(s) => {
            let text = Value::Constant(constant_text(alloc, s.as_slice())?);
            single(text_level(k, s.as_slice())?, text, values)
        }
        Kind::Atom(a) => single(k, Value::Constant(Constant::Atom(a)), values),
        Kind::Mark(Mark::OpenSquare) => open_list(alloc, Term::Constant(k), at, symbols, values),
        Kind::Mark(Mark::OpenBrace) => open_tuple(alloc, Term::Constant(k), at, symbols, values),
        _ => Ok(Moved::Stuck(Wanted::Integer)),
    }
}
