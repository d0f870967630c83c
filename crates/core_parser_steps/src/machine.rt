// The move of a terminal.

ghost use Rattle.std.specs.Prelude.{◌≡◌, ◌∷◌, OnOk, IfOk};
ghost use Rattle.core_parser.specs.declared.symbol.Maker.{Maker as AMaker};
ghost use Rattle.core_parser.specs.declared.symbol.Symbol.{Symbol as ASymbol};
ghost use Rattle.core_parser.specs.Machine as M;
ghost use Rattle.core_parser.specs.Machine.{move, moved};
ghost use Rattle.core_parser_steps.specs.Steps.{IsNarrow};

use crate::argument::{arguments_first, arguments_rest, call_argument};
use crate::cells::{
    cells_first, cells_rest, expression_tail_inside, pattern_tail_inside, tail, tail_first,
};
use crate::clause::{
    clause, clause_inside, clause_inside_variable, clause_middle, clause_twice_inside,
    clause_twice_inside_annotated, clause_twice_inside_variable, clauses_rest,
};
use crate::coming::{alias_of, defined};
use crate::definition::{annotated_name, module_end};
use crate::element::{first, item, rest, variables};
use crate::mark::wants;
use crate::name::arity;
use crate::part::{annotated, bare};
use crate::pattern::{alias_name, pattern, pattern_inside, pattern_inside_variable};
use core_grammar::{Kind, Mark, Terminal};
use core_parser::{Maker, Moved, Part, Symbol, Value, Wanted};
use core_parser_values::expression::literal;
use core_parser_values::pattern::variable_pattern;
use core_parser_values::{Stack, make};
use hipe_base::Memory;
use std::alloc::Global;

// The name of a function behind its atom.
fn slash(symbols: &mut Stack<Symbol>) -> Result<(), Memory>
    ensures { OnOk result (symbols.new ≡ ASymbol.Arity ∷ ASymbol.Make AMaker.Name ∷ symbols.old) }
{
    symbols.push(Symbol::Make(Maker::Name))?;
    symbols.push(Symbol::Arity)
}

/// The move of a terminal, once what needs no terminal is done.
pub fn go(
    alloc: Global,
    t: Terminal,
    symbols: &mut Stack<Symbol>,
    values: &mut Stack<Value>,
) -> Result<Moved, Memory>
    requires { IsNarrow t.kind }
    ensures { IfOk result (λ m. move symbols.old values.old t.kind t.at ≡ moved m symbols.new values.new) }
{
    while let Some(symbol) = symbols.pop() {
        match symbol {
            Symbol::Make(maker) => make(alloc, maker, values)?,
            Symbol::AfterAtom => {
                if let Kind::Mark(Mark::Slash) = t.kind {
                    slash(symbols)?;
                    return Ok(Moved::Plain);
                }
                literal(alloc, values)?;
            }
            Symbol::AfterVariable(k) => {
                if let Kind::Mark(Mark::Equals) = t.kind {
                    alias_of(k, symbols)?;
                    return Ok(Moved::Plain);
                }
                variable_pattern(alloc, values)?;
            }
            Symbol::Definitions(k) => {
                if let Kind::Mark(Mark::OpenRound) = t.kind {
                    annotated_name(k, symbols)?;
                    return Ok(Moved::Plain);
                }
                if let Kind::Atom(_) = t.kind {
                    defined(k, symbols)?;
                    return bare(alloc, Part::Name, t, symbols, values);
                }
            }
            Symbol::Wants(m) => return Ok(wants(m, &t.kind)),
            Symbol::Annotated(x) => return annotated(alloc, x, t, symbols, values),
            Symbol::Bare(x) => return bare(alloc, x, t, symbols, values),
            Symbol::Arity => return arity(alloc, t, symbols, values),
            Symbol::Item(x) => return item(alloc, x, t, symbols, values),
            Symbol::First(x, c) => return first(alloc, x, c, t, symbols, values),
            Symbol::Rest(x, c) => return rest(x, c, t, symbols, values),
            Symbol::CellsFirst(x) => return cells_first(alloc, x, t, symbols, values),
            Symbol::CellsRest(x) => return cells_rest(alloc, x, t, symbols, values),
            Symbol::Tail(x) => return tail(alloc, x, t, symbols, values),
            Symbol::ExpressionTailInside(k) => {
                return expression_tail_inside(alloc, k, t, symbols, values);
            }
            Symbol::PatternTailInside(k) => {
                return pattern_tail_inside(alloc, k, t, symbols, values);
            }
            Symbol::TailFirst(x) => return tail_first(alloc, x, t, symbols, values),
            Symbol::Variables => return variables(alloc, t, symbols, values),
            Symbol::Pattern(k) => return pattern(alloc, k, t, symbols, values),
            Symbol::PatternInside(k) => return pattern_inside(alloc, k, t, symbols, values),
            Symbol::PatternInsideVariable(k) => {
                return pattern_inside_variable(k, t, symbols, values);
            }
            Symbol::AliasName(k) => return alias_name(k, t, symbols, values),
            Symbol::Clause(k) => return clause(alloc, k, t, symbols, values),
            Symbol::ClauseInside(k) => return clause_inside(alloc, k, t, symbols, values),
            Symbol::ClauseInsideVariable(k) => {
                return clause_inside_variable(alloc, k, t, symbols, values);
            }
            Symbol::ClauseTwiceInside(k) => {
                return clause_twice_inside(alloc, k, t, symbols, values);
            }
            Symbol::ClauseTwiceInsideVariable(k) => {
                return clause_twice_inside_variable(k, t, symbols, values);
            }
            Symbol::ClauseTwiceInsideAnnotated(k) => {
                return clause_twice_inside_annotated(alloc, k, t, symbols, values);
            }
            Symbol::ClauseMiddle(k) => return clause_middle(alloc, k, t, symbols, values),
            Symbol::ClausesRest(k) => return clauses_rest(alloc, k, t, symbols, values),
            Symbol::ModuleEnd => return module_end(alloc, t, symbols, values),
            Symbol::ArgumentsFirst => return arguments_first(alloc, t, symbols, values),
            Symbol::Argument(i) => return call_argument(alloc, i, t, symbols, values),
            Symbol::ArgumentsRest(i) => return arguments_rest(alloc, i, t, symbols, values),
        }
    }
    Ok(Moved::Stuck(Wanted::Other))
}
