// Definitions and modules.

ghost use Rattle.std.specs.Prelude.{◌≡◌, ◌∷◌, OnOk, IfOk};
ghost use Rattle.core_parser.specs.declared.symbol.Part.{Part as APart};
ghost use Rattle.core_parser.specs.declared.symbol.Symbol.{Symbol as ASymbol};
ghost use Rattle.core_parser.specs.Machine as M;
ghost use Rattle.core_parser.specs.Machine.{moved};

use crate::coming::{annotation, defined, push_all};
use core_grammar::{Kind, Mark, Terminal};
use core_parser::{Closer, Element, Maker, Moved, Part, Symbol, Value, Wanted};
use core_parser_values::{Stack, module};
use hipe_base::Memory;
use std::alloc::Global;

/// The `(` with which a definition begins.
pub fn annotated_name(k: u32, symbols: &mut Stack<Symbol>) -> Result<(), Memory>
    ensures { OnOk result (symbols.new ≡ ASymbol.Bare APart.Name ∷ M.annotation (M.defined k symbols.old)) }
{
    defined(k, symbols)?;
    annotation(symbols)?;
    symbols.push(Symbol::Bare(Part::Name))
}

/// A module.
pub fn bare_module(
    t: Terminal,
    symbols: &mut Stack<Symbol>,
    values: &mut Stack<Value>,
) -> Result<Moved, Memory>
    ensures { IfOk result (λ m. M.bare_module t.kind symbols.old values.old ≡ moved m symbols.new values.new) }
{
    match t.kind {
        Kind::Mark(Mark::Module) => {
            let coming = [
                Symbol::Bare(Part::Atom),
                Symbol::Wants(Mark::OpenSquare),
                Symbol::Make(Maker::Empty(Element::Export)),
                Symbol::First(Element::Export, Closer::Square),
                Symbol::Wants(Mark::Attributes),
                Symbol::Wants(Mark::OpenSquare),
                Symbol::Make(Maker::Empty(Element::Attribute)),
                Symbol::First(Element::Attribute, Closer::Square),
                Symbol::Make(Maker::NoDefinitions),
                Symbol::Definitions(1),
                Symbol::ModuleEnd,
            ];
            push_all(&coming, symbols)?;
            Ok(Moved::Plain)
        }
        _ => Ok(Moved::Stuck(Wanted::Other)),
    }
}

/// The `end` of a module.
pub fn module_end(
    alloc: Global,
    t: Terminal,
    symbols: &mut Stack<Symbol>,
    values: &mut Stack<Value>,
) -> Result<Moved, Memory>
    ensures { IfOk result (λ m. M.module_end t.kind symbols.old values.old ≡ moved m symbols.new values.new) }
{
    match t.kind {
        Kind::Mark(Mark::End) => {
            module::whole_module(alloc, values)?;
            Ok(Moved::Plain)
        }
        _ => Ok(Moved::Stuck(Wanted::Other)),
    }
}
