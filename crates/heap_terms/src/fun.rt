// The text of funs.

ghost use Rattle.std.specs.Prelude.{◌≡◌, ◌++◌, OnOk, string_bytes, decimal};
ghost use Rattle.hipe_terms.specs.Shown.{fun_text, function_text};
ghost use Rattle.heap_terms.specs.Seen.{symbols_of};

use crate::symbols::Symbols;
use hipe_base::Memory;
use hipe_terms::show_atom;
use std::alloc::Global;

/// Appends the text of a fun by the number of its function: the name and arity of a definition, any other by its number from
/// the last definition on. An error where there is no memory for it.
pub fn show_fun(alloc: Global, symbols: &Symbols, n: u64, text: &mut String) -> Result<(), Memory>
    ensures { OnOk result (string_bytes text.new ≡ string_bytes text.old ++ fun_text (symbols_of symbols.now).definitions n) }
{
    text.push_str("#Fun<")?;
    show_function(alloc, symbols, n, text)?;
    text.push_str(">")?;
    Ok(())
}

// Appends what stands in a fun's brackets.
#[tactic(auto, using(crate::proofs::Named::named))]
fn show_function(alloc: Global, symbols: &Symbols, n: u64, text: &mut String) -> Result<(), Memory>
    ensures { OnOk result (string_bytes text.new ≡ string_bytes text.old ++ function_text (symbols_of symbols.now).definitions n) }
{
    match symbols.definitions.get(n as usize) {
        Some(definition) => {
            show_atom(alloc, &definition.name, text)?;
            text.push_str("/")?;
            show_number(alloc, definition.arity, text)?;
            Ok(())
        }
        None => show_number(alloc, n - symbols.definitions.len() as u64, text),
    }
}

fn show_number(alloc: Global, n: u64, text: &mut String) -> Result<(), Memory>
    ensures { OnOk result (string_bytes text.new ≡ string_bytes text.old ++ decimal n) }
{
    let digits = format!(in alloc; "{n}")?;
    text.push_str(digits.as_str())
}
