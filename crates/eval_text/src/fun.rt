// The text of funs.

ghost use Rattle.std.specs.Prelude.{◌≡◌, ◌++◌, OnOk, string_bytes, decimal};
ghost use Rattle.hipe_terms.specs.Shown.{fun_text, function_text};
ghost use Rattle.eval_text.specs.Named.{names_of};

use core_ast::FunDef;
use hipe_base::Memory;
use hipe_terms::show_atom;
use std::alloc::Global;

/// Appends the text of a fun by the number of its function: the name and arity of a definition, any other by its number from
/// the last definition on. An error where there is no memory for it.
pub fn show_fun(alloc: Global, defs: &[FunDef], n: u64, text: &mut String) -> Result<(), Memory>
    ensures { OnOk result (string_bytes text.new ≡ string_bytes text.old ++ fun_text (names_of defs.now) n) }
{
    text.push_str("#Fun<")?;
    show_function(alloc, defs, n, text)?;
    text.push_str(">")?;
    Ok(())
}

// Appends what stands in a fun's brackets.
#[tactic(auto, using(crate::proofs::Named::named))]
fn show_function(alloc: Global, defs: &[FunDef], n: u64, text: &mut String) -> Result<(), Memory>
    ensures { OnOk result (string_bytes text.new ≡ string_bytes text.old ++ function_text (names_of defs.now) n) }
{
    match defs.get(n as usize) {
        Some(def) => {
            show_atom(alloc, &def.name.name, text)?;
            text.push_str("/")?;
            show_number(alloc, def.name.arity, text)?;
            Ok(())
        }
        None => show_number(alloc, n - defs.len() as u64, text),
    }
}

fn show_number(alloc: Global, n: u64, text: &mut String) -> Result<(), Memory>
    ensures { OnOk result (string_bytes text.new ≡ string_bytes text.old ++ decimal n) }
{
    let digits = format!(in alloc; "{n}")?;
    text.push_str(digits.as_str())
}
