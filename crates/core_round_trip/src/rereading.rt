// A module that is printed and read again.

ghost use Rattle.std.specs.Prelude.{◌≡◌, ◌<◌, ◌^◌, length, IfOk, IfErr};
ghost use Rattle.core_ast.specs.Trees.{module_of};
ghost use Rattle.core_ast.specs.SameTree.{SameTree};
ghost use Rattle.core_print.specs.Printed.{printed};
ghost use Rattle.core_reader.specs.Language.{Reads};
ghost use Rattle.core_reader.specs.declared.refusal.ReadRefusal.TheVariants.{Memory};
ghost use Rattle.core_round_trip.specs.Laws.{IsOfText};

use core_ast::Module;
use core_print::print_module;
use core_reader::{ReadRefusal, read_module};
use std::alloc::Global;

/// The module that the printed text of a module reads as: it differs from the module in the places of its parts alone. It can
/// be called with what `read_module` gives, with what it gives itself, and with what differs from these in places alone, where
/// the printed text, as `print_module` gives it, is shorter than 2^32 bytes.
///
/// # Errors
///
/// `Memory` where memory runs out, and no other.
#[tactic(auto, using(crate::proofs::RoundTrip::rereading))]
pub fn reread(alloc: Global, m: &Module) -> Result<Module, ReadRefusal>
    requires of_text { IsOfText m.now }
    requires short { length (printed (module_of m.now)) < 2 ^ 32 }
    ensures text { IfOk result (λ n. Reads (printed (module_of m.now)) n) }
    ensures same { IfOk result (λ n. SameTree n m.now) }
    ensures memory { IfErr result (λ refusal. refusal ≡ Memory) }
{
    let text = print_module(alloc, m)?;
    read_module(alloc, text.as_slice())
}
