// Why a list of terminals isn't read.

use core_grammar::Fault;
use hipe_base::Memory;
use hipe_terms::Place;

/// A fault and its place, or no memory.
#[derive(Clone, Copy, Debug, Drop)]
pub enum Refusal {
    /// The terminal at this place can't stand there.
    At(Fault, Place),
    /// Memory ran out.
    Memory,
}

impl From<Memory> for Refusal {
    ghost use Rattle.core_parser_steps.specs.declared.refusal.Refusal.TheVariants.{Memory};
    ghost use Rattle.std.specs.Prelude.{◌≡◌};

    ghost from_gives = { λ e r. r ≡ Memory };

    fn from(_error: Memory) -> Refusal {
        Refusal::Memory
    }
}
