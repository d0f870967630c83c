// Why a text isn't read.

use hipe_base::Memory;
use hipe_terms::Place;
use thiserror::Error;

/// Why a text isn't read as a module.
#[derive(Clone, Copy, Debug, PartialEq, Eq, Error)]
pub enum ReadRefusal {
    /// There is no token at a place, or a byte that isn't UTF-8.
    #[error("Token")]
    Token { at: Place },
    /// An integer isn't within the range.
    #[error("WideInteger")]
    WideInteger { at: Place },
    /// An atom has more than 255 code points.
    #[error("LongAtom")]
    LongAtom { at: Place },
    /// No module goes on with a token, whatever its levels, or none ends here.
    #[error("Syntax")]
    Syntax { at: Place },
    /// A part of level 1,001 begins with a token.
    #[error("TooDeep")]
    TooDeep { at: Place },
    /// A token stands for what Core Erlang has and the profile hasn't: it is a float, `receive`, `#` or `~` where an integer
    /// could stand, or a variable as the module or the name of a `call`.
    #[error("NotInProfile")]
    NotInProfile { at: Place },
    /// Memory ran out.
    #[error("Memory")]
    Memory,
}

/// Why a text isn't read as a call.
#[derive(Clone, Copy, Debug, PartialEq, Eq)]
pub enum CallRefusal {
    /// The text isn't a call from this place on.
    Refused { at: Place },
    /// Memory ran out.
    Memory,
}

impl From<Memory> for ReadRefusal {
    ghost use Rattle.core_reader.specs.declared.refusal.ReadRefusal.TheVariants.{Memory};
    ghost use Rattle.std.specs.Prelude.{◌≡◌};

    ghost from_gives = { λ _ refusal. refusal ≡ Memory };

    fn from(_error: Memory) -> ReadRefusal {
        ReadRefusal::Memory
    }
}

impl From<Memory> for CallRefusal {
    ghost use Rattle.core_reader.specs.declared.refusal.CallRefusal.TheVariants.{Memory};
    ghost use Rattle.std.specs.Prelude.{◌≡◌};

    ghost from_gives = { λ _ refusal. refusal ≡ Memory };

    fn from(_error: Memory) -> CallRefusal {
        CallRefusal::Memory
    }
}
