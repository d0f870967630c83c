// The reasons and the stops, with names and statuses.
ghost use Rattle.std.specs.Prelude.{◌≡◌};
ghost use Rattle.hipe_stop.specs.Stops.{status_of, status_unwritten, name_of};

use core_ast::{Place, Rule};

/// Why a text is refused at a place.
#[derive(Clone, Copy, Debug, PartialEq, Eq)]
pub enum Reason {
    /// There is no token, or a byte that isn't UTF-8.
    Token,
    /// An integer isn't within the range.
    WideInteger,
    /// An atom has more than `ATOM_LIMIT` code points.
    LongAtom,
    /// No module goes on with the token, or ends there.
    Syntax,
    /// A part above `LEVEL_LIMIT` begins.
    TooDeep,
    /// What Core Erlang has and the profile hasn't.
    NotInProfile,
    /// A rule of good modules is broken.
    Broken(Rule),
    /// What can't be compiled yet.
    NotYet,
}

/// Why a program ends without doing what it was asked for.
#[derive(Clone, Copy, Debug, PartialEq, Eq)]
pub enum Stop {
    /// The arguments aren't those of a command.
    Arguments,
    /// The argument for the call isn't one from this place on.
    Call { at: Place },
    /// The input has more bytes than a text may have.
    TooLong,
    /// The text is refused at a place.
    Refused { reason: Reason, at: Place },
    /// A read failed.
    ReadFault,
    /// A write failed.
    WriteFault,
    /// Memory ran out.
    Memory,
}

impl Reason {
    /// The name in a line.
    pub fn name(self) -> &'static str
        ensures { result.now ≡ name_of self }
    {
        match self {
            Reason::Token => "token",
            Reason::WideInteger => "wide_integer",
            Reason::LongAtom => "long_atom",
            Reason::Syntax => "syntax",
            Reason::TooDeep => "too_deep",
            Reason::NotInProfile => "not_in_profile",
            Reason::Broken(rule) => rule.name(),
            Reason::NotYet => "not_yet",
        }
    }
}

impl Stop {
    /// The exit status.
    pub fn status(self) -> u8
        ensures { result ≡ status_of self }
    {
        match self {
            Stop::Arguments | Stop::Call { .. } => 2,
            Stop::TooLong | Stop::Refused { .. } => 3,
            Stop::ReadFault => 6,
            Stop::WriteFault => 7,
            Stop::Memory => 8,
        }
    }

    /// The exit status where the line can't be written: out of memory keeps its own, and all others become that of a
    /// failed write.
    pub fn status_unwritten(self) -> u8
        ensures { result ≡ status_unwritten self }
    {
        match self {
            Stop::Memory => 8,
            _ => 7,
        }
    }
}
