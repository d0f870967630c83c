// The stops of the refusals and faults of the calls below.
ghost use Rattle.std.specs.Prelude.{◌≡◌};
ghost use Rattle.hipe_stop.specs.declared.stop.Stop.{Stop as AStop};
ghost use Rattle.hipe_stop.specs.Stops.{stop_of_source, stop_of_call, stop_of_reading, stop_of_lint};

use super::stop::{Reason, Stop};
use core_ast::Place;
use core_lint::LintRefusal;
use core_reader::{CallRefusal, ReadRefusal};
use hipe_base::Memory;
use hipe_edge::{ReadAllFault, WriteFault};

impl From<Memory> for Stop {
    ghost from_gives = { λ _ stop. stop ≡ AStop.Memory };

    fn from(_error: Memory) -> Stop {
        Stop::Memory
    }
}

impl From<WriteFault> for Stop {
    ghost from_gives = { λ _ stop. stop ≡ AStop.WriteFault };

    fn from(_fault: WriteFault) -> Stop {
        Stop::WriteFault
    }
}

impl From<ReadAllFault> for Stop {
    ghost from_gives = { λ fault stop. stop ≡ stop_of_source fault };

    fn from(fault: ReadAllFault) -> Stop {
        match fault {
            ReadAllFault::ReadFault => Stop::ReadFault,
            ReadAllFault::TooLong => Stop::TooLong,
            ReadAllFault::Memory => Stop::Memory,
        }
    }
}

impl From<CallRefusal> for Stop {
    ghost from_gives = { λ refusal stop. stop ≡ stop_of_call refusal };

    fn from(refusal: CallRefusal) -> Stop {
        match refusal {
            CallRefusal::Refused { at } => Stop::Call { at },
            CallRefusal::Memory => Stop::Memory,
        }
    }
}

// A text that is refused at a place.
fn refused(reason: Reason, at: Place) -> Stop
    ensures { result ≡ AStop.Refused reason at }
{
    Stop::Refused { reason, at }
}

impl From<ReadRefusal> for Stop {
    ghost from_gives = { λ refusal stop. stop ≡ stop_of_reading refusal };

    fn from(refusal: ReadRefusal) -> Stop {
        match refusal {
            ReadRefusal::Token { at } => refused(Reason::Token, at),
            ReadRefusal::WideInteger { at } => refused(Reason::WideInteger, at),
            ReadRefusal::LongAtom { at } => refused(Reason::LongAtom, at),
            ReadRefusal::Syntax { at } => refused(Reason::Syntax, at),
            ReadRefusal::TooDeep { at } => refused(Reason::TooDeep, at),
            ReadRefusal::NotInProfile { at } => refused(Reason::NotInProfile, at),
            ReadRefusal::Memory => Stop::Memory,
        }
    }
}

impl From<LintRefusal> for Stop {
    ghost from_gives = { λ refusal stop. stop ≡ stop_of_lint refusal };

    fn from(refusal: LintRefusal) -> Stop {
        match refusal {
            LintRefusal::Broken { rule, at } => refused(Reason::Broken(rule), at),
            LintRefusal::Memory => Stop::Memory,
        }
    }
}
