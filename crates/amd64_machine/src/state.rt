// The state between two instructions.
ghost use Rattle.std.specs.Prelude.{◌≡◌, ◌+◌, ◌-◌, ◌*◌, ◌≤◌, [], None, length};
ghost use Rattle.amd64_form.specs.Reg.{number};
ghost use Rattle.amd64_machine.specs.Machine.{word_in};
ghost use Rattle.amd64_machine.specs.Machine.{put as registers_with};
ghost use Rattle.heap_terms.specs.Shapes.{Symbols};
ghost use Rattle.image_load.specs.Seen.{beginning_seen};
ghost use Rattle.amd64_machine.specs.Loading.{begun as state_begun};
ghost use Rattle.amd64_machine.specs.Loading.{first_registers as registers_first};
ghost use Rattle.amd64_machine.specs.Seen.{HasTerm, end_seen, ends_seen, registers_seen, state_seen, stopped_seen};

use super::machine::End;
use amd64_form::Reg;
use hipe_terms::Class;
use image_load::Start;
use region_memory::Region;

/// The four flags that instructions set and test, each known or unknown.
#[derive(Clone, Copy, Debug, PartialEq, Eq)]
pub struct Flags {
    /// CF: an unsigned result didn't fit.
    pub carry: Option<bool>,
    /// ZF: the result was 0.
    pub zero: Option<bool>,
    /// SF: the result's top bit.
    pub sign: Option<bool>,
    /// OF: a signed result didn't fit.
    pub overflow: Option<bool>,
}

impl Flags {
    // What is known before the first instruction that sets flags.
    pub(crate) const UNKNOWN: Flags = Flags {
        carry: None,
        zero: None,
        sign: None,
        overflow: None,
    };
}

// The sixteen registers, by number.
pub(crate) type Registers = [u64; 16];

// The word in a register.
pub(crate) fn get(registers: &Registers, r: Reg) -> u64
    ensures { result ≡ word_in (registers_seen registers.now) r }
{
    registers[r.number() as usize]
}

// Puts a word into a register.
pub(crate) fn put(registers: &mut Registers, r: Reg, word: u64)
    ensures { registers_seen registers.new ≡ registers_with r word (registers_seen registers.old) }
{
    registers[r.number() as usize] = word;
}

// What a step reads and changes.
#[derive(Drop)]
pub(crate) struct Core {
    pub(crate) at: u64,
    pub(crate) registers: Registers,
    pub(crate) flags: Flags,
    pub(crate) region: Region,
}

// What an instruction came to.
#[derive(Clone, Copy)]
pub(crate) enum Did {
    // It was done.
    Goes,
    // There is no next state.
    Stops,
    // It calls a service, and the next instruction is at this address.
    Calls(u64),
}

// How a run is over. `Returned` and `Raised` have the word of the value or the reason.
#[derive(Clone, Copy)]
pub(crate) enum Ended {
    Returned(u64),
    Raised(Class, u64),
    // The call isn't exported.
    Undefined,
    HeapFull,
    StackFull,
    // There is no next state from this address.
    MachineFault(u64),
    // A line couldn't be written.
    WriteFault,
    // There was no memory for a service.
    Memory,
}

impl Ended {
    // What a run answers that is over so.
    pub(crate) fn end(self) -> End
        ensures { result ≡ end_seen self }
    {
        match self {
            Ended::Returned(_) => End::Returned,
            Ended::Raised(class, _) => End::Raised { class },
            Ended::Undefined => End::Raised {
                class: Class::Error,
            },
            Ended::HeapFull => End::HeapFull,
            Ended::StackFull => End::StackFull,
            Ended::MachineFault(at) => End::MachineFault { at },
            Ended::WriteFault => End::WriteFault,
            Ended::Memory => End::Memory,
        }
    }
}

// The end of a run that may be over.
pub(crate) fn end_of(ended: Option<Ended>) -> Option<End>
    ensures { result ≡ ends_seen ended }
{
    match ended {
        Some(ended) => Some(ended.end()),
        None => None,
    }
}

// The registers at the first instruction: the words of the arguments, the heap pointer and the stack's top.
#[tactic(auto, using(crate::proofs::Start::zero_registers))]
fn first_registers(arguments: [u64; 4], free: u64, top: u64) -> Registers
    ensures { registers_seen result ≡ registers_first arguments free top }
{
    let mut registers = [0; 16];
    put(&mut registers, Reg::Rsp, top);
    put(&mut registers, Reg::R15, free);
    put(&mut registers, Reg::R9, arguments[3]);
    put(&mut registers, Reg::R8, arguments[2]);
    put(&mut registers, Reg::Rsi, arguments[1]);
    put(&mut registers, Reg::Rdi, arguments[0]);
    registers
}

// What a program begins with.
pub(crate) fn begun(region: Region, start: Start) -> (Core, Option<Ended>)
    ensures state { (symbols : Symbols) → state_seen symbols result.0 result.1 [] ≡ state_begun region (beginning_seen start) }
    ensures code { result.0.region.code ≡ region.code }
    ensures stopped { stopped_seen result.1 ≡ None }
    ensures term { (symbols : Symbols) → HasTerm symbols result.0.region.heap result.1 }
{
    match start {
        Start::Undefined => (idle(region), Some(Ended::Undefined)),
        Start::HeapFull => (idle(region), Some(Ended::HeapFull)),
        Start::Ready {
            at,
            arguments,
            free,
        } => {
            region.limits();
            let top = region.stack_end() - 8;
            let registers = first_registers(arguments, free, top);
            let flags = Flags::UNKNOWN;
            (
                Core {
                    at,
                    registers,
                    flags,
                    region,
                },
                None,
            )
        }
    }
}

// A state that isn't looked at.
fn idle(region: Region) -> Core
    ensures { result.region ≡ region }
{
    Core {
        at: 0,
        registers: [0; 16],
        flags: Flags::UNKNOWN,
        region,
    }
}
