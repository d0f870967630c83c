// The machine: load, step, run.
ghost use Rattle.std.specs.Prelude.{◌≡◌, ◌≤◌, [], All, IfOk, OnOk, OnErr, IsErrOf, length};
ghost use Rattle.std.specs.Io.KnownBytes.{Appends};
ghost use Rattle.region_memory.specs.declared.layout.TheConstants.{TABLE_LIMIT};
ghost use Rattle.hipe_terms.specs.Constants.{IsConstant};
ghost use Rattle.hipe_edge.specs.Bytes.{AppendsPrefix};
ghost use Rattle.hipe_edge.specs.Counts.{Rises};
ghost use Rattle.heap_terms.specs.Shapes.{Symbols as SymbolsSeen};
ghost use Rattle.amd64_machine.specs.Laws.{RunsGoOn, CallsGoOn};
ghost use Rattle.amd64_machine.specs.Result.{HasResult, result_line};
ghost use Rattle.amd64_machine.specs.Seen.{Held, machine_of};
ghost use Rattle.amd64_machine.specs.Steps.{IsLoaded};

use super::cache::{Cached, new_cache};
use super::result::{ResultFault, write_ended};
use super::running::{advance, run_on};
use super::state::{Core, Ended, begun, end_of};
use heap_terms::Symbols;
use hipe_base::Memory;
use hipe_edge::Sink;
use hipe_terms::{Call, Class};
use image_link::Image;
use image_load::{Loaded, load_program};
use region_memory::Region;
use std::alloc::Global;
use std::marker::Model;

/// How a run ended.
#[derive(Clone, Copy, Debug, PartialEq, Eq)]
pub enum End {
    /// The program returned a value.
    Returned,
    /// The program raised a reason of this class.
    Raised { class: Class },
    /// The heap had no room for what the program or the call builds.
    HeapFull,
    /// The stack had no room for an activation.
    StackFull,
    /// All instructions that were allowed ran, and the run isn't over: it can go on.
    StepsSpent,
    /// There is no next state at the address `at`: no instruction stands there, or what it does isn't allowed: an access
    /// outside the regions or at no multiple of 8, a write to a region that is only read, a division by 0 or whose quotient
    /// doesn't fit, a jump on a flag that isn't known, a service with a number that none has, or with words that are none of
    /// its terms.
    MachineFault { at: u64 },
    /// A line that the program displayed couldn't be written.
    WriteFault,
    /// There was no memory for a service.
    Memory,
}

/// The machine with its program. Contracts see it by `machine_of` as a `Seen`: its symbols, its state for what was displayed before, and
/// how it was stopped, if it was.
#[derive(Drop)]
pub struct Machine {
    core: Core,
    cache: Vec<Option<Cached>>,
    symbols: Symbols,
    ended: Option<Ended>,
}

impl Model for Machine {
    ghost use Rattle.heap_terms.specs.Seen.{symbols_of};
    ghost use Rattle.amd64_machine.specs.Seen.{Held, IsCache, HasTerm};

    ghost Value = { Held };

    ghost view = { λ m. record { core = m.core; symbols = m.symbols; ended = m.ended } };

    ghost invariant = { λ m. IsCache m.core.region.code m.cache.items × HasTerm (symbols_of m.symbols) m.core.region.heap m.ended };
}

/// A run that is over stays over; the steps of a run are those of a first part and then those of the rest; what is displayed goes
/// behind what was displayed before; and that changes nothing else.
pub fn runs_go_on()
    ensures { (symbols : SymbolsSeen) → RunsGoOn symbols }
{}

/// A machine's next call begins in the state to which the last one came, with nothing displayed: its steps are those behind the steps
/// of the last one.
pub fn calls_go_on()
    ensures { (m : Held) → CallsGoOn (machine_of m) }
{}

impl Machine {
    ghost use Rattle.hipe_edge.specs.Streams.{stream};
    ghost use Rattle.amd64_machine.specs.Outcome.{HasEnded, Stepped, Ran};

    /// Puts an image and the constants of a call into memory, before the first instruction. Where the image exports no function of the
    /// call's name and number of arguments, the run is over with the reason `'undef'` of the class `error`; where the constants don't
    /// fit the heap, it is over with `HeapFull`.
    ///
    /// # Errors
    ///
    /// `Memory` where there was none for the program.
    pub fn load(alloc: Global, image: Image, call: &Call, region: Region) -> Result<Machine, Memory>
        requires constants { All IsConstant call.now.args }
        requires functions { length image.functions ≤ TABLE_LIMIT }
        ensures { IfOk result (λ m. IsLoaded image call.now region (machine_of m)) }
    {
        let Loaded {
            region,
            symbols,
            start,
        } = load_program(alloc, image, call, region)?;
        let cache = new_cache(alloc, region.code())?;
        let (core, ended) = begun(region, start);
        Ok(Machine {
            core,
            cache,
            symbols,
            ended,
        })
    }

    /// Does one instruction. `None` where the run goes on; the end where this step ended it, or it had ended before: then nothing
    /// changes, and nothing is written. `StepsSpent` never comes. A term that the instruction displays is written to `out` in a line of
    /// its own. It takes no memory, but where the instruction calls a service.
    ///
    /// A write that fails and a lack of memory stop the machine in the state before the instruction: every later call answers the same.
    pub fn step<K: Sink>(&mut self, alloc: Global, out: &mut K) -> Option<End>
        ensures step { Stepped (machine_of self.old) (machine_of self.new)
            (stream (K.written out.old) (K.written out.new) (K.faults out.old) (K.faults out.new)) result }
        ensures over { HasEnded (machine_of self.old) → (self.new ≡ self.old) × (out.new ≡ out.old) }
        ensures symbols { (machine_of self.new).symbols ≡ (machine_of self.old).symbols }
        ensures faults_never_fall { K.faults out.old ≤ K.faults out.new }
    {
        match self.ended {
            Some(ended) => Some(ended.end()),
            None => {
                self.ended = advance(&mut self.core, &mut self.cache, &self.symbols, alloc, out);
                end_of(self.ended)
            }
        }
    }

    /// Does at most `n` instructions, and answers how the run ended: `StepsSpent` exactly where it isn't over after `n`, and then a
    /// further `run` goes on. Any other end is answered again by every later call: nothing changes, and nothing is written. Each term
    /// that is displayed is written to `out` in a line of its own.
    ///
    /// A write that fails and a lack of memory come only where an instruction calls a service. They stop the machine in the state before
    /// that instruction; the lines of the instructions before it were written.
    pub fn run<K: Sink>(&mut self, alloc: Global, n: u64, out: &mut K) -> End
        ensures run { Ran n (machine_of self.old) (machine_of self.new)
            (stream (K.written out.old) (K.written out.new) (K.faults out.old) (K.faults out.new)) result }
        ensures over { HasEnded (machine_of self.old) → (self.new ≡ self.old) × (out.new ≡ out.old) }
        ensures symbols { (machine_of self.new).symbols ≡ (machine_of self.old).symbols }
        ensures faults_never_fall { K.faults out.old ≤ K.faults out.new }
    {
        match self.ended {
            Some(ended) => ended.end(),
            None => {
                self.ended = run_on(
                    &mut self.core,
                    &mut self.cache,
                    &self.symbols,
                    alloc,
                    n,
                    out,
                );
                end_of(self.ended).unwrap_or(End::StepsSpent)
            }
        }
    }

    /// Writes the line of the result that the run ended with, which it must have: `value`, `error`, `exit` or `throw`, a space, the
    /// term and a newline.
    ///
    /// # Errors
    ///
    /// - `WriteFault` where a write failed: then a prefix of the line was written.
    /// - `Memory` where there was no memory for the line: then nothing was written.
    pub fn write_result<K: Sink>(&self, alloc: Global, out: &mut K) -> Result<(), ResultFault>
        requires { HasResult ((machine_of self.now).state []) }
        ensures ok { OnOk result (Appends (K.written out.old) (K.written out.new)
            (result_line (machine_of self.now).symbols.definitions ((machine_of self.now).state []))) }
        ensures err { OnErr result (AppendsPrefix (K.written out.old) (K.written out.new)
            (result_line (machine_of self.now).symbols.definitions ((machine_of self.now).state []))) }
        ensures write_fault { IsErrOf result ResultFault.WriteFault → Rises (K.faults out.old) (K.faults out.new) }
        ensures memory { IsErrOf result ResultFault.Memory → out.new ≡ out.old }
        ensures faults_never_fall { K.faults out.old ≤ K.faults out.new }
    {
        write_ended(alloc, &self.symbols, &self.core, self.ended, out)
    }
}
