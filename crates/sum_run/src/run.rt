// From a sum to the line of its value.
ghost use Rattle.std.specs.Prelude.{◌≡◌, ◌≤◌, [], None, OnOk, OnErr, IfOk, IsErrOf};
ghost use Rattle.std.specs.Io.KnownBytes.{Appends, Keeps};
ghost use Rattle.hipe_edge.specs.Bytes.{AppendsPrefix};
ghost use Rattle.hipe_edge.specs.Counts.{Rises};
ghost use Rattle.core_sum.specs.Sums.{HasSmallIntegers, count_of, value};
ghost use Rattle.amd64_machine.specs.Seen.{machine_of};
ghost use Rattle.sum_code.specs.Code.{image_for, EndsWith};
ghost use Rattle.sum_run.specs.Run.{value_line, IsReady};

use amd64_machine::{End, Machine, ResultFault};
use core_sum::{MOST_INTEGERS, Sum};
use hipe_base::Memory;
use hipe_edge::Sink;
use hipe_terms::Atom;
use region_memory::Region;
use std::alloc::Global;
use sum_code::limits::{HEAP_WORDS, STACK_WORDS, STEPS};
use sum_code::{main_call, sum_image};

// A machine that is loaded with the image of a sum and the call of its function.
fn ready(alloc: Global, name: &Atom, e: &Sum) -> Result<Machine, Memory>
    requires small { HasSmallIntegers e.now }
    requires few { count_of e.now ≤ MOST_INTEGERS }
    ensures meaning { IfOk result (λ m. EndsWith (image_for name.now e.now) (value e.now)) }
    ensures ready { IfOk result (λ m. IsReady (image_for name.now e.now) (machine_of m)) }
{
    let image = sum_image(alloc, name, e)?;
    let call = main_call(alloc)?;
    let region = Region::open(alloc, HEAP_WORDS, STACK_WORDS)?;
    Machine::load(alloc, image, &call, region)
}

/// Runs the function `'main'/0` of a module of this name, which gives the sum, for at most so many steps, and writes the line of its
/// value: `value`, a blank and the plain sum in decimal.
///
/// # Errors
///
/// - `WriteFault` where a write failed: a prefix of the line was written.
/// - `Memory` where there was no memory for the image, the machine or the line: nothing was written.
pub fn run_sum<O: Sink>(
    alloc: Global,
    name: &Atom,
    e: &Sum,
    steps: u64,
    out: &mut O,
) -> Result<(), ResultFault>
    requires small { HasSmallIntegers e.now }
    requires few { count_of e.now ≤ MOST_INTEGERS }
    requires steps { STEPS ≤ steps }
    ensures meaning { OnOk result (EndsWith (image_for name.now e.now) (value e.now)) }
    ensures ok { OnOk result (Appends (O.written out.old) (O.written out.new) (value_line (value e.now))) }
    ensures err { OnErr result (AppendsPrefix (O.written out.old) (O.written out.new) (value_line (value e.now))) }
    ensures write_fault { IsErrOf result ResultFault.WriteFault
        → Rises (O.faults out.old) (O.faults out.new) × EndsWith (image_for name.now e.now) (value e.now) }
    ensures memory { IsErrOf result ResultFault.Memory → Keeps (O.written out.old) (O.written out.new) }
    ensures faults_never_fall { O.faults out.old ≤ O.faults out.new }
{
    let mut machine = ready(alloc, name, e)?;
    match machine.run(alloc, steps, out) {
        End::Returned => machine.write_result(alloc, out),
        End::WriteFault => Err(ResultFault::WriteFault),
        End::Memory => Err(ResultFault::Memory),
        // The code of a sum ends with its value, within the steps.
        End::Raised { .. } => unreachable!(),
        End::HeapFull => unreachable!(),
        End::StackFull => unreachable!(),
        End::StepsSpent => unreachable!(),
        End::MachineFault { .. } => unreachable!(),
    }
}
