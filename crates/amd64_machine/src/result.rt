// The line of a result.
ghost use Rattle.std.specs.Prelude.{◌≡◌, ◌≤◌, length, OnOk, OnErr, IsErrOf};
ghost use Rattle.std.specs.Io.KnownBytes.{Appends};
ghost use Rattle.hipe_edge.specs.Bytes.{AppendsPrefix};
ghost use Rattle.hipe_edge.specs.Counts.{Rises};
ghost use Rattle.hipe_terms.specs.Shown.{Names};
ghost use Rattle.region_memory.specs.declared.layout.TheConstants.{HEAP_LIMIT};
ghost use Rattle.heap_terms.specs.Seen.{symbols_of};
ghost use Rattle.amd64_machine.specs.Seen.{undefined_line};
ghost use Rattle.amd64_machine.specs.Steps.{word_line, ended_line, seen_line};
ghost use Rattle.amd64_machine.specs.declared.result.ResultFault.{ResultFault};
ghost use Rattle.amd64_machine.specs.declared.result.ResultFault.TheVariants.{Memory as NoMemory, WriteFault as NotWritten};

use super::state::{Core, Ended};
use heap_terms::{Symbols, show_word};
use hipe_base::Memory;
use hipe_edge::{Sink, WriteFault, write_line};
use std::alloc::Global;

/// Why the line of a result wasn't written.
#[derive(Clone, Copy, Debug, PartialEq, Eq)]
pub enum ResultFault {
    /// A write failed: a prefix of the line was written.
    WriteFault,
    /// There was no memory for the line: nothing was written.
    Memory,
}

impl From<Memory> for ResultFault {
    ghost from_gives = { λ _ e. e ≡ NoMemory };

    fn from(_error: Memory) -> ResultFault {
        ResultFault::Memory
    }
}

impl From<WriteFault> for ResultFault {
    ghost from_gives = { λ _ e. e ≡ NotWritten };

    fn from(_fault: WriteFault) -> ResultFault {
        ResultFault::WriteFault
    }
}

// Writes how a run ended and the term for which a word stands, in a line. Where it stands for none, it writes nothing.
fn write_term<K: Sink>(
    alloc: Global,
    kind: &str,
    symbols: &Symbols,
    heap: &[u64],
    word: u64,
    out: &mut K,
) -> Result<(), ResultFault>
    requires { length heap.now ≤ HEAP_LIMIT }
    ensures ok { OnOk result (Appends (K.written out.old) (K.written out.new)
        (word_line kind.now (symbols_of symbols.now) heap.now word)) }
    ensures err { OnErr result (AppendsPrefix (K.written out.old) (K.written out.new)
        (word_line kind.now (symbols_of symbols.now) heap.now word)) }
    ensures write_fault { IsErrOf result ResultFault.WriteFault → Rises (K.faults out.old) (K.faults out.new) }
    ensures memory { IsErrOf result ResultFault.Memory → out.new ≡ out.old }
    ensures faults_never_fall { K.faults out.old ≤ K.faults out.new }
{
    let mut line = String::new(alloc);
    line.push_str(kind)?;
    line.push_str(" ")?;
    if !show_word(alloc, symbols, heap, word, &mut line)? {
        return Ok(());
    }
    line.push('\n')?;
    write_line(out, line.as_bytes())?;
    Ok(())
}

// Writes the line of a call that isn't exported.
fn write_undefined<K: Sink>(out: &mut K) -> Result<(), ResultFault>
    ensures ok { (names : Names) → OnOk result (Appends (K.written out.old) (K.written out.new) (undefined_line names)) }
    ensures err { (names : Names) → OnErr result (AppendsPrefix (K.written out.old) (K.written out.new) (undefined_line names)) }
    ensures write_fault { OnErr result (Rises (K.faults out.old) (K.faults out.new)) }
    ensures memory { IsErrOf result ResultFault.Memory → out.new ≡ out.old }
    ensures faults_never_fall { K.faults out.old ≤ K.faults out.new }
{
    match write_line(out, b"error 'undef'\n") {
        Ok(()) => Ok(()),
        Err(_) => Err(ResultFault::WriteFault),
    }
}

// Writes the line of the result with which a run is over, if there is one.
fn write_over<K: Sink>(
    alloc: Global,
    symbols: &Symbols,
    core: &Core,
    ended: Ended,
    out: &mut K,
) -> Result<(), ResultFault>
    ensures ok { OnOk result (Appends (K.written out.old) (K.written out.new)
        (ended_line (symbols_of symbols.now) core.now ended)) }
    ensures err { OnErr result (AppendsPrefix (K.written out.old) (K.written out.new)
        (ended_line (symbols_of symbols.now) core.now ended)) }
    ensures write_fault { IsErrOf result ResultFault.WriteFault → Rises (K.faults out.old) (K.faults out.new) }
    ensures memory { IsErrOf result ResultFault.Memory → out.new ≡ out.old }
    ensures faults_never_fall { K.faults out.old ≤ K.faults out.new }
{
    core.region.limits();
    let heap = core.region.heap();
    match ended {
        Ended::Returned(word) => write_term(alloc, "value", symbols, heap, word, out),
        Ended::Raised(class, word) => { write_term(alloc, class.name(), symbols, heap, word, out) }
        Ended::Undefined => write_undefined(out),
        Ended::HeapFull => Ok(()),
        Ended::StackFull => Ok(()),
        Ended::MachineFault(_) => Ok(()),
        Ended::WriteFault => Ok(()),
        Ended::Memory => Ok(()),
    }
}

// Writes the line of the result that a run ended with, if it ended with one.
pub(crate) fn write_ended<K: Sink>(
    alloc: Global,
    symbols: &Symbols,
    core: &Core,
    ended: Option<Ended>,
    out: &mut K,
) -> Result<(), ResultFault>
    ensures ok { OnOk result (Appends (K.written out.old) (K.written out.new)
        (seen_line (symbols_of symbols.now) core.now ended)) }
    ensures err { OnErr result (AppendsPrefix (K.written out.old) (K.written out.new)
        (seen_line (symbols_of symbols.now) core.now ended)) }
    ensures write_fault { IsErrOf result ResultFault.WriteFault → Rises (K.faults out.old) (K.faults out.new) }
    ensures memory { IsErrOf result ResultFault.Memory → out.new ≡ out.old }
    ensures faults_never_fall { K.faults out.old ≤ K.faults out.new }
{
    match ended {
        Some(ended) => write_over(alloc, symbols, core, ended, out),
        None => Ok(()),
    }
}
