// Doing what a mode does with a text.
ghost use Rattle.std.specs.Prelude.{◌≡◌, ◌≤◌, length, IfOk, IfErr};
ghost use Rattle.core_ast.specs.Trees.{module_of};
ghost use Rattle.core_reader.specs.Language.{Reads};
ghost use Rattle.core_sum.specs.Sums.{HasSmallIntegers, count_of};
ghost use Rattle.core_sum.specs.Form.{IsSumModule};
ghost use Rattle.hipe_edge.specs.Streams.{stream};
ghost use Rattle.hipe_top.specs.Outcome.{DidText, DidSource};
ghost use Rattle.hipe_top.specs.Doing.{WroteOk, IsRunStop, stop_of_result};

use super::arguments::Mode;
use super::place::module_place;
use amd64_machine::ResultFault;
use core_ast::GoodModule;
use core_sum::{MOST_INTEGERS, Sum, SumRefusal, sum_of};
use hipe_base::limits::TEXT_LIMIT;
use hipe_edge::{Sink, Source, read_all, write_line};
use hipe_stop::{Reason, Stop, good_module};
use std::alloc::Global;
use sum_code::limits::STEPS;
use sum_run::run_sum;

// The sum of a good module.
fn module_sum(alloc: Global, text: &[u8], good: &GoodModule) -> Result<Sum, Stop>
    requires short { length text.now ≤ TEXT_LIMIT }
    requires reads { Reads text.now good.now.tree }
    ensures sum { IfOk result (λ e. IsSumModule (module_of good.now.tree) e) }
    ensures small { IfOk result (λ e. HasSmallIntegers e) }
    ensures few { IfOk result (λ e. count_of e ≤ MOST_INTEGERS) }
    ensures stop { IfErr result (λ stop. IsRunStop text.now good.now.tree stop) }
{
    match sum_of(alloc, good) {
        Ok(sum) => Ok(sum),
        Err(SumRefusal::NotExported) => {
            let at = module_place(alloc, text)?;
            Err(Stop::Refused {
                reason: Reason::NotYet,
                at,
            })
        }
        Err(SumRefusal::NotYet { at }) => Err(Stop::Refused {
            reason: Reason::NotYet,
            at,
        }),
        Err(SumRefusal::Memory) => Err(Stop::Memory),
    }
}

// Writes that the text is a good module.
fn write_ok<O: Sink>(out: &mut O) -> Result<(), Stop>
    ensures { WroteOk (stream (O.written out.old) (O.written out.new) (O.faults out.old) (O.faults out.new)) result }
{
    write_line(out, b"ok\n")?;
    Ok(())
}

// The stop of a run that wrote no whole line.
fn stop_of_result(fault: ResultFault) -> Stop
    ensures { result ≡ stop_of_result fault }
{
    match fault {
        ResultFault::WriteFault => Stop::WriteFault,
        ResultFault::Memory => Stop::Memory,
    }
}

// Compiles and runs a good module, and writes the line of its value.
fn run_module<O: Sink>(
    alloc: Global,
    text: &[u8],
    good: &GoodModule,
    out: &mut O,
) -> Result<(), Stop>
    requires short { length text.now ≤ TEXT_LIMIT }
    requires reads { Reads text.now good.now.tree }
    ensures { DidText Mode.Run text.now
        (stream (O.written out.old) (O.written out.new) (O.faults out.old) (O.faults out.new)) result }
{
    let sum = module_sum(alloc, text, good)?;
    match run_sum(alloc, &good.tree.name, &sum, STEPS, out) {
        Ok(()) => Ok(()),
        Err(fault) => Err(stop_of_result(fault)),
    }
}

// Does what the mode does with a text.
fn answer_text<O: Sink>(alloc: Global, mode: Mode, text: &[u8], out: &mut O) -> Result<(), Stop>
    requires { length text.now ≤ TEXT_LIMIT }
    ensures { DidText mode text.now
        (stream (O.written out.old) (O.written out.new) (O.faults out.old) (O.faults out.new)) result }
{
    let good = good_module(alloc, text)?;
    match mode {
        Mode::Check => write_ok(out),
        Mode::Run => run_module(alloc, text, &good, out),
    }
}

/// Reads the source to its end as a text, and does what the mode does with it.
pub fn answer_source<S: Source, O: Sink>(
    alloc: Global,
    mode: Mode,
    source: &mut S,
    out: &mut O,
) -> Result<(), Stop>
    ensures { DidSource mode
        (stream (S.left source.old) (S.left source.new) (S.faults source.old) (S.faults source.new))
        (stream (O.written out.old) (O.written out.new) (O.faults out.old) (O.faults out.new)) result }
{
    let text = read_all(alloc, source, TEXT_LIMIT)?;
    answer_text(alloc, mode, &text, out)
}
