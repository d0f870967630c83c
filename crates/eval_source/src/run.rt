// From the arguments and the source to the lines on out.
ghost use Rattle.std.specs.Prelude.{map, string_bytes, IfOk};
ghost use Rattle.core_ast.specs.Trees.{module_of};
ghost use Rattle.eval_source.specs.Answers.{RunWrites};
ghost use Rattle.eval_source.specs.Outcome.{Came};
ghost use Rattle.hipe_edge.specs.Streams.{stream};

use super::arguments::command_of;
use super::lines::{Lines, lines_of};
use core_ast::GoodModule;
use core_reader::read_call;
use core_soundness::laws::good_modules_never_stick;
use eval_contexts::Arena;
use eval_run::eval_call;
use hipe_base::Memory;
use hipe_base::limits::TEXT_LIMIT;
use hipe_edge::{Sink, Source, read_all, write_line};
use hipe_stop::{Stop, good_module};
use hipe_terms::Call;
use std::alloc::Global;

// What the run of a good module's call writes.
fn run_call(alloc: Global, good: &GoodModule, call: &Call, fuel: u64) -> Result<Lines, Memory>
    ensures { IfOk result (λ lines. RunWrites (module_of good.now.tree) call.now fuel (string_bytes lines.text) lines.status) }
{
    let arena = Arena::new(alloc)?;
    let run = eval_call(&arena, &good.tree, call, fuel)?;
    good_modules_never_stick();
    lines_of(alloc, good.tree.defs.as_slice(), fuel, &run)
}

/// Runs the call that the arguments name, of the module that the source has, and writes the lines of the run. It answers the exit status.
pub fn run_source<S: Source, O: Sink>(
    alloc: Global,
    arguments: &[String],
    source: &mut S,
    out: &mut O,
) -> Result<u8, Stop>
    ensures { Came (map string_bytes arguments.now)
        (stream (S.left source.old) (S.left source.new) (S.faults source.old) (S.faults source.new))
        (stream (O.written out.old) (O.written out.new) (O.faults out.old) (O.faults out.new)) result }
{
    let Some(command) = command_of(arguments) else {
        return Err(Stop::Arguments);
    };
    let call = read_call(alloc, command.call)?;
    let text = read_all(alloc, source, TEXT_LIMIT)?;
    let good = good_module(alloc, &text)?;
    let lines = run_call(alloc, &good, &call, command.fuel)?;
    write_line(out, lines.text.as_bytes())?;
    Ok(lines.status)
}
