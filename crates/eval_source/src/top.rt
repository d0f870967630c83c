// The program as one call, over any source and any sinks.
ghost use Rattle.std.specs.Prelude.{map, string_bytes};
ghost use Rattle.eval_source.specs.Answers.{HaveOneAnswer};
ghost use Rattle.eval_source.specs.Outcome.{Did};
ghost use Rattle.hipe_edge.specs.Streams.{stream};

use super::run::run_source;
use hipe_edge::{Sink, Source};
use hipe_stop::report;
use std::alloc::Global;

/// The arguments and the bytes of an input have an answer, and one alone. So what a call of a module writes is what the definitions of
/// the language give, and nothing else.
pub fn one_answer()
    ensures { HaveOneAnswer }
{}

/// Runs the call that the arguments name, of the module whose text is the source, as the definitions of the language say, and answers
/// the exit status. The arguments are CALL, as `'f'(1,[2])`, and perhaps `--fuel N`: the applications that the run may make.
///
/// It writes each displayed term on a line of out, then `value T`, `error R`, `exit R`, `throw R` or `fuel_spent`, and then
/// `words W`, `claim S` and `fuel F`: the words that the run built, the greatest claim on the stack in words, and the
/// fuel that it spent. Each other end writes nothing on out but a prefix of these lines, and a line of its own on err.
///
/// # Statuses
///
/// - 0: the call returned.
/// - 1: the run raised a class.
/// - 2: the arguments are others, or CALL is no call. The line has the place in CALL.
/// - 3: the input is longer than a text may be, or isn't a good module. The line names the refusal and its place.
/// - 5: the fuel was spent.
/// - 6: a read failed.
/// - 7: a write failed.
/// - 8: there was no memory.
pub fn eval_source<S: Source, O: Sink, E: Sink>(
    alloc: Global,
    arguments: &[String],
    source: &mut S,
    out: &mut O,
    err: &mut E,
) -> u8
    ensures { Did (map string_bytes arguments.now)
        (stream (S.left source.old) (S.left source.new) (S.faults source.old) (S.faults source.new))
        (stream (O.written out.old) (O.written out.new) (O.faults out.old) (O.faults out.new))
        (stream (E.written err.old) (E.written err.new) (E.faults err.old) (E.faults err.new)) result }
{
    match run_source(alloc, arguments, source, out) {
        Ok(status) => status,
        Err(stop) => report(alloc, stop, err),
    }
}
