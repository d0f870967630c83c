// The program as one call, over any source and any sinks.
ghost use Rattle.std.specs.Prelude.{◌≡◌, IfSome, map};
ghost use Rattle.std.specs.String.{string_bytes};
ghost use Rattle.hipe_top.specs.Answers.{HaveOneAnswer};
ghost use Rattle.hipe_top.specs.Command.{IsCommand};
ghost use Rattle.hipe_edge.specs.Streams.{stream};
ghost use Rattle.hipe_top.specs.Outcome.{EndedByItself, Answered, RanOutOfMemory, ReadFailed, WriteFailed, Accepts};

use super::arguments::mode_of;
use super::run::answer_source;
use hipe_edge::{Sink, Source};
use hipe_stop::{Stop, report};
use std::alloc::Global;

/// The arguments and the bytes of an input have an answer, and one alone. So what stands on out after status 0 is the one line that
/// the definitions give.
pub fn one_answer()
    ensures { HaveOneAnswer }
{}

/// Does what the arguments say with the source's text, and answers the exit status. It takes no lock and always returns.
///
/// The argument `check` tells whether the text is a good module, and then writes `ok` and a newline on out. The arguments `run` and
/// `'main'()` take a good module whose one function `'main'/0` gives a sum of integers: they make AMD64 code of it, run the code
/// on the machine, and write `value`, a space, the sum and a newline on out. Each other end writes nothing on out but a prefix of
/// that line, and a line of its own on err.
///
/// # Statuses
///
/// - 0: the line was written.
/// - 2: the arguments are others.
/// - 3: the input is longer than a text may be, or isn't a good module, or for `run` not one of this form. The line names the
///   refusal and its place: the first fault of the tokens, else the first of the grammar, else the first broken rule, else
///   `not_yet`.
/// - 6: a read failed.
/// - 7: a write failed.
/// - 8: there was no memory.
pub fn hipe_alone<S: Source, O: Sink, E: Sink>(
    alloc: Global,
    arguments: &[String],
    source: &mut S,
    out: &mut O,
    err: &mut E,
) -> u8
    // Where nothing failed: the answer that the definitions give.
    ensures answered { EndedByItself result → Answered (map string_bytes arguments.now)
        (stream (S.left source.old) (S.left source.new) (S.faults source.old) (S.faults source.new))
        (stream (O.written out.old) (O.written out.new) (O.faults out.old) (O.faults out.new))
        (stream (E.written err.old) (E.written err.new) (E.faults err.old) (E.faults err.new)) result }

    ensures out_of_memory { result ≡ 8 → RanOutOfMemory (map string_bytes arguments.now)
        (stream (S.left source.old) (S.left source.new) (S.faults source.old) (S.faults source.new))
        (stream (O.written out.old) (O.written out.new) (O.faults out.old) (O.faults out.new))
        (stream (E.written err.old) (E.written err.new) (E.faults err.old) (E.faults err.new)) }

    ensures read_failed { result ≡ 6 → ReadFailed (map string_bytes arguments.now)
        (stream (S.left source.old) (S.left source.new) (S.faults source.old) (S.faults source.new))
        (stream (O.written out.old) (O.written out.new) (O.faults out.old) (O.faults out.new))
        (stream (E.written err.old) (E.written err.new) (E.faults err.old) (E.faults err.new)) }

    ensures write_failed { result ≡ 7 → WriteFailed (map string_bytes arguments.now)
        (stream (S.left source.old) (S.left source.new) (S.faults source.old) (S.faults source.new))
        (stream (O.written out.old) (O.written out.new) (O.faults out.old) (O.faults out.new))
        (stream (E.written err.old) (E.written err.new) (E.faults err.old) (E.faults err.new)) }

    // Other arguments leave the source and out as they were, whatever the status.
    ensures usage { ¬ IsCommand (map string_bytes arguments.now) → (source.new ≡ source.old) × (out.new ≡ out.old) }

    // Which texts are taken.
    ensures accepts { EndedByItself result →
        IfSome (S.left source.old) (λ bytes. Accepts (map string_bytes arguments.now) bytes result) }
{
    match mode_of(arguments) {
        None => report(alloc, Stop::Arguments, err),
        Some(mode) => match answer_source(alloc, mode, source, out) {
            Ok(()) => 0,
            Err(stop) => report(alloc, stop, err),
        },
    }
}
