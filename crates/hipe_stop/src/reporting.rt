// The line of a stop, and the exit status.
ghost use Rattle.std.specs.Prelude.{◌≡◌, ◌⊎◌, ◌++◌, [], ◌∷◌, string_bytes, IfOk};
ghost use Rattle.hipe_edge.specs.Streams.{stream};
ghost use Rattle.hipe_stop.specs.declared.stop.Stop.{Stop as AStop};
ghost use Rattle.hipe_stop.specs.Reports.{Reported, Ended};
ghost use Rattle.hipe_stop.specs.Stops.{placed, line_of};

use super::stop::Stop;
use core_ast::Place;
use hipe_base::Memory;
use hipe_edge::{Sink, write_line};
use std::alloc::Global;

// The line of a name and a place, with its newline.
fn placed_line(alloc: Global, name: &str, at: Place) -> Result<String, Memory>
    ensures { IfOk result (λ line. string_bytes line ≡ placed name.now at ++ 10 ∷ []) }
{
    let Place { line, col } = at;
    let place = format!(in alloc; " {line}:{col}\n")?;
    let mut text = String::from_str(alloc, "hipe: ")?;
    text.push_str(name)?;
    text.push_str(place.as_str())?;
    Ok(text)
}

// Writes the line of a stop, and answers the exit status.
fn end<E: Sink>(stop: Stop, line: &[u8], err: &mut E) -> u8
    requires { line.now ≡ line_of stop }
    ensures { Reported stop
        (stream (E.written err.old) (E.written err.new) (E.faults err.old) (E.faults err.new)) result }
{
    match write_line(err, line) {
        Ok(()) => stop.status(),
        Err(_) => stop.status_unwritten(),
    }
}

// The same, where there may be no memory for the line: then it is the line and the status of that.
fn end_with<E: Sink>(stop: Stop, line: Result<String, Memory>, err: &mut E) -> u8
    requires { IfOk line (λ line. string_bytes line ≡ line_of stop) }
    ensures { Reported stop
        (stream (E.written err.old) (E.written err.new) (E.faults err.old) (E.faults err.new)) result
        ⊎ Reported AStop.Memory
        (stream (E.written err.old) (E.written err.new) (E.faults err.old) (E.faults err.new)) result }
{
    match line {
        Ok(line) => end(stop, line.as_bytes(), err),
        Err(_) => end(Stop::Memory, b"hipe: memory\n", err),
    }
}

/// Writes the line of a stop on err, and answers the exit status. Where there is no memory for a line with a place, it is the line
/// and the status of that.
pub fn report<E: Sink>(alloc: Global, stop: Stop, err: &mut E) -> u8
    ensures { Ended stop
        (stream (E.written err.old) (E.written err.new) (E.faults err.old) (E.faults err.new)) result }
{
    match stop {
        Stop::Arguments => end(stop, b"hipe: words\n", err),
        Stop::Call { at } => end_with(stop, placed_line(alloc, "call", at), err),
        Stop::TooLong => end(stop, b"hipe: too_long\n", err),
        Stop::Refused { reason, at } => end_with(stop, placed_line(alloc, reason.name(), at), err),
        Stop::ReadFault => end(stop, b"hipe: read_fault\n", err),
        Stop::WriteFault => end(stop, b"hipe: write_fault\n", err),
        Stop::Memory => end(stop, b"hipe: memory\n", err),
    }
}
