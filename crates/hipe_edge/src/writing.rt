// Writing bytes to a sink, all of them.
ghost use Rattle.std.specs.Prelude.{ℕ, ◌<◌, ◌≤◌, OnOk, OnErr};
ghost use Rattle.std.specs.Io.KnownBytes.{Appends};
ghost use Rattle.hipe_edge.specs.Counts.{Rises};
ghost use Rattle.hipe_edge.specs.Bytes.{AppendsPrefix};

use super::streams::Sink;

/// How many bytes of a line are written at once. A line is written by itself, in pieces of this many bytes,
/// so that a line of a usual length goes out whole, and a pipe, which takes 4,096 bytes at once, tears none.
pub const LINE_PIECE: usize = 4_096;

/// A write failed, and a prefix of the bytes was written.
#[derive(Clone, Copy, Debug, PartialEq, Eq)]
pub struct WriteFault;

/// Writes all the bytes. Each write is offered all that is left of them. It takes no memory.
///
/// # Errors
///
/// `WriteFault` where a write failed: then a prefix of the bytes was written.
pub fn write_piece<K: Sink>(sink: &mut K, bytes: &[u8]) -> Result<(), WriteFault>
    ensures ok { OnOk result (Appends (K.written sink.old) (K.written sink.new) bytes.now) }
    ensures err { OnErr result (AppendsPrefix (K.written sink.old) (K.written sink.new) bytes.now) }
    ensures write_fault { OnErr result (Rises (K.faults sink.old) (K.faults sink.new)) }
    ensures faults_never_fall { K.faults sink.old ≤ K.faults sink.new }
{
    let mut rest = bytes;
    while !rest.is_empty() {
        match sink.write(rest) {
            Ok(n) => rest = &rest[n..],
            Err(_) => return Err(WriteFault),
        }
    }
    Ok(())
}

/// Writes all the bytes, in pieces of `size` bytes of which the last holds what is left. It takes no memory.
///
/// # Errors
///
/// `WriteFault` where a write failed: then a prefix of the bytes was written.
pub fn write_pieces<K: Sink>(sink: &mut K, bytes: &[u8], size: usize) -> Result<(), WriteFault>
    requires { 0 < size }
    ensures ok { OnOk result (Appends (K.written sink.old) (K.written sink.new) bytes.now) }
    ensures err { OnErr result (AppendsPrefix (K.written sink.old) (K.written sink.new) bytes.now) }
    ensures write_fault { OnErr result (Rises (K.faults sink.old) (K.faults sink.new)) }
    ensures faults_never_fall { K.faults sink.old ≤ K.faults sink.new }
{
    for piece in bytes.chunks(size) {
        write_piece(sink, piece)?;
    }
    Ok(())
}

/// Writes a line, its newline included, by itself and in pieces of `LINE_PIECE` bytes.
///
/// # Errors
///
/// `WriteFault` where a write failed: then a prefix of the line was written.
pub fn write_line<K: Sink>(sink: &mut K, line: &[u8]) -> Result<(), WriteFault>
    ensures ok { OnOk result (Appends (K.written sink.old) (K.written sink.new) line.now) }
    ensures err { OnErr result (AppendsPrefix (K.written sink.old) (K.written sink.new) line.now) }
    ensures write_fault { OnErr result (Rises (K.faults sink.old) (K.faults sink.new)) }
    ensures faults_never_fall { K.faults sink.old ≤ K.faults sink.new }
{
    write_pieces(sink, line, LINE_PIECE)
}
