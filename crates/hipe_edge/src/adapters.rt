// Sources and sinks over the readers and writers of `std::io`.
ghost use Rattle.std.specs.Prelude.{◌≡◌, ◌<◌, ◌≤◌, ℕ, length, take, None, Ok, is_err, IfOk, OnErr, if◌then◌else◌};
ghost use Rattle.std.specs.Io.KnownBytes.{Appends, Consumes, Keeps, IsAtEnd};
ghost use Rattle.hipe_edge.specs.Adapters.{stream_of, faults_of};
ghost use Rattle.hipe_edge.specs.Bytes.{AppendsPrefix};
ghost use Rattle.hipe_edge.specs.Counts.{counted, Rises};

use super::streams::{Failed, Sink, Source};
use std::io;
use std::io::{Read, Write};

/// A reader or a writer, and how many of its calls failed. The count stands still at 2^64 - 1.
#[derive(Drop)]
pub struct Counted<T> {
    stream: T,
    faults: u64,
}

impl<T> Counted<T> {
    /// A source over this reader or a sink over this writer, none of whose calls has failed.
    pub fn new(stream: T) -> Counted<T>
        ensures stream { stream_of result ≡ stream }
        ensures faults { faults_of result ≡ 0 }
    {
        Counted { stream, faults: 0 }
    }
}

/// A source over a reader. It tells no bytes, and counts the reads that failed.
pub type StdSource<R> = Counted<R>;

/// A sink over a writer. It tells no bytes, flushes at each write, and counts the writes that failed.
pub type StdSink<W> = Counted<W>;

impl<R: Read> Source for Counted<R> {
    ghost left = { λ _. None };

    ghost faults = { faults_of };

    /// Reads once. Each error of the reader is a fault.
    fn read(&mut self, into: &mut [u8]) -> Result<usize, Failed>
        ensures bound { IfOk result (λ n. n ≤ length into.new) }

        // What the reader gives, where it tells its bytes.
        ensures taken { IfOk result (λ n. Consumes (R.remaining (stream_of self.old))
            (R.remaining (stream_of self.new)) (take n into.new)) }
        ensures end { result ≡ Ok 0 → 0 < length into.old → IsAtEnd (R.remaining (stream_of self.new)) }
        ensures kept { OnErr result (Keeps (R.remaining (stream_of self.old))
            (R.remaining (stream_of self.new))) }

        ensures faults { faults_of self.new
            ≡ (if is_err result then counted (faults_of self.old) else faults_of self.old) }
        ensures faults_never_fall { faults_of self.old ≤ faults_of self.new }
        ensures failed { OnErr result (Rises (faults_of self.old) (faults_of self.new)) }
    {
        match self.stream.read(into) {
            Ok(n) => Ok(n),
            Err(_) => {
                self.faults = self.faults.saturating_add(1);
                Err(Failed)
            }
        }
    }
}

impl<W: Write> Sink for Counted<W> {
    ghost written = { λ _. None };

    ghost faults = { faults_of };

    /// Writes once and flushes. Each error of the writer is a fault, and so is a write that takes no byte.
    fn write(&mut self, from: &[u8]) -> Result<usize, Failed>
        ensures bound { IfOk result (λ n. (0 < n) × (n ≤ length from.now)) }

        // What the writer holds, where it tells its bytes. A flush may fail after the write took some.
        ensures appended { IfOk result (λ n. Appends (W.contents (stream_of self.old))
            (W.contents (stream_of self.new)) (take n from.now)) }
        ensures prefix { OnErr result (AppendsPrefix (W.contents (stream_of self.old))
            (W.contents (stream_of self.new)) from.now) }

        ensures faults { faults_of self.new
            ≡ (if is_err result then counted (faults_of self.old) else faults_of self.old) }
        ensures faults_never_fall { faults_of self.old ≤ faults_of self.new }
        ensures failed { OnErr result (Rises (faults_of self.old) (faults_of self.new)) }
    {
        match write_flushed(&mut self.stream, from) {
            Ok(n) if n > 0 => Ok(n),
            _ => {
                self.faults = self.faults.saturating_add(1);
                Err(Failed)
            }
        }
    }
}

// One write, and a flush where it succeeded.
fn write_flushed<W: Write>(writer: &mut W, from: &[u8]) -> io::Result<usize>
    ensures bound { IfOk result (λ n. n ≤ length from.now) }
    ensures appended { IfOk result (λ n. Appends (W.contents writer.old) (W.contents writer.new)
        (take n from.now)) }
    ensures prefix { OnErr result (AppendsPrefix (W.contents writer.old) (W.contents writer.new) from.now) }
{
    let n = writer.write(from)?;
    writer.flush()?;
    Ok(n)
}
