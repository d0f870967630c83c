// The edge of the compiler: every byte that it reads or writes passes through a `Source` or a `Sink`.
//
// A source tells which bytes it has left and a sink which bytes it was given, where they know, and both
// count how many of their calls failed. So the contract of a call above can name what was read and written,
// and can say that it answers a fault only where a read or a write failed while it ran.
//
// Promises: `read_all` gives every byte up to the end, or says that there are too many, or that a read
// failed; the writers append what they are given, or a prefix of it where a write failed; the sources and
// sinks in memory fail exactly at the calls that they are told to.
//
// May touch: memory, for what it reads, and the readers and writers that the adapters are lent.
//
// Files:
//   streams.rt     the traits `Source` and `Sink`
//   reading.rt     `read_all`
//   writing.rt     `write_piece`, `write_pieces`, `write_line`
//   in_memory.rt   `MemSource` and `MemSink`, whose calls fail where a test wants it
//   sure.rt        `SureSource` and `CountSink`, which never fail
//   adapters.rt    `StdSource` and `StdSink`, over the readers and writers of `std::io`
//   tests.rt       what no clause says
#![tactic(auto)]

pub mod adapters;
pub mod in_memory;
pub mod reading;
pub mod streams;
pub mod sure;
#[cfg(test)]
mod tests;
pub mod writing;

pub use adapters::{Counted, StdSink, StdSource};
pub use in_memory::{MemSink, MemSource};
pub use reading::{READ_PIECE, ReadAllFault, read_all};
pub use streams::{Failed, Sink, Source};
pub use sure::{CountSink, SureSource};
pub use writing::{LINE_PIECE, WriteFault, write_line, write_piece, write_pieces};
