// Putting an image and the constants of a call into memory.
//
// Promises: `load_program` gives exactly what the definition `loaded` says: the symbols of the program and of the call, the
// memory before the first instruction, and where the run begins; or that the call isn't exported, or that its constants don't fit
// the heap.
//
// May touch: memory alone.
//
// Files:
//   entry.rt     the function of a call
//   symbols.rt   the symbols of a program and of a call
//   numbers.rt   the numbers of a table's atoms
//   memory.rt    the words of a program and of a call
//   load.rt      `load_program`
#![tactic(auto)]

mod entry;
pub mod load;
mod memory;
mod numbers;
mod symbols;

pub use load::{Loaded, Start, load_program};
