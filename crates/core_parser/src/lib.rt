// The parser of Core Erlang's profile: a machine with a stack of symbols, which are to come, and a stack of values, which
// were read. Each terminal makes one move.
//
// `specs/Machine` defines the machine, and `specs/Laws` says that it reads exactly what the grammar derives.
//
// Promises: the machine ends with a module or a call if and only if the grammar derives it, and stops at the terminal where
// the grammar refuses; the grammar derives each list of terminals as one module or one call at most, and refuses it for one reason at one place.
//
// May touch: memory alone, for the values that it holds.
//
// Files:
//   symbol.rt   symbols
//   value.rt    values
//   moved.rt    what a terminal did
//   laws.rt     what the machine reads, and what that proves of the grammar
#![tactic(auto)]

pub mod laws;
pub mod moved;
pub mod symbol;
pub mod value;

pub use moved::{Moved, Wanted};
pub use symbol::{Closer, Element, Maker, Part, Symbol, Term};
pub use value::Value;
