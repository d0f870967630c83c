// The contexts of a run's expressions, what patterns bind there, and what a run knows of a module.
//
// It is a part of the plain evaluator, with which later layers are compared: each function here gives the value of a definition of
// the language's meaning of its name.
//
// Promises: a context, what patterns bind and what is known of a module are those of the definitions; the built-in functions are
// found by the table in `hipe_terms`.
//
// May touch: memory alone.
//
// Every error is out of memory, or that of a count that passes 2^64 - 1, which no memory holds.
//
// Files:
//   arena.rt      what the values of runs stand in
//   context.rt    the context of an expression
//   matching.rt   patterns against values
//   program.rt    a program: a module, with its functions by number
//   table.rt      what a run asks of a program
#![tactic(auto)]

pub mod arena;
pub mod context;
pub mod matching;
pub mod program;
pub mod table;

pub use arena::Arena;
pub use context::{Context, joined};
pub use matching::matched_all;
pub use program::Program;
pub use table::built_in;
