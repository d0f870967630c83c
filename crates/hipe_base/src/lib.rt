// What every crate shares: the limits of texts, modules and code, and the error of a call that finds no memory.
//
// Promises: the limits are the numbers of `limits_are`. Each limit of the language stands here once, by name, with its reason.
//
// May touch: nothing.
//
// Files:
//   laws.rt     the numbers of the limits
//   limits.rt   the limits of texts, modules and code
//   memory.rt   the error of a call that finds no memory
#![tactic(auto)]

pub mod laws;
pub mod limits;
mod memory;

pub use laws::limits_are;
pub use memory::Memory;
