// Printing a module and reading it again.
//
// The text that a module is printed as reads as a module that differs in the places of its parts alone. `specs/Laws` says so of
// every module that some text reads as, places aside, and of every module within the limits of texts, which `specs/Fits` defines:
// the module's own places may be any.
//
// Promises: what is printed of a module that some text reads as, or that is within the limits, reads back.
//
// May touch: memory alone.
//
// Files:
//   laws.rt       the laws, of texts and modules
//   rereading.rt  the same of the printer and the reader
//   tests.rt      the factorial, read and printed twice
#![tactic(auto)]

pub mod laws;
pub mod rereading;
#[cfg(test)]
mod tests;

pub use laws::{printed_reads_back, within_limits_reads_back};
pub use rereading::reread;
