// The services behind `syscall`: ends of a run, display, equality and order, length, `++` and the copy of a tuple.
//
// Promises: `serve` does exactly what the definition `service` says of the words in memory: it ends, goes on with a result,
// builds words at the heap pointer, or has no next state, where the number is another, a word that is followed is no
// term, or the heap pointer leads to no word of the heap. Nothing recurs on the data, and a list or a tuple of any length takes one entry
// of what is still to be compared.
//
// May touch: memory alone, for what is still to be followed and for lines.
//
// Files:
//   compare.rt   the order of two words
//   laws.rt      what the services keep of terms
//   list.rt      lists and tuples: length, `++`, copy
//   service.rt   the services and their numbers
//   services.rt  what the services do
//   tests.rt     the tests
#![tactic(auto)]

pub mod compare;
pub mod laws;
pub mod list;
pub mod service;
pub mod services;
#[cfg(test)]
mod tests;

pub use laws::{lists_append, words_compare};
pub use service::Service;
pub use services::{Served, ServiceCall, serve};
