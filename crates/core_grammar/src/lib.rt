// The grammar of Core Erlang's profile.
//
// The language is defined in `specs/`: `Grammar` has the productions, one constructor each, with the tree that each derives,
// the places of its parts and their levels. `Language` says which lists of terminals are modules and calls, and where the
// others are refused.
//
// Promises: what the productions derive is well formed.
//
// May touch: memory alone, for the texts of terminals.
//
// Files:
//   terminal.rt   terminals: tokens with their values
//   fault.rt      why a list of terminals is no module
//   laws.rt       what the productions give
//   example.rt    a module by hand
#![tactic(auto)]

pub mod example;
pub mod fault;
pub mod laws;
pub mod terminal;

pub use fault::Fault;
pub use terminal::{Kind, Mark, Terminal};
