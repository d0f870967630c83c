// The reader of Core Erlang.
//
// `read_module` reads the text of a module of the profile, and `read_call` a call from outside. Both are written to take time in
// proportion to the text, and stack only by its levels; no contract says it.
//
// Promises: the one tree that the text has, with the places of its parts, or its first fault with its place. The terminals of the
// tree are what the tokens of the text spell.
//
// May touch: memory alone.
//
// Files:
//   laws.rt       each text has one answer, and terminals mean what tokens spell
//   refusal.rt    why a text isn't read
//   mark.rt       keywords and signs
//   terminal.rt   tokens with their values
//   run.rt        a run of the parser over the tokens of a text
//   read.rt       modules and calls
#![tactic(auto)]

pub mod laws;
mod mark;
mod read;
mod refusal;
mod run;
mod terminal;

pub use laws::{one_answer, one_call_answer, terminals_mean};
pub use read::{read_call, read_module};
pub use refusal::{CallRefusal, ReadRefusal};
