// The machine that runs a program: registers, flags, memory and services, after the AMD64 Architecture Programmer's Manual, Volume 3.
//
// The definition stands in specs/: `fetch` says which instruction stands at an address of the code, `act` what an instruction comes
// to, `machine_step` what a step does, and `machine_run` where at most n steps lead. It speaks of lists and numbers, and shares with
// the code only constants and the table of forms: `fetches_code` says what is fetched by the encodings alone.
//
// Promises: `load` makes the state `start`, `step` and `run` go exactly where `machine_step` and `machine_run` go, write the
// lines of what is displayed and answer how the run ended, and `write_result` writes the line of the result that it ended with.
//
// May touch: memory, and the sink that it is lent.
//
// Files:
//   arithmetic.rt results of operations, their flags, and conditions
//   state.rt      the flags, the state between two instructions, and how a run begins and ends
//   cache.rt      instructions that were decoded, by their addresses
//   perform.rt    what each instruction does
//   serving.rt    what a call of a service does
//   running.rt    steps of a run that goes on
//   machine.rt    `Machine`: load, step, run
//   result.rt     the line of a result
#![tactic(auto)]

mod arithmetic;
mod cache;
pub mod machine;
mod perform;
pub mod result;
mod running;
mod serving;
pub mod state;

pub use arithmetic::conditions_compare;
pub use cache::fetches_code;
pub use machine::{End, Machine, calls_go_on, runs_go_on};
pub use result::ResultFault;
