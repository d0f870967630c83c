// A plain evaluator of modules, with which every later layer is compared. It is no part of the compiler.
//
// `eval_call` calls a function of a module with so much fuel, and gives what the definition of the language says: how the run
// ends, what it prints, the words that it builds, the greatest claim on the stack, the rest of the fuel, and the work. It goes
// on a stack of its own: a frame for each part of an expression that waits for a value, so that it takes any depth of
// applications that memory holds.
//
// A configuration is what is done next, the frames that wait for it, and what was printed and counted so far. It stands for the
// run that goes on from there by the language's definition, and each step keeps that run.
//
// Promises: `eval_call` gives the run of the definition: its ending, what it prints, and all that it counts.
//
// May touch: memory alone.
//
// Files:
//   frame.rt      what waits for values, and what comes next
//   run.rt        the state of a run, and how it grows
//   machine.rt    the run of a call: steps, and the loop
//   evaluate.rt   what is done with each expression
//   reach.rt      what is done with the values of a list of parts
//   apply.rt      applications and calls
//   primop.rt     primitive operations
//   resume.rt     what each frame does with values
//   unwind.rt     what each frame does where a class is raised
//   choose.rt     clauses
//   make.rt       values and errors that a run makes
//   shapes.rt     shapes of values and of lists of values
#![tactic(auto)]

mod apply;
mod choose;
mod evaluate;
pub mod frame;
mod machine;
mod make;
mod primop;
mod reach;
mod resume;
pub mod run;
mod shapes;
mod unwind;

pub use frame::Ending;
pub use machine::eval_call;
pub use run::{Counts, Evaluation};
