// Running a sum: from the sum to the line of its value.
//
// Promises: `run_sum` makes the image of the sum, loads it into the machine, runs it there, and writes the line of the value
// with which the machine ended. By the theorem of `sum_code` this is the plain sum.
//
// May touch: memory, and the sink that it is lent.
//
// Files:
//   run.rt   `run_sum`
#![tactic(auto)]

pub mod run;

pub use run::run_sum;
