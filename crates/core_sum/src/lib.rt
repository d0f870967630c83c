// Modules whose one function gives a sum of integers: the form of the modules that the compiler takes so far.
//
// Promises: `sum_of` gives the sum of a good module if and only if the module is of this form (specs/Form.antt), or the first part of the
// module that isn't of it, or says that the module doesn't export the function, or that memory ran out. A module has at most one sum.
//
// May touch: memory alone, for the sum.
//
// Files:
//   sum.rt      sums, and why a module has none
//   name.rt     names of functions
//   part.rt     the sum that an expression is made as
//   module.rt   the sum of a module
//   laws.rt     what holds of the sums of modules
#![tactic(auto)]

mod laws;
mod module;
mod name;
mod part;
mod sum;

pub use laws::sums_are_unique;
pub use module::sum_of;
pub use sum::{MOST_INTEGERS, Sum, SumRefusal, value_of_small_integers};
