// The text of values, as a run prints them.
//
// The text of a value is that of the term that it stands for, as `hipe_terms` defines it. Nothing here recurs on data, so lists
// of any length and terms of any depth are written.
//
// Promises: what is written is the text that `hipe_terms` defines for the value's term, with the names of the module's definitions
// for its funs.
//
// May touch: memory alone, for the pieces that are still to be written.
//
// Files:
//   piece.rt    what of a text is still to be written
//   fun.rt      the text of funs
//   show.rt     the text of values
#![tactic(auto)]

mod fun;
mod piece;
pub mod show;

pub use show::show_value;
