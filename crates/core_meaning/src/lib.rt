// What a module of Core Erlang means.
//
// Its definitions stand in specs/: the names in scope and what funs capture (Scopes), the functions of a module by number
// (Procedures), patterns (Matching), expressions with all that a run counts (Meaning), the run of a call (Source), and the text of what
// a run prints and of how it ends (Output). The meaning under limits on heap and stack is the same definition with limits.
//
// Promises: along a run nothing that was counted or printed is taken back; more fuel changes nothing once a run ends otherwise than by
// spent fuel; and a run under limits is the whole run up to the first limit that it passes. The crate's functions have no bodies: each
// states a law of these definitions.
//
// May touch: nothing. It has no code.
//
// Files:
//   laws.rt    what holds of all runs
#![tactic(auto)]

pub mod laws;
