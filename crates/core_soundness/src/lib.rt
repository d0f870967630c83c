// No call of a good module gets stuck.
//
// Promises: a good module breaks no rule, and the rules are enough: a run of one of its calls meets no unbound name, no missing function
// and no number of values that does not fit, and where it ends with values it ends with one, also under limits. The crate's functions
// have no bodies: each states a law.
//
// May touch: nothing. It has no code.
//
// Files:
//   laws.rt    what holds of all runs of good modules
#![tactic(auto)]

pub mod laws;
