// The tests of tokens: tables of texts with their tokens, values and faults.
//
// Promises: nothing.
//
// May touch: memory alone.
//
// Files:
//   tables.rt     the tables
//   tests.rt      the tests that go through them
#![tactic(auto)]

#[cfg(test)]
mod tables;
#[cfg(test)]
mod tests;
