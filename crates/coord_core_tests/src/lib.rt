// Two small systems, and the tests of the coordinator on them.
//
// Promises: each `impl` here keeps the laws of its trait; nothing else.
//
// May touch: memory alone.
//
// Files:
//   level.rt   `Level`, the numbers from 0 to 3
//   pair.rt    `Pair`, two nodes of which each feeds the other
//   ring.rt    `Ring`, two nodes that are both started
//   tests.rt   the tests
#![tactic(auto)]

mod level;
mod pair;
mod ring;
#[cfg(test)]
mod tests;

pub use level::Level;
pub use pair::Pair;
pub use ring::Ring;
