// The laws that a lattice and a system of nodes and cells keep, for whatever solves such a system.
//
// A `Lattice` is a type whose values have an order, a least value and least upper bounds, and no chain of which is longer than its
// height. A `System` has nodes, each of which makes values for some cells of the values of others. What both mean is stated by ghost
// members.
//
// Promises: each `impl` of the two traits keeps their laws. The crate has no function of its own.
//
// May touch: nothing.
//
// Files:
//   lattice.rt   `Lattice`
//   system.rt    `System`
#![tactic(auto)]

mod lattice;
mod system;

pub use lattice::Lattice;
pub use system::System;
