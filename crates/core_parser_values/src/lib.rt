// What the parser does to the values that it read: how they are put together, on a stack that contracts see as the list of its
// items, the top first.
//
// `make` does what a maker says. Each function below does what the definition of its name says; an error is that memory ran
// out, and the stack is then of no use.
//
// Promises: each function changes the values as the definition of its name says, where it finds the memory.
//
// May touch: memory alone.
//
// Files:
//   stack.rt       stacks
//   taken.rt       the value on top, as one of a kind
//   element.rt     elements of lists of parts
//   cells.rt       lists, and tuples
//   text.rt        texts, as the lists of their characters
//   expression.rt  expressions
//   pattern.rt     patterns, clauses and variables
//   module.rt      functions, modules and calls
//   made.rt        what a maker makes
#![tactic(auto)]

pub mod cells;
pub mod element;
pub mod expression;
pub mod made;
pub mod module;
pub mod pattern;
mod stack;
pub mod taken;
pub mod text;

pub use made::make;
pub use stack::Stack;
