// The text of a Core Erlang module: readable, with each block on lines of its own.
//
// Promises: the text that `print_module` writes of a module that is well formed is that of specs/Printed.antt, which goes by the tree
// alone: a list of tokens, spaces and lines.
//
// May touch: memory alone, for the text.
//
// Files:
//   piece.rt        what a text is made of: tokens, spaces and lines
//   pattern.rt      the text of variables and patterns
//   expression.rt   the text of expressions, clauses and functions
//   print.rt        the text of a module
#![tactic(auto)]

mod expression;
mod pattern;
mod piece;
pub mod print;

pub use print::print_module;
