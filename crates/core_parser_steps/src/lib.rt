// What a terminal does to the parser: its moves.
//
// `step` makes the move of a terminal, by the machine of `core_parser`. Each function below makes the moves of a symbol, or of
// some, and does what the definition of its name says; an error is that memory ran out, and the stacks are then of no use.
//
// Promises: `step` makes the move that the machine makes, or says where and why there is none.
//
// May touch: memory alone.
//
// Files:
//   coming.rt       what is to come
//   beginning.rt    how parts begin
//   name.rt         atoms, variables, and the names of functions
//   part.rt         parts that may be annotated
//   constant.rt     constants
//   expression.rt   expressions
//   pattern.rt      patterns
//   element.rt      elements with commas
//   cells.rt        lists and their tails
//   clause.rt       clauses
//   definition.rt   definitions and modules
//   argument.rt     the arguments of a call
//   mark.rt         keywords and signs
//   machine.rt      the move of a terminal
//   refusal.rt      why terminals are refused
//   terminal.rt     a terminal of a run
#![tactic(auto)]

mod argument;
mod beginning;
mod cells;
mod clause;
mod coming;
mod constant;
mod definition;
mod element;
mod expression;
pub mod machine;
mod mark;
mod name;
mod part;
mod pattern;
pub mod refusal;
pub mod terminal;

pub use refusal::Refusal;
pub use terminal::step;
