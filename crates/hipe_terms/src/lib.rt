// Terms of the language: what programs compute with, and what every layer says of them.
//
// Promises: the order, the text and the words of a constant are those of its term; names and numbers of built-in functions,
// primitive operations and classes are those of the tables in specs/. What each built-in function does is defined here.
//
// May touch: memory alone, for texts.
//
// Files:
//   atom.rt       atoms
//   bif.rt        the built-in functions of `erlang`
//   class.rt      the classes of what is raised
//   compare.rt    the order of constants
//   constant.rt   constants and calls
//   place.rt      places in a text
//   primop.rt     the primitive operations
//   text.rt       the text of constants
//   words.rt      the words that constants take
#![tactic(auto)]

pub mod atom;
pub mod bif;
pub mod class;
pub mod compare;
pub mod constant;
pub mod place;
pub mod primop;
pub mod text;
pub mod words;

pub use atom::Atom;
pub use bif::Bif;
pub use class::Class;
pub use compare::{order, order_is_total, order_tells_apart, same};
pub use constant::{Call, Constant, is_constant};
pub use place::Place;
pub use primop::Primop;
pub use text::{show, show_atom, show_onto};
pub use words::words_of;
