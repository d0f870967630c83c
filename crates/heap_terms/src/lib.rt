// Terms in the words of the heap.
//
// A word says by its low bits what it is: an integer, an atom, nil, a list or an object with a header, which is a tuple or a fun.
// What a list or an object is made of stands in the heap. An object refers only to objects that begin below its own first word,
// so every word is followed to an end.
//
// Promises: `shape_at` says what a word is; `stands` whether a word stands for a term, `show_word` the text of the term, and
// `build` puts constants into words of the heap, each exactly as its definition in specs/ says. Nothing recurs on the data of a
// heap, so lists of any length and terms of any depth are followed.
//
// May touch: memory alone, for texts and words.
//
// Files:
//   tags.rt      the tags of words
//   symbols.rt   what is known of a program where its words are read
//   shape.rt     what a word is
//   follow.rt    whether a word stands for a term
//   piece.rt     what of a text is still to be written
//   fun.rt       the text of funs
//   show.rt      the text of the term for which a word stands
//   numbers.rt   the numbers of atoms
//   constants.rt the words of constants
//   tests.rt     the tests
#![tactic(auto)]

pub mod constants;
pub mod follow;
mod fun;
pub mod numbers;
mod piece;
pub mod shape;
pub mod show;
pub mod symbols;
pub mod tags;
#[cfg(test)]
mod tests;

pub use constants::{build, build_each};
pub use follow::stands;
pub use numbers::AtomNumbers;
pub use shape::{Reference, Shape, shape_at};
pub use show::show_word;
pub use symbols::{DefinitionName, Symbols};
