// Values of a run, and what the built-in functions do with them.
//
// Values are small and copied; what they lead to stands in an arena, so a list is handed on without a copy. Contracts see a
// value as the term that it stands for. Nothing here recurs on data: lists of any length are walked by loops, and terms of any
// depth are compared with a list of the pairs that are still to be compared.
//
// Promises: the value of a constant has the constant's term; the order of two values is that of their terms; a built-in function
// ends as its definition in `hipe_terms` says, with the same value or reason, the same printed term and the same number of words.
//
// May touch: memory alone, for lists, tuples and the pairs of a comparison.
//
// Files:
//   value.rt      values
//   atoms.rt      the atoms that a run makes itself
//   constant.rt   the values of constants
//   list.rt       lists: their elements, and lists of elements
//   compare.rt    the order of values
//   integer.rt    arithmetic
//   result.rt     how a built-in function ends
//   ends.rt       what built-in functions stand on, and how they end
//   numbers.rt    the built-in functions on integers
//   data.rt       the built-in functions on Booleans, lists, tuples and funs
//   bifs.rt       the built-in functions
#![tactic(auto)]

pub mod atoms;
pub mod bifs;
pub mod compare;
pub mod constant;
pub mod data;
pub mod ends;
pub mod integer;
pub mod list;
pub mod numbers;
pub mod result;
pub mod value;

pub use atoms::Atoms;
pub use bifs::perform;
pub use compare::order;
pub use constant::{value_of, values_of, words_of, words_of_all};
pub use ends::{Ground, same_atom};
pub use list::{cells, elements, tuple};
pub use result::{End, Outcome};
pub use value::{Cell, Shape, Value, shape_of};
