// The functions of a module by their numbers, and the names in scope in each part of them.
//
// It is a part of the plain evaluator, with which later layers are compared, and is written to be read beside the language's
// definition: each function here gives the value of a definition of its name. What a scope leads to stands in an arena or in the
// module's tree.
//
// Promises: the functions, their numbers, their scopes, what they capture and the words of the stack that they claim are those of
// the language's definition.
//
// May touch: memory alone.
//
// Every error is out of memory, or that of a count that passes 2^64 - 1, which no memory holds.
//
// Files:
//   count.rt        sums that fit, and how many funs stand in an expression
//   nodes.rt        the nodes of functions, and the words of the stack that they claim
//   scope.rt        the variables and functions in scope
//   free.rt         what occurs free
//   captured.rt     what funs capture, and the scopes inside them
//   procedure.rt    a function by its number
//   procedures.rt   the functions of a module
#![tactic(auto)]

pub mod captured;
pub mod count;
pub mod free;
pub mod nodes;
pub mod procedure;
pub mod procedures;
pub mod scope;

pub use captured::{captured_by_fun, captured_by_group, carried, group_scope, letrec_scope};
pub use count::{add, funs, funs_in_all, funs_in_clause, funs_in_definition, funs_in_definitions};
pub use nodes::{expression_nodes, frame, patterns_nodes};
pub use procedure::Procedure;
pub use procedures::module_procedures;
pub use scope::{
    Function, Known, Scope, Slot, binding, is_named, names, names_bound_by, same_variable,
};
