// The tree of a Core Erlang module, the nodes of its functions, and the rules of good modules.
//
// Promises: the counts of count.rt, `nodes` among them, are those of specs/Nodes.antt, and `is_well_formed` answers whether integers
// are in the range and lists are whole. The rules are specs/Rules.antt, each a condition on a part and the names in scope there; a
// `GoodModule` breaks none of them, which its type keeps. A rule is broken somewhere if and only if a module isn't good, and then there
// is one first broken rule. All definitions are about plain trees (specs/Trees.antt).
//
// May touch: nothing.
//
// Files:
//   variable.rt   names of variables
//   pattern.rt    variables and patterns
//   tree.rt       modules, functions, expressions and clauses
//   count.rt      the nodes of a function and of its parts, up to a limit
//   well_formed.rt  whether a tree is well formed
//   rule.rt       the rules of good modules
//   good.rt       good modules
//   laws.rt       laws of the definitions
#![tactic(auto)]

pub mod count;
pub mod good;
pub mod laws;
pub mod pattern;
pub mod rule;
pub mod tree;
pub mod variable;
pub mod well_formed;

pub use count::nodes;
pub use good::GoodModule;
pub use hipe_terms::Place;
pub use laws::{
    broken_where_not_good, one_rule_is_first, parts_have_no_more_nodes, some_rule_is_first,
};
pub use pattern::{PatNode, Pattern, Var};
pub use rule::{Broken, Rule};
pub use tree::{Clause, Expr, Fun, FunDef, FunName, Module, Node};
pub use variable::VariableName;
pub use well_formed::is_well_formed;
