// The linter of Core Erlang's profile: it tells good modules from others.
//
// Promises: `lint` answers the same module as a good one if and only if it breaks no rule, or else the first rule that it breaks with the
// place, or that memory ran out. Rules are broken at places; the first place in the text is answered, and at one place the first rule.
// The rules and what is broken where are definitions of `core_ast`.
//
// Three walks go through a module. One counts values, parameters and functions; one counts nodes; and the last keeps the names in
// scope, in ordered sets, and looks for none where a rule that is broken behind the first known one wouldn't be answered. That each
// visits every part once, and goes down no deeper than the levels of the module, is how the code is written, and no contract says it.
//
// May touch: memory alone, for the names in scope.
//
// Files:
//   refusal.rt    why a module isn't good
//   broken.rt     the first broken rule so far
//   name.rt       names and where they are bound
//   binding.rt    the names that a list of variables, the patterns of a clause or a group of functions binds
//   scope.rt      the names in scope
//   walk.rt       what the walk through the scopes knows
//   scoping.rt    the walk through the scopes
//   tally.rt      what the walk that counts knows
//   counting.rt   the walk that counts
//   sizing.rt     the functions of a module with more nodes than the limit
//   linter.rt     the linter
#![tactic(auto)]

mod binding;
mod broken;
mod counting;
mod linter;
mod name;
mod refusal;
mod scope;
mod scoping;
mod sizing;
mod tally;
mod walk;

pub use linter::lint;
pub use refusal::LintRefusal;
