// The variables and functions in scope, the innermost first.

ghost use Rattle.std.specs.Prelude.{◌≡◌, ◌++◌, map, option_map, bytes_eq, IfOk, OnOk, IsTrue};
ghost use Rattle.core_ast.specs.Names.{is_named, variables_of};
ghost use Rattle.core_ast.specs.Trees.{pattern_of, patterns};
ghost use Rattle.core_meaning.specs.Scopes.{slot_of, known_of, names, binding, bound_by};
ghost use Rattle.eval_procedures.specs.Shown.{names_in, known_in, scope_in};

use crate::count::add;
use bumpalo::Bump;
use core_ast::{FunName, PatNode, Pattern, Var, VariableName};
use hipe_base::Memory;
use std::alloc::Global;

/// What a function's name stands for: the function's number, and the slots of the variables that it captures.
#[derive(Clone, Copy)]
pub struct Known<'a> {
    pub number: u64,
    pub captured: &'a [u64],
}

/// A variable and its slot.
#[derive(Clone, Copy)]
pub struct Slot<'a> {
    pub name: &'a VariableName,
    pub slot: u64,
}

/// A function by its name.
#[derive(Clone, Copy)]
pub struct Function<'a> {
    pub name: &'a FunName,
    pub known: Known<'a>,
}

/// The variables and the functions in scope, the innermost first.
#[derive(Clone, Copy)]
pub struct Scope<'a> {
    pub variables: &'a [Slot<'a>],
    pub functions: &'a [Function<'a>],
}

/// Whether two functions have the same name and arity.
#[tactic(auto, using(crate::proofs::Referred::same_names))]
pub fn is_named(f: &FunName, g: &FunName) -> bool
    ensures { result ≡ is_named f.now g.now }
{
    f.name.order(&g.name).is_eq() && f.arity == g.arity
}

/// Whether two variables have the same name.
pub fn same_variable(x: &VariableName, y: &VariableName) -> bool
    ensures { result ≡ bytes_eq x.now y.now }
{
    x.as_str() == y.as_str()
}

impl<'a> Scope<'a> {
    /// The slot of a variable.
    pub fn slot_of(self, x: &VariableName) -> Option<u64>
        ensures { result ≡ slot_of x.now (scope_in self.entry) }
    {
        for v in self.variables {
            if same_variable(x, v.name) {
                return Some(v.slot);
            }
        }
        None
    }

    /// What a function's name stands for.
    pub fn known_of(self, f: &FunName) -> Option<Known<'a>>
        ensures { option_map known_in result ≡ known_of f.now (scope_in self.entry) }
    {
        for g in self.functions {
            if is_named(f, g.name) {
                return Some(g.known);
            }
        }
        None
    }
}

/// The names of some variables. An error where there is no memory for them.
#[tactic(auto, using(crate::proofs::Referred::naming))]
pub fn names<'a>(alloc: Global, xs: &'a [Var]) -> Result<Vec<&'a VariableName>, Memory>
    ensures { IfOk result (λ found. names_in found.items ≡ names xs.now) }
{
    let mut found = Vec::new(alloc);
    for x in xs {
        found.push(&x.name)?;
    }
    Ok(found)
}

/// The scope where these variables are bound too, in the slots from `first` on. An error where there is no memory for it, or where
/// a slot passes 2^64 - 1.
pub fn binding<'a>(
    bump: &'a Bump,
    first: u64,
    xs: &[&'a VariableName],
    s: Scope<'a>,
) -> Result<Scope<'a>, Memory>
    ensures { IfOk result (λ t. scope_in t ≡ binding first (names_in xs.now) (scope_in s.entry)) }
{
    let mut variables = Vec::new(bump);
    let mut slot = first;
    for x in xs {
        variables.push(Slot { name: x, slot })?;
        slot = add(slot, 1)?;
    }
    variables.extend_from_slice(s.variables)?;
    Ok(Scope {
        variables: bump.try_alloc_slice_copy(variables.as_slice())?,
        functions: s.functions,
    })
}

/// The names of the variables that patterns bind, in the order of the text. An error where there is no memory for them.
#[tactic(auto, using(crate::proofs::Referred::pattern_levels))]
pub fn names_bound_by<'a>(alloc: Global, ps: &'a [Pattern]) -> Result<Vec<&'a VariableName>, Memory>
    ensures { IfOk result (λ found. names_in found.items ≡ bound_by (patterns (map pattern_of ps.now))) }
{
    let mut found = Vec::new(alloc);
    names_of_patterns(ps, &mut found)?;
    Ok(found)
}

// Puts the names of a pattern's variables behind those that were found, in the order of the text. An error where there is no
// memory for them.
#[cycle(pattern_names)]
#[tactic(auto, using(crate::proofs::Referred::pattern_levels))]
fn pattern_names<'a>(p: &'a Pattern, found: &mut Vec<&'a VariableName>) -> Result<(), Memory>
    ensures { OnOk result (names_in found.new.items ≡ names_in found.old.items ++ names (variables_of (pattern_of p.now))) }
{
    match &p.node {
        PatNode::Int(_) | PatNode::Atom(_) | PatNode::Nil => Ok(()),
        PatNode::Var(x) => {
            found.push(x)?;
            Ok(())
        }
        PatNode::Tuple(parts) => names_of_patterns(parts.as_slice(), found),
        PatNode::List(parts, tail) => {
            names_of_patterns(parts.as_slice(), found)?;
            pattern_names(tail.get(), found)
        }
        PatNode::Alias(x, part) => {
            found.push(&x.name)?;
            pattern_names(part.get(), found)
        }
    }
}

// Puts the names of these patterns' variables behind those that were found. An error where there is no memory for them.
#[cycle(pattern_names)]
#[tactic(auto, using(crate::proofs::Referred::pattern_levels))]
fn names_of_patterns<'a>(ps: &'a [Pattern], found: &mut Vec<&'a VariableName>) -> Result<(), Memory>
    ensures { OnOk result (names_in found.new.items ≡ names_in found.old.items ++ bound_by (patterns (map pattern_of ps.now))) }
{
    for p in ps {
        pattern_names(p, found)?;
    }
    Ok(())
}
