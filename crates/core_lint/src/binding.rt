// The names that are bound together.

ghost use Rattle.std.specs.Prelude.{◌≡◌, ◌++◌, ◌∷◌, [], IfOk, OnOk, map};
ghost use Rattle.core_ast.specs.Trees.{definition_of, definitions, pattern_of, patterns};
ghost use Rattle.core_ast.specs.Names.{variables_of, variables_of_all};
ghost use Rattle.core_lint.specs.Keys.{key_of};
ghost use Rattle.core_lint.specs.Entries.{entry_of, variable_key, function_key, variable_entries, function_entries};

use crate::name::{Bound, Name};
use core_ast::{FunDef, FunName, PatNode, Pattern, Place, Var, VariableName};
use hipe_base::Memory;
use std::alloc::Global;

/// The name of a variable.
pub fn variable<'a>(x: &'a VariableName) -> Name<'a>
    ensures { key_of result ≡ variable_key x.now }
{
    Name {
        text: x.as_str(),
        arity: 0,
    }
}

/// The name of a function.
pub fn function<'a>(f: &'a FunName) -> Name<'a>
    ensures { key_of result ≡ function_key f.now }
{
    Name {
        text: f.name.as_str(),
        arity: f.arity,
    }
}

fn bind<'a>(name: Name<'a>, at: Place, list: &mut Vec<Bound<'a>>) -> Result<(), Memory>
    ensures { OnOk result (map entry_of list.new.items ≡ map entry_of list.old.items ++ (key_of name.entry, at) ∷ []) }
{
    list.push(Bound { name, at })?;
    Ok(())
}

/// The names of these variables.
pub fn variables<'a>(alloc: Global, xs: &'a [Var]) -> Result<Vec<Bound<'a>>, Memory>
    ensures { IfOk result (λ list. map entry_of list.items ≡ variable_entries xs.now) }
{
    let mut list = Vec::with_capacity(alloc, xs.len())?;
    for x in xs {
        bind(variable(&x.name), x.at, &mut list)?;
    }
    Ok(list)
}

// The name of a function where it is defined.
#[tactic(auto, using(core_ast::proofs::Levels::levels))]
fn definition<'a>(def: &'a FunDef) -> Bound<'a>
    ensures { entry_of result ≡ (function_key (definition_of def.now).name, (definition_of def.now).at) }
{
    Bound {
        name: function(&def.name),
        at: def.at,
    }
}

/// The names of these functions.
#[tactic(auto, using(crate::proofs::Bound::bound_functions))]
pub fn functions<'a>(alloc: Global, defs: &'a [FunDef]) -> Result<Vec<Bound<'a>>, Memory>
    ensures { IfOk result (λ list. map entry_of list.items ≡ function_entries (definitions (map definition_of defs.now))) }
{
    let mut list = Vec::with_capacity(alloc, defs.len())?;
    for def in defs {
        list.push(definition(def))?;
    }
    Ok(list)
}

/// The names of the variables of these patterns, in the order of the text.
pub fn pattern_variables<'a>(alloc: Global, list: &'a [Pattern]) -> Result<Vec<Bound<'a>>, Memory>
    ensures { IfOk result (λ bound. map entry_of bound.items ≡ variable_entries (variables_of_all (patterns (map pattern_of list.now)))) }
{
    let mut bound = Vec::new(alloc);
    in_patterns(list, &mut bound)?;
    Ok(bound)
}

#[cycle(patterns)]
#[tactic(auto, using(crate::proofs::Bound::bound_variables))]
fn in_pattern<'a>(p: &'a Pattern, bound: &mut Vec<Bound<'a>>) -> Result<(), Memory>
    ensures { OnOk result (map entry_of bound.new.items ≡ map entry_of bound.old.items ++ variable_entries (variables_of (pattern_of p.now))) }
{
    match &p.node {
        PatNode::Var(x) => bind(variable(x), p.at, bound),
        PatNode::Int(_) | PatNode::Atom(_) | PatNode::Nil => Ok(()),
        PatNode::Tuple(parts) => in_patterns(parts.as_slice(), bound),
        PatNode::List(parts, tail) => {
            in_patterns(parts.as_slice(), bound)?;
            in_pattern(tail.get(), bound)
        }
        PatNode::Alias(x, part) => {
            bind(variable(&x.name), x.at, bound)?;
            in_pattern(part.get(), bound)
        }
    }
}

#[cycle(patterns)]
#[tactic(auto, using(crate::proofs::Bound::bound_variables))]
fn in_patterns<'a>(list: &'a [Pattern], bound: &mut Vec<Bound<'a>>) -> Result<(), Memory>
    ensures { OnOk result (map entry_of bound.new.items ≡ map entry_of bound.old.items ++ variable_entries (variables_of_all (patterns (map pattern_of list.now)))) }
{
    for p in list {
        in_pattern(p, bound)?;
    }
    Ok(())
}
