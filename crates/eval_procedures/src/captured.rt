// What funs capture, and the scopes inside them.

ghost use Rattle.std.specs.Prelude.{◌≡◌, ◌==◌, ◌+◌, ◌++◌, map, length, option_map, IfOk, OnOk};
ghost use Rattle.std.specs.List.{list_any};
ghost use Rattle.core_ast.specs.Trees.{expression_of, definition_of, definitions};
ghost use Rattle.core_meaning.specs.Scopes.{funs, names, first_occurrences, captured_by_fun, captured_by_group, position, positions, carried, carried_variable, carried_variables, carried_functions, numbered_functions, letrec_scope, group_scope, knowing, slots_from};
ghost use Rattle.eval_procedures.specs.Shown.{scope_in, slot_in, function_in, with_first, carried_by};

use crate::count::{add, funs_in_definition};
use crate::free::{occurring_in_group, occurring_where_bound};
use crate::scope::{Function, Known, Scope, Slot};
use bumpalo::Bump;
use core_ast::{Expr, FunDef, Var};
use hipe_base::Memory;
use std::alloc::Global;

// Each slot where it stands first.
#[tactic(auto, using(crate::proofs::Firsts::firsts))]
fn first_occurrences(alloc: Global, slots: &[u64]) -> Result<Vec<u64>, Memory>
    ensures { IfOk result (λ found. found.items ≡ first_occurrences slots.now) }
{
    let mut found = Vec::new(alloc);
    for slot in slots {
        add_first(*slot, &mut found)?;
    }
    Ok(found)
}

// Puts a slot behind those that were found, unless it is one of them.
fn add_first(slot: u64, found: &mut Vec<u64>) -> Result<(), Memory>
    ensures { OnOk result (found.new.items ≡ with_first slot found.old.items) }
{
    if is_found(slot, found.as_slice()) {
        Ok(())
    } else {
        found.push(slot)?;
        Ok(())
    }
}

// Whether a slot is one of those that were found.
fn is_found(slot: u64, found: &[u64]) -> bool
    ensures { result ≡ list_any (λ j. slot == j) found.now }
{
    for other in found {
        if slot == *other {
            return true;
        }
    }
    false
}

/// The slots that a fun with these parameters and this body captures in this scope, in the order of the text. An error where there
/// is no memory for them.
pub fn captured_by_fun(
    alloc: Global,
    s: Scope<'_>,
    xs: &[Var],
    body: &Expr,
) -> Result<Vec<u64>, Memory>
    ensures { IfOk result (λ found. found.items ≡ captured_by_fun (scope_in s.entry) (names xs.now) (expression_of body.now)) }
{
    let mut found = Vec::new(alloc);
    occurring_where_bound(alloc, s, xs, body, &mut found)?;
    first_occurrences(alloc, found.as_slice())
}

/// The slots that the functions of one `letrec` capture in this scope: one list for all their bodies, in the order of the text. An
/// error where there is no memory for them.
pub fn captured_by_group(alloc: Global, s: Scope<'_>, defs: &[FunDef]) -> Result<Vec<u64>, Memory>
    ensures { IfOk result (λ found. found.items ≡ captured_by_group (scope_in s.entry) (definitions (map definition_of defs.now))) }
{
    let mut found = Vec::new(alloc);
    occurring_in_group(alloc, s, defs, &mut found)?;
    first_occurrences(alloc, found.as_slice())
}

// Where a slot stands in a list of captured ones.
#[tactic(auto, using(crate::proofs::Positions::one_position))]
fn position(slot: u64, captured: &[u64]) -> Option<u64>
    ensures { result ≡ position slot captured.now }
{
    for (i, c) in captured.iter().enumerate() {
        if slot == *c {
            return Some(i as u64);
        }
    }
    None
}

// Where each of some slots stands there.
#[tactic(auto, using(crate::proofs::Positions::all_positions))]
fn positions(alloc: Global, slots: &[u64], captured: &[u64]) -> Result<Option<Vec<u64>>, Memory>
    ensures { IfOk result (λ found. option_map (λ v. v.items) found ≡ positions slots.now captured.now) }
{
    let mut found = Vec::new(alloc);
    for slot in slots {
        match position(*slot, captured) {
            Some(i) => found.push(i)?,
            None => return Ok(None),
        }
    }
    Ok(Some(found))
}

/// The scope inside a fun that captures these slots. What was captured has the slots from 0 on there. An error where there is no
/// memory for it.
#[tactic(auto, using(crate::proofs::Referred::keeping))]
pub fn carried<'a>(
    alloc: Global,
    bump: &'a Bump,
    captured: &[u64],
    s: Scope<'a>,
) -> Result<Scope<'a>, Memory>
    ensures { IfOk result (λ t. scope_in t ≡ carried captured.now (scope_in s.entry)) }
{
    let variables = carried_variables(alloc, captured, s.variables)?;
    let functions = carried_functions(alloc, bump, captured, s.functions)?;
    Ok(Scope {
        variables: bump.try_alloc_slice_copy(variables.as_slice())?,
        functions: bump.try_alloc_slice_copy(functions.as_slice())?,
    })
}

// The variables inside a fun that captures these slots.
#[tactic(auto, using(crate::proofs::Referred::keeping))]
fn carried_variables<'a>(
    alloc: Global,
    captured: &[u64],
    variables: &[Slot<'a>],
) -> Result<Vec<Slot<'a>>, Memory>
    ensures { IfOk result (λ found. map slot_in found.items ≡ carried_variables captured.now (map slot_in variables.now)) }
{
    let mut found = Vec::new(alloc);
    for v in variables {
        carry_variable(captured, *v, &mut found)?;
    }
    Ok(found)
}

// Puts a variable behind those that were found, where it is captured.
#[tactic(auto, using(crate::proofs::Referred::keeping))]
fn carry_variable<'a>(
    captured: &[u64],
    v: Slot<'a>,
    found: &mut Vec<Slot<'a>>,
) -> Result<(), Memory>
    ensures { OnOk result (map slot_in found.new.items ≡ map slot_in found.old.items ++ carried_variable (slot_in v.entry) (position v.entry.slot captured.now)) }
{
    match position(v.slot, captured) {
        Some(slot) => {
            found.push(Slot { name: v.name, slot })?;
            Ok(())
        }
        None => Ok(()),
    }
}

// The functions inside a fun that captures these slots.
#[tactic(auto, using(crate::proofs::Referred::keeping))]
fn carried_functions<'a>(
    alloc: Global,
    bump: &'a Bump,
    captured: &[u64],
    functions: &[Function<'a>],
) -> Result<Vec<Function<'a>>, Memory>
    ensures { IfOk result (λ found. map function_in found.items ≡ carried_functions captured.now (map function_in functions.now)) }
{
    let mut found = Vec::new(alloc);
    for f in functions {
        carry_function(alloc, bump, captured, *f, &mut found)?;
    }
    Ok(found)
}

// Puts a function behind those that were found, where all that it captures is captured.
#[tactic(auto, using(crate::proofs::Referred::keeping))]
fn carry_function<'a>(
    alloc: Global,
    bump: &'a Bump,
    captured: &[u64],
    f: Function<'a>,
    found: &mut Vec<Function<'a>>,
) -> Result<(), Memory>
    ensures { OnOk result (map function_in found.new.items ≡ map function_in found.old.items ++ carried_by captured.now f.entry) }
{
    match positions(alloc, f.known.captured, captured)? {
        Some(slots) => {
            let known = Known {
                number: f.known.number,
                captured: bump.try_alloc_slice_copy(slots.as_slice())?,
            };
            found.push(Function {
                name: f.name,
                known,
            })?;
            Ok(())
        }
        None => Ok(()),
    }
}

/// A function by its name, with its number and these captured slots.
#[tactic(auto, using(core_ast::proofs::Levels::levels))]
pub fn defined_function<'a>(def: &'a FunDef, number: u64, captured: &'a [u64]) -> Function<'a>
    ensures { function_in result ≡ ((definition_of def.now).name, record { number = number; captured = captured.now }) }
{
    Function {
        name: &def.name,
        known: Known { number, captured },
    }
}

/// The number of the function behind this one of a `letrec`, whose number is n, and behind the funs in it. An error where it passes
/// 2^64 - 1.
pub fn next_number(n: u64, def: &FunDef) -> Result<u64, Memory>
    ensures { IfOk result (λ m. m ≡ n + 1 + funs (definition_of def.now).function.body) }
{
    add(add(n, 1)?, funs_in_definition(def)?)
}

// The functions of a `letrec` by their names, each with these captured slots, where n is the number of the first.
#[tactic(auto, using(crate::proofs::Numbered::numbered))]
fn numbered_functions<'a>(
    alloc: Global,
    n: u64,
    captured: &'a [u64],
    defs: &'a [FunDef],
) -> Result<Vec<Function<'a>>, Memory>
    ensures { IfOk result (λ found. map function_in found.items ≡ numbered_functions n captured.now (definitions (map definition_of defs.now))) }
{
    let mut found = Vec::new(alloc);
    let mut number = n;
    for def in defs {
        found.push(defined_function(def, number, captured))?;
        number = next_number(number, def)?;
    }
    Ok(found)
}

// The scope where the functions of a `letrec` are known too, each with these captured slots, where n is the number of the first.
#[tactic(auto, using(crate::proofs::Referred::keeping))]
fn knowing<'a>(
    alloc: Global,
    bump: &'a Bump,
    n: u64,
    captured: &'a [u64],
    defs: &'a [FunDef],
    s: Scope<'a>,
) -> Result<Scope<'a>, Memory>
    ensures { IfOk result (λ t. scope_in t ≡ knowing n captured.now (definitions (map definition_of defs.now)) (scope_in s.entry)) }
{
    let mut functions = numbered_functions(alloc, n, captured, defs)?;
    functions.extend_from_slice(s.functions)?;
    Ok(Scope {
        variables: s.variables,
        functions: bump.try_alloc_slice_copy(functions.as_slice())?,
    })
}

/// The scope of the body of a `letrec`, where n is the number of its first function. An error where there is no memory for it, or
/// where a count passes 2^64 - 1.
pub fn letrec_scope<'a>(
    alloc: Global,
    bump: &'a Bump,
    n: u64,
    defs: &'a [FunDef],
    s: Scope<'a>,
) -> Result<Scope<'a>, Memory>
    ensures { IfOk result (λ t. scope_in t ≡ letrec_scope n (definitions (map definition_of defs.now)) (scope_in s.entry)) }
{
    let captured = captured_by_group(alloc, s, defs)?;
    let captured = bump.try_alloc_slice_copy(captured.as_slice())?;
    knowing(alloc, bump, n, captured, defs, s)
}

/// The scope of the functions of a `letrec`, before their parameters, where n is the number of the first: each captures what the
/// group does. An error where there is no memory for it, or where a count passes 2^64 - 1.
pub fn group_scope<'a>(
    alloc: Global,
    bump: &'a Bump,
    n: u64,
    defs: &'a [FunDef],
    s: Scope<'a>,
) -> Result<Scope<'a>, Memory>
    ensures { IfOk result (λ t. scope_in t ≡ group_scope n (definitions (map definition_of defs.now)) (scope_in s.entry)) }
{
    let captured = captured_by_group(alloc, s, defs)?;
    let slots = first_slots(alloc, captured.len())?;
    let slots = bump.try_alloc_slice_copy(slots.as_slice())?;
    let inner = carried(alloc, bump, captured.as_slice(), s)?;
    knowing(alloc, bump, n, slots, defs, inner)
}

// The first slots, so many of them.
#[tactic(auto, using(crate::proofs::Numbered::slots))]
fn first_slots(alloc: Global, count: usize) -> Result<Vec<u64>, Memory>
    ensures { IfOk result (λ found. found.items ≡ slots_from 0 count) }
{
    let mut found = Vec::new(alloc);
    for slot in 0..count {
        found.push(slot as u64)?;
    }
    Ok(found)
}
