// What occurs free.

ghost use Rattle.std.specs.Prelude.{◌≡◌, ◌++◌, ◌∷◌, [], map, bytes_eq, IfOk, OnOk};
ghost use Rattle.std.specs.List.{list_any};
ghost use Rattle.core_ast.specs.Names.{is_named};
ghost use Rattle.core_ast.specs.Trees.{expression_of, expressions, clause_of, clauses, definition_of, definitions};
ghost use Rattle.core_meaning.specs.Scopes.{occurring, occurring_in_all, occurring_in_clauses, occurring_in_definitions, hiding, hiding_functions, slot_of, slot_if_any, known_of, slots_if_known, names};
ghost use Rattle.eval_procedures.specs.Shown.{names_in, names_defined, slot_in, function_in, scope_in, without, without_functions, occurring_in_group};

use crate::scope::{Function, Scope, Slot, is_named, names, names_bound_by, same_variable};
use core_ast::{Clause, Expr, FunDef, FunName, Node, Var, VariableName};
use hipe_base::Memory;
use std::alloc::Global;

/// Whether a variable has one of these names.
fn is_among(name: &VariableName, xs: &[&VariableName]) -> bool
    ensures { result ≡ list_any (λ x. bytes_eq x name.now) (names_in xs.now) }
{
    for x in xs {
        if same_variable(x, name) {
            return true;
        }
    }
    false
}

/// Whether a function has the name of one of these.
#[tactic(auto, using(crate::proofs::Referred::defining))]
fn is_defined(name: &FunName, defs: &[FunDef]) -> bool
    ensures { result ≡ list_any (λ f. is_named f name.now) (names_defined defs.now) }
{
    for def in defs {
        if is_named(&def.name, name) {
            return true;
        }
    }
    false
}

/// The variables in scope without those of these names.
#[tactic(auto, using(crate::proofs::Referred::keeping))]
fn without<'a>(
    alloc: Global,
    xs: &[&VariableName],
    variables: &[Slot<'a>],
) -> Result<Vec<Slot<'a>>, Memory>
    ensures { IfOk result (λ kept. map slot_in kept.items ≡ without (names_in xs.now) (map slot_in variables.now)) }
{
    let mut kept = Vec::new(alloc);
    for v in variables {
        keep_variable(xs, *v, &mut kept)?;
    }
    Ok(kept)
}

// Puts a variable behind those that are kept, unless it has one of these names.
#[tactic(auto, using(crate::proofs::Referred::keeping))]
fn keep_variable<'a>(
    xs: &[&VariableName],
    v: Slot<'a>,
    kept: &mut Vec<Slot<'a>>,
) -> Result<(), Memory>
    ensures { OnOk result (map slot_in kept.new.items ≡ map slot_in kept.old.items ++ without (names_in xs.now) (slot_in v.entry ∷ [])) }
{
    if is_among(v.name, xs) {
        Ok(())
    } else {
        kept.push(v)?;
        Ok(())
    }
}

/// The functions in scope without those of these names.
#[tactic(auto, using(crate::proofs::Referred::keeping))]
fn without_functions<'a>(
    alloc: Global,
    defs: &[FunDef],
    functions: &[Function<'a>],
) -> Result<Vec<Function<'a>>, Memory>
    ensures { IfOk result (λ kept. map function_in kept.items ≡ without_functions (names_defined defs.now) (map function_in functions.now)) }
{
    let mut kept = Vec::new(alloc);
    for f in functions {
        keep_function(defs, *f, &mut kept)?;
    }
    Ok(kept)
}

// Puts a function behind those that are kept, unless one of these has its name.
#[tactic(auto, using(crate::proofs::Referred::keeping))]
fn keep_function<'a>(
    defs: &[FunDef],
    f: Function<'a>,
    kept: &mut Vec<Function<'a>>,
) -> Result<(), Memory>
    ensures { OnOk result (map function_in kept.new.items ≡ map function_in kept.old.items ++ without_functions (names_defined defs.now) (function_in f.entry ∷ [])) }
{
    if is_defined(f.name, defs) {
        Ok(())
    } else {
        kept.push(f)?;
        Ok(())
    }
}

/// Puts the slots of the variables of the scope that occur free in an expression behind those that were found, in the order of
/// the text. The name of a function stands for all that the function captures. An error where there is no memory for them.
#[cycle(occurring)]
#[tactic(auto, using(crate::proofs::Referred::levels))]
pub fn occurring(alloc: Global, s: Scope<'_>, e: &Expr, found: &mut Vec<u64>) -> Result<(), Memory>
    ensures { OnOk result (found.new.items ≡ found.old.items ++ occurring (scope_in s.entry) (expression_of e.now)) }
{
    match &e.node {
        Node::Int(_) | Node::Atom(_) | Node::Nil => Ok(()),
        Node::Var(x) => variable(s, x, found),
        Node::Name(f) => function(s, f, found),
        Node::Tuple(parts) => in_all(alloc, s, parts.as_slice(), found),
        Node::List(parts, tail) => {
            in_all(alloc, s, parts.as_slice(), found)?;
            occurring(alloc, s, tail.get(), found)
        }
        Node::Values(parts) => in_all(alloc, s, parts.as_slice(), found),
        Node::Let(xs, values, body) => {
            occurring(alloc, s, values.get(), found)?;
            occurring_where_bound(alloc, s, xs.as_slice(), body.get(), found)
        }
        Node::Case(values, list) => {
            occurring(alloc, s, values.get(), found)?;
            in_clauses(alloc, s, list.as_slice(), found)
        }
        Node::Lambda(fun) => occurring_where_bound(
            alloc,
            s,
            fun.params.as_slice(),
            fun.body.get(),
            found,
        ),
        Node::Letrec(defs, body) => {
            occurring_in_group(alloc, s, defs.as_slice(), found)?;
            in_letrec_body(alloc, s, body.get(), defs.as_slice(), found)
        }
        Node::Apply(fun, args) => {
            occurring(alloc, s, fun.get(), found)?;
            in_all(alloc, s, args.as_slice(), found)
        }
        Node::Call(_, _, args) => in_all(alloc, s, args.as_slice(), found),
        Node::Primop(_, args) => in_all(alloc, s, args.as_slice(), found),
        Node::Try(part, xs, body, ys, handler) => {
            occurring(alloc, s, part.get(), found)?;
            occurring_where_bound(alloc, s, xs.as_slice(), body.get(), found)?;
            occurring_where_bound(alloc, s, ys.as_slice(), handler.get(), found)
        }
        Node::Do(first, second) => {
            occurring(alloc, s, first.get(), found)?;
            occurring(alloc, s, second.get(), found)
        }
        Node::Catch(part) => occurring(alloc, s, part.get(), found),
    }
}

// The slot of a variable.
#[tactic(auto, using(crate::proofs::Referred::levels))]
fn variable(s: Scope<'_>, x: &VariableName, found: &mut Vec<u64>) -> Result<(), Memory>
    ensures { OnOk result (found.new.items ≡ found.old.items ++ slot_if_any (slot_of x.now (scope_in s.entry))) }
{
    match s.slot_of(x) {
        Some(slot) => {
            found.push(slot)?;
            Ok(())
        }
        None => Ok(()),
    }
}

// The slots that a function's name stands for.
#[tactic(auto, using(crate::proofs::Referred::levels))]
fn function(s: Scope<'_>, f: &FunName, found: &mut Vec<u64>) -> Result<(), Memory>
    ensures { OnOk result (found.new.items ≡ found.old.items ++ slots_if_known (known_of f.now (scope_in s.entry))) }
{
    match s.known_of(f) {
        Some(known) => {
            found.extend_from_slice(known.captured)?;
            Ok(())
        }
        None => Ok(()),
    }
}

// The free ones in the body of a `letrec`.
#[cycle(occurring)]
#[tactic(auto, using(crate::proofs::Referred::levels))]
fn in_letrec_body(
    alloc: Global,
    s: Scope<'_>,
    body: &Expr,
    defs: &[FunDef],
    found: &mut Vec<u64>,
) -> Result<(), Memory>
    ensures { OnOk result (found.new.items ≡ found.old.items ++ occurring (hiding_functions (names_defined defs.now) (scope_in s.entry)) (expression_of body.now)) }
{
    let kept = without_functions(alloc, defs, s.functions)?;
    let inner = Scope {
        variables: s.variables,
        functions: kept.as_slice(),
    };
    occurring(alloc, inner, body, found)
}

// The free ones in each of these.
#[cycle(occurring)]
#[tactic(auto, using(crate::proofs::Referred::levels))]
fn in_all(alloc: Global, s: Scope<'_>, list: &[Expr], found: &mut Vec<u64>) -> Result<(), Memory>
    ensures { OnOk result (found.new.items ≡ found.old.items ++ occurring_in_all (scope_in s.entry) (expressions (map expression_of list.now))) }
{
    for e in list {
        occurring(alloc, s, e, found)?;
    }
    Ok(())
}

/// Puts the slots of the variables of the scope that occur free in a body behind those that were found, where the body's own
/// variables hide those of the scope. An error where there is no memory for them.
#[cycle(occurring)]
#[tactic(auto, using(crate::proofs::Referred::levels))]
pub fn occurring_where_bound(
    alloc: Global,
    s: Scope<'_>,
    xs: &[Var],
    body: &Expr,
    found: &mut Vec<u64>,
) -> Result<(), Memory>
    ensures { OnOk result (found.new.items ≡ found.old.items ++ occurring (hiding (names xs.now) (scope_in s.entry)) (expression_of body.now)) }
{
    let hidden = names(alloc, xs)?;
    let kept = without(alloc, hidden.as_slice(), s.variables)?;
    let inner = Scope {
        variables: kept.as_slice(),
        functions: s.functions,
    };
    occurring(alloc, inner, body, found)
}

// The free ones in each of these clauses.
#[cycle(occurring)]
#[tactic(auto, using(crate::proofs::Referred::levels))]
fn in_clauses(
    alloc: Global,
    s: Scope<'_>,
    list: &[Clause],
    found: &mut Vec<u64>,
) -> Result<(), Memory>
    ensures { OnOk result (found.new.items ≡ found.old.items ++ occurring_in_clauses (scope_in s.entry) (clauses (map clause_of list.now))) }
{
    for c in list {
        in_clause(alloc, s, c, found)?;
    }
    Ok(())
}

// The free ones in a clause.
#[cycle(occurring)]
#[tactic(auto, using(crate::proofs::Referred::levels))]
fn in_clause(alloc: Global, s: Scope<'_>, c: &Clause, found: &mut Vec<u64>) -> Result<(), Memory>
    ensures { OnOk result (found.new.items ≡ found.old.items ++ occurring_in_clauses (scope_in s.entry) (clauses (clause_of c.now ∷ []))) }
{
    let hidden = names_bound_by(alloc, c.patterns.as_slice())?;
    let kept = without(alloc, hidden.as_slice(), s.variables)?;
    let inner = Scope {
        variables: kept.as_slice(),
        functions: s.functions,
    };
    occurring(alloc, inner, &c.guard, found)?;
    occurring(alloc, inner, &c.body, found)?;
    Ok(())
}

/// Puts the slots of the variables of the scope that occur free in the functions of a `letrec` behind those that were found, where
/// the names of these functions hide those of the scope. An error where there is no memory for them.
#[cycle(occurring)]
#[tactic(auto, using(crate::proofs::Referred::levels))]
pub fn occurring_in_group(
    alloc: Global,
    s: Scope<'_>,
    defs: &[FunDef],
    found: &mut Vec<u64>,
) -> Result<(), Memory>
    ensures { OnOk result (found.new.items ≡ found.old.items ++ occurring_in_group (scope_in s.entry) defs.now) }
{
    let kept = without_functions(alloc, defs, s.functions)?;
    let inner = Scope {
        variables: s.variables,
        functions: kept.as_slice(),
    };
    in_definitions(alloc, inner, defs, found)
}

// The free ones in each of these functions.
#[cycle(occurring)]
#[tactic(auto, using(crate::proofs::Referred::levels))]
fn in_definitions(
    alloc: Global,
    s: Scope<'_>,
    defs: &[FunDef],
    found: &mut Vec<u64>,
) -> Result<(), Memory>
    ensures { OnOk result (found.new.items ≡ found.old.items ++ occurring_in_definitions (scope_in s.entry) (definitions (map definition_of defs.now))) }
{
    for def in defs {
        in_definition(alloc, s, def, found)?;
    }
    Ok(())
}

// The free ones in a function.
#[cycle(occurring)]
#[tactic(auto, using(crate::proofs::Referred::levels))]
fn in_definition(
    alloc: Global,
    s: Scope<'_>,
    def: &FunDef,
    found: &mut Vec<u64>,
) -> Result<(), Memory>
    ensures { OnOk result (found.new.items ≡ found.old.items ++ occurring_in_definitions (scope_in s.entry) (definitions (definition_of def.now ∷ []))) }
{
    occurring_where_bound(
        alloc,
        s,
        def.fun.params.as_slice(),
        def.fun.body.get(),
        found,
    )
}
