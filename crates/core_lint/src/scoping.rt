// The walk through the scopes: the rules that speak of names.

ghost use Rattle.std.specs.Prelude.{◌≡◌, ◌∷◌, [], IfOk, OnOk, map};
ghost use Rattle.core_ast.specs.Trees.{expression_of, expressions, clause_of, clauses, definition_of, definitions, function_of, module_of};
ghost use Rattle.core_lint.specs.Entries.{entry_of, variable_entries};
ghost use Rattle.core_lint.specs.Walks.{visited, visited_all, visited_clauses, visited_definitions, visited_function, visited_exports, visited_module, within, entered_functions, bound};

use crate::binding::{functions, pattern_variables, variables};
use crate::name::Bound;
use crate::walk::Walk;
use core_ast::{Clause, Expr, Fun, FunDef, FunName, Module, Node, Place, Rule, Var};
use hipe_base::Memory;
use std::alloc::Global;

// An expression.
#[cycle(scoping)]
#[tactic(auto, using(core_ast::proofs::Levels::levels))]
fn expression<'a>(alloc: Global, e: &'a Expr, walk: &mut Walk<'a>) -> Result<(), Memory>
    ensures { OnOk result (walk.new ≡ visited (expression_of e.now) walk.old) }
{
    match &e.node {
        Node::Int(_) | Node::Atom(_) | Node::Nil => Ok(()),
        Node::Var(x) => {
            walk.use_variable(x, e.at);
            Ok(())
        }
        Node::Name(f) => {
            walk.use_function(Rule::UnboundFunction, f, e.at);
            Ok(())
        }
        Node::Tuple(parts) | Node::Values(parts) => expressions(alloc, parts.as_slice(), walk),
        Node::List(parts, tail) => {
            expressions(alloc, parts.as_slice(), walk)?;
            expression(alloc, tail.get(), walk)
        }
        Node::Let(xs, values, body) => {
            let list = bind(alloc, xs.as_slice(), walk)?;
            expression(alloc, values.get(), walk)?;
            within(alloc, list.as_slice(), body.get(), walk)
        }
        Node::Case(values, list) => {
            expression(alloc, values.get(), walk)?;
            clauses(alloc, list.as_slice(), walk)
        }
        Node::Lambda(fun) => function(alloc, fun, walk),
        Node::Letrec(defs, body) => {
            let list = functions(alloc, defs.as_slice())?;
            group(alloc, list.as_slice(), walk)?;
            definitions(alloc, defs.as_slice(), walk)?;
            expression(alloc, body.get(), walk)?;
            walk.leave_functions(list.as_slice());
            Ok(())
        }
        Node::Apply(fun, args) => {
            expression(alloc, fun.get(), walk)?;
            expressions(alloc, args.as_slice(), walk)
        }
        Node::Call(_, _, args) | Node::Primop(_, args) => expressions(alloc, args.as_slice(), walk),
        Node::Try(part, xs, body, ys, handler) => {
            let returned = bind(alloc, xs.as_slice(), walk)?;
            let caught = bind(alloc, ys.as_slice(), walk)?;
            expression(alloc, part.get(), walk)?;
            within(alloc, returned.as_slice(), body.get(), walk)?;
            within(alloc, caught.as_slice(), handler.get(), walk)
        }
        Node::Do(first, second) => {
            expression(alloc, first.get(), walk)?;
            expression(alloc, second.get(), walk)
        }
        Node::Catch(part) => expression(alloc, part.get(), walk),
    }
}

// These expressions.
#[cycle(scoping)]
#[tactic(auto, using(core_ast::proofs::Levels::levels))]
fn expressions<'a>(alloc: Global, list: &'a [Expr], walk: &mut Walk<'a>) -> Result<(), Memory>
    ensures { OnOk result (walk.new ≡ visited_all (expressions (map expression_of list.now)) walk.old) }
{
    for e in list {
        expression(alloc, e, walk)?;
    }
    Ok(())
}

// These variables are bound together. It answers their names.
fn bind<'a>(alloc: Global, xs: &'a [Var], walk: &mut Walk<'a>) -> Result<Vec<Bound<'a>>, Memory>
    ensures bound { OnOk result (walk.new ≡ bound Rule.DuplicateVariable (variable_entries xs.now) walk.old) }
    ensures names { IfOk result (λ list. map entry_of list.items ≡ variable_entries xs.now) }
{
    let list = variables(alloc, xs)?;
    walk.bind(alloc, Rule::DuplicateVariable, list.as_slice())?;
    Ok(list)
}

// An expression in which these names of variables are in scope.
#[cycle(scoping)]
#[tactic(auto, using(core_ast::proofs::Levels::levels))]
fn within<'a>(
    alloc: Global,
    list: &[Bound<'a>],
    body: &'a Expr,
    walk: &mut Walk<'a>,
) -> Result<(), Memory>
    ensures { OnOk result (walk.new ≡ within (map entry_of list.now) (visited (expression_of body.now)) walk.old) }
{
    walk.enter_variables(list)?;
    expression(alloc, body, walk)?;
    walk.leave_variables(list);
    Ok(())
}

// A function.
#[cycle(scoping)]
#[tactic(auto, using(core_ast::proofs::Levels::levels))]
fn function<'a>(alloc: Global, f: &'a Fun, walk: &mut Walk<'a>) -> Result<(), Memory>
    ensures { OnOk result (walk.new ≡ visited_function (function_of f.now) walk.old) }
{
    let list = bind(alloc, f.params.as_slice(), walk)?;
    within(alloc, list.as_slice(), f.body.get(), walk)
}

// The functions of a `letrec` are in scope from here on.
fn group<'a>(alloc: Global, list: &[Bound<'a>], walk: &mut Walk<'a>) -> Result<(), Memory>
    ensures { OnOk result (walk.new ≡ entered_functions (map entry_of list.now) (bound Rule.DuplicateFunction (map entry_of list.now) walk.old)) }
{
    walk.bind(alloc, Rule::DuplicateFunction, list)?;
    walk.enter_functions(list)
}

// A clause.
#[cycle(scoping)]
#[tactic(auto, using(core_ast::proofs::Levels::levels))]
fn clause<'a>(alloc: Global, c: &'a Clause, walk: &mut Walk<'a>) -> Result<(), Memory>
    ensures { OnOk result (walk.new ≡ visited_clauses (clauses (clause_of c.now ∷ [])) walk.old) }
{
    let list = pattern_variables(alloc, c.patterns.as_slice())?;
    walk.bind(alloc, Rule::DuplicateVariable, list.as_slice())?;
    walk.enter_variables(list.as_slice())?;
    expression(alloc, &c.guard, walk)?;
    expression(alloc, &c.body, walk)?;
    walk.leave_variables(list.as_slice());
    Ok(())
}

// These clauses.
#[cycle(scoping)]
#[tactic(auto, using(core_ast::proofs::Levels::levels))]
fn clauses<'a>(alloc: Global, list: &'a [Clause], walk: &mut Walk<'a>) -> Result<(), Memory>
    ensures { OnOk result (walk.new ≡ visited_clauses (clauses (map clause_of list.now)) walk.old) }
{
    for c in list {
        clause(alloc, c, walk)?;
    }
    Ok(())
}

// A function with its name, which is in scope already.
#[cycle(scoping)]
#[tactic(auto, using(core_ast::proofs::Levels::levels))]
fn definition<'a>(alloc: Global, def: &'a FunDef, walk: &mut Walk<'a>) -> Result<(), Memory>
    ensures { OnOk result (walk.new ≡ visited_definitions (definitions (definition_of def.now ∷ [])) walk.old) }
{
    function(alloc, &def.fun, walk)
}

// These functions, whose names are in scope already.
#[cycle(scoping)]
#[tactic(auto, using(core_ast::proofs::Levels::levels))]
fn definitions<'a>(alloc: Global, list: &'a [FunDef], walk: &mut Walk<'a>) -> Result<(), Memory>
    ensures { OnOk result (walk.new ≡ visited_definitions (definitions (map definition_of list.now)) walk.old) }
{
    for def in list {
        definition(alloc, def, walk)?;
    }
    Ok(())
}

// The names of the functions that other modules can call.
fn exports<'a>(list: &'a [(FunName, Place)], walk: &mut Walk<'a>)
    ensures { walk.new ≡ visited_exports list.now walk.old }
{
    for export in list {
        walk.use_function(Rule::ExportUndefined, &export.0, export.1);
    }
}

/// The names of a module.
pub fn module<'a>(alloc: Global, m: &'a Module, walk: &mut Walk<'a>) -> Result<(), Memory>
    ensures { OnOk result (walk.new ≡ visited_module (module_of m.now) walk.old) }
{
    let list = functions(alloc, m.defs.as_slice())?;
    walk.enter_functions(list.as_slice())?;
    exports(m.exports.as_slice(), walk);
    walk.bind(alloc, Rule::DuplicateFunction, list.as_slice())?;
    definitions(alloc, m.defs.as_slice(), walk)?;
    walk.leave_functions(list.as_slice());
    Ok(())
}
