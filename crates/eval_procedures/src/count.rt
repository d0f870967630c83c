// Sums that fit, and how many funs stand in an expression.

ghost use Rattle.std.specs.Prelude.{◌≡◌, ◌+◌, ◌∷◌, [], map, IfOk};
ghost use Rattle.core_ast.specs.Trees.{expression_of, expressions, clause_of, clauses, definition_of, definitions};
ghost use Rattle.core_meaning.specs.Scopes.{funs, funs_in_all, funs_in_clauses, funs_in_definitions};

use core_ast::{Clause, Expr, FunDef, Node};
use hipe_base::Memory;

/// The sum of two counts. An error where it passes 2^64 - 1, which no memory holds.
pub fn add(a: u64, b: u64) -> Result<u64, Memory>
    ensures { IfOk result (λ n. n ≡ a + b) }
{
    match a.checked_add(b) {
        Some(n) => Ok(n),
        None => Err(Memory),
    }
}

/// How many funs stand in an expression, with the functions of each `letrec`. An error where the count passes 2^64 - 1.
#[cycle(funs)]
#[tactic(auto, using(core_ast::proofs::Levels::levels))]
pub fn funs(e: &Expr) -> Result<u64, Memory>
    ensures { IfOk result (λ n. n ≡ funs (expression_of e.now)) }
{
    match &e.node {
        Node::Int(_) | Node::Atom(_) | Node::Nil | Node::Var(_) | Node::Name(_) => Ok(0),
        Node::Tuple(parts) => funs_in_all(parts.as_slice()),
        Node::List(parts, tail) => add(funs_in_all(parts.as_slice())?, funs(tail.get())?),
        Node::Values(parts) => funs_in_all(parts.as_slice()),
        Node::Let(_, values, body) => add(funs(values.get())?, funs(body.get())?),
        Node::Case(values, list) => add(funs(values.get())?, funs_in_clauses(list.as_slice())?),
        Node::Lambda(fun) => add(1, funs(fun.body.get())?),
        Node::Letrec(defs, body) => add(funs_in_definitions(defs.as_slice())?, funs(body.get())?),
        Node::Apply(fun, args) => add(funs(fun.get())?, funs_in_all(args.as_slice())?),
        Node::Call(_, _, args) => funs_in_all(args.as_slice()),
        Node::Primop(_, args) => funs_in_all(args.as_slice()),
        Node::Try(part, _, body, _, handler) => {
            let inner = add(funs(part.get())?, funs(body.get())?)?;
            add(inner, funs(handler.get())?)
        }
        Node::Do(first, second) => add(funs(first.get())?, funs(second.get())?),
        Node::Catch(part) => funs(part.get()),
    }
}

/// How many funs stand in these expressions. An error where the count passes 2^64 - 1.
#[cycle(funs)]
#[tactic(auto, using(core_ast::proofs::Levels::levels))]
pub fn funs_in_all(list: &[Expr]) -> Result<u64, Memory>
    ensures { IfOk result (λ n. n ≡ funs_in_all (expressions (map expression_of list.now))) }
{
    let mut count = 0;
    for e in list {
        count = add(count, funs(e)?)?;
    }
    Ok(count)
}

// How many funs stand in these clauses.
#[cycle(funs)]
#[tactic(auto, using(core_ast::proofs::Levels::levels))]
fn funs_in_clauses(list: &[Clause]) -> Result<u64, Memory>
    ensures { IfOk result (λ n. n ≡ funs_in_clauses (clauses (map clause_of list.now))) }
{
    let mut count = 0;
    for c in list {
        count = add(count, funs_in_clause(c)?)?;
    }
    Ok(count)
}

/// How many funs stand in a clause. An error where the count passes 2^64 - 1.
#[cycle(funs)]
#[tactic(auto, using(core_ast::proofs::Levels::levels))]
pub fn funs_in_clause(c: &Clause) -> Result<u64, Memory>
    ensures { IfOk result (λ n. n ≡ funs (clause_of c.now).guard + funs (clause_of c.now).body) }
{
    add(funs(&c.guard)?, funs(&c.body)?)
}

/// How many functions of a `letrec` these are, with the funs in them. An error where the count passes 2^64 - 1.
#[cycle(funs)]
#[tactic(auto, using(core_ast::proofs::Levels::levels))]
pub fn funs_in_definitions(list: &[FunDef]) -> Result<u64, Memory>
    ensures { IfOk result (λ n. n ≡ funs_in_definitions (definitions (map definition_of list.now))) }
{
    let mut count = 0;
    for def in list {
        count = add(add(count, 1)?, funs_in_definition(def)?)?;
    }
    Ok(count)
}

/// How many funs stand in the body of a function. An error where the count passes 2^64 - 1.
#[cycle(funs)]
#[tactic(auto, using(core_ast::proofs::Levels::levels))]
pub fn funs_in_definition(def: &FunDef) -> Result<u64, Memory>
    ensures { IfOk result (λ n. n ≡ funs (definition_of def.now).function.body) }
{
    funs(def.fun.body.get())
}
