// The walk that counts: the rules that speak of values, parameters and arguments, and of how many functions there are.

ghost use Rattle.std.specs.Prelude.{◌≡◌, ◌∷◌, [], if◌then◌else◌, length, map};
ghost use Rattle.core_ast.specs.Trees.{expression_of, expressions, clause_of, clauses, definition_of, definitions, function_of};
ghost use Rattle.core_ast.specs.Places.{place_of};
ghost use Rattle.core_ast.specs.Degrees.{degree_of, degree_of_bodies, first_degree};
ghost use Rattle.core_lint.specs.Tallies.{tallied, tallied_each, tallied_clauses, tallied_definitions, tallied_function, tallied_exports, needed};

use crate::tally::{Tally, is_primop, is_raising_call, is_raising_primop};
use core_ast::{Clause, Expr, Fun, FunDef, FunName, Node, Place, Rule};

// The degree of an expression.
#[cycle(counting)]
#[tactic(auto, using(crate::proofs::Counts::counts))]
fn expression(e: &Expr, tally: &mut Tally) -> Option<u64>
    ensures degree { result ≡ degree_of (expression_of e.now) }
    ensures tally { tally.new ≡ tallied (expression_of e.now) tally.old }
{
    match &e.node {
        Node::Int(_) | Node::Atom(_) | Node::Nil | Node::Var(_) => Some(1),
        Node::Name(f) => {
            tally.limit(f.arity, e.at);
            Some(1)
        }
        Node::Tuple(parts) => {
            each(parts.as_slice(), tally);
            Some(1)
        }
        Node::List(parts, tail) => {
            each(parts.as_slice(), tally);
            single(tail.get(), tally);
            Some(1)
        }
        Node::Values(parts) => {
            each(parts.as_slice(), tally);
            Some(parts.len() as u64)
        }
        Node::Let(xs, values, body) => {
            several(values.get(), xs.len(), tally);
            expression(body.get(), tally)
        }
        Node::Case(values, list) => {
            let degree = expression(values.get(), tally);
            clauses(list.as_slice(), degree, values.get().at, tally)
        }
        Node::Lambda(fun) => {
            function(fun, tally);
            Some(1)
        }
        Node::Letrec(defs, body) => {
            definitions(defs.as_slice(), tally);
            expression(body.get(), tally)
        }
        Node::Apply(fun, args) => {
            single(fun.get(), tally);
            each(args.as_slice(), tally);
            tally.limit(args.len() as u64, e.at);
            Some(1)
        }
        Node::Call(of, name, args) => {
            each(args.as_slice(), tally);
            tally.limit(args.len() as u64, e.at);
            unless_raising(is_raising_call(of, name, args.len()))
        }
        Node::Primop(name, args) => {
            each(args.as_slice(), tally);
            tally.limit(args.len() as u64, e.at);
            tally.test(is_primop(name, args.len()), Rule::UnknownPrimop, e.at);
            unless_raising(is_raising_primop(name))
        }
        Node::Try(part, xs, body, ys, handler) => {
            several(part.get(), xs.len(), tally);
            let before = expression(body.get(), tally);
            let degree = expression(handler.get(), tally);
            tally.agree(before, degree, handler.get().at);
            tally.catch(e.at, ys.as_slice());
            first(before, degree)
        }
        Node::Do(first, second) => {
            expression(first.get(), tally);
            expression(second.get(), tally)
        }
        Node::Catch(part) => {
            single(part.get(), tally);
            Some(1)
        }
    }
}

// The degree of what only raises, where it does, and of one value.
fn unless_raising(raises: bool) -> Option<u64>
    ensures { result ≡ if raises then None else Some 1 }
{
    if raises { None } else { Some(1) }
}

// An expression at a place that needs this many values.
#[cycle(counting)]
#[tactic(auto, using(crate::proofs::Counts::counts))]
fn several(e: &Expr, count: usize, tally: &mut Tally)
    ensures { tally.new ≡ needed (degree_of (expression_of e.now)) count (place_of (expression_of e.now)) (tallied (expression_of e.now) tally.old) }
{
    let degree = expression(e, tally);
    tally.need(degree, count as u64, e.at);
}

// An expression at a place that needs one value.
#[cycle(counting)]
#[tactic(auto, using(crate::proofs::Counts::counts))]
fn single(e: &Expr, tally: &mut Tally)
    ensures { tally.new ≡ needed (degree_of (expression_of e.now)) 1 (place_of (expression_of e.now)) (tallied (expression_of e.now) tally.old) }
{
    let degree = expression(e, tally);
    tally.need(degree, 1, e.at);
}

// Expressions at places that need one value each.
#[cycle(counting)]
#[tactic(auto, using(crate::proofs::Counts::counts))]
fn each(list: &[Expr], tally: &mut Tally)
    ensures { tally.new ≡ tallied_each (expressions (map expression_of list.now)) tally.old }
{
    for e in list {
        single(e, tally);
    }
}

// The first of two degrees that isn't every degree.
fn first(before: Option<u64>, degree: Option<u64>) -> Option<u64>
    ensures { result ≡ first_degree before degree }
{
    match before {
        Some(count) => Some(count),
        None => degree,
    }
}

// A clause of a `case` whose argument has this degree and this place, where the bodies before it agree on a degree.
#[cycle(counting)]
#[tactic(auto, using(crate::proofs::Counts::counts))]
fn clause(
    c: &Clause,
    argument: Option<u64>,
    at: Place,
    before: Option<u64>,
    tally: &mut Tally,
) -> Option<u64>
    ensures degree { result ≡ first_degree before (degree_of (clause_of c.now).body) }
    ensures tally { tally.new ≡ tallied_clauses argument at before (clauses (clause_of c.now ∷ [])) tally.old }
{
    tally.need(argument, c.patterns.len() as u64, at);
    single(&c.guard, tally);
    let degree = expression(&c.body, tally);
    tally.agree(before, degree, c.body.at);
    first(before, degree)
}

// The clauses of a `case` whose argument has this degree and this place.
#[cycle(counting)]
#[tactic(auto, using(crate::proofs::Counts::counts))]
fn clauses(list: &[Clause], argument: Option<u64>, at: Place, tally: &mut Tally) -> Option<u64>
    ensures degree { result ≡ degree_of_bodies (clauses (map clause_of list.now)) }
    ensures tally { tally.new ≡ tallied_clauses argument at None (clauses (map clause_of list.now)) tally.old }
{
    let mut before = None;
    for c in list {
        before = clause(c, argument, at, before, tally);
    }
    before
}

// A function.
#[cycle(counting)]
#[tactic(auto, using(crate::proofs::Counts::counts))]
fn function(f: &Fun, tally: &mut Tally)
    ensures { tally.new ≡ tallied_function (function_of f.now) tally.old }
{
    tally.begin(f.at);
    tally.limit(f.params.len() as u64, f.at);
    single(f.body.get(), tally);
}

// A function with its name.
#[cycle(counting)]
#[tactic(auto, using(crate::proofs::Counts::counts))]
fn definition(def: &FunDef, tally: &mut Tally)
    ensures { tally.new ≡ tallied_definitions (definitions (definition_of def.now ∷ [])) tally.old }
{
    tally.limit(def.name.arity, def.at);
    let holds = def.fun.params.len() as u64 == def.name.arity;
    tally.test(holds, Rule::Degree, def.fun.at);
    function(&def.fun, tally);
}

/// These functions.
#[cycle(counting)]
#[tactic(auto, using(crate::proofs::Counts::counts))]
pub fn definitions(list: &[FunDef], tally: &mut Tally)
    ensures { tally.new ≡ tallied_definitions (definitions (map definition_of list.now)) tally.old }
{
    for def in list {
        definition(def, tally);
    }
}

/// The names of the functions that other modules can call.
pub fn exports(list: &[(FunName, Place)], tally: &mut Tally)
    ensures { tally.new ≡ tallied_exports list.now tally.old }
{
    for export in list {
        tally.limit(export.0.arity, export.1);
    }
}
