// Whether a tree is well formed.

ghost use Rattle.std.specs.Prelude.{◌≡◌, ◌∷◌, [], map};
ghost use Rattle.core_ast.specs.Trees.{pattern_of, patterns, expression_of, expressions, clause_of, clauses, function_of, definition_of, definitions, module_of};
ghost use Rattle.core_ast.specs.WellFormed.{is_list_pattern, well_formed_pattern, well_formed_patterns, is_list, well_formed, well_formed_expressions, well_formed_clauses, well_formed_definitions, well_formed_attributes, well_formed_module};

use crate::pattern::{PatNode, Pattern};
use crate::tree::{Clause, Expr, Fun, FunDef, Module, Node};
use hipe_base::limits::{GREATEST_INTEGER, LEAST_INTEGER};
use hipe_terms::{Atom, Constant, is_constant};

/// Whether a module is well formed, as every call that takes one wants it: its integers are in the range of the limits, no
/// tail of a list is a list with elements, and the values of its attributes are constants as the calls on constants want
/// them. It takes no memory.
#[tactic(auto, using(crate::proofs::Levels::levels))]
pub fn is_well_formed(m: &Module) -> bool
    ensures { result ≡ well_formed_module (module_of m.now) }
{
    well_formed_functions(m.defs.as_slice()) && well_formed_values(m.attributes.as_slice())
}

// The values of attributes.
fn well_formed_values(list: &[(Atom, Constant)]) -> bool
    ensures { result ≡ well_formed_attributes list.now }
{
    for attribute in list {
        if !is_constant(&attribute.1) {
            return false;
        }
    }
    true
}

#[tactic(auto, using(crate::proofs::Levels::levels))]
fn is_list(e: &Expr) -> bool
    ensures { result ≡ is_list (expression_of e.now) }
{
    matches!(&e.node, Node::List(_, _))
}

#[cycle(well_formed)]
#[tactic(auto, using(crate::proofs::Levels::levels))]
fn expression(e: &Expr) -> bool
    ensures { result ≡ well_formed (expression_of e.now) }
{
    match &e.node {
        Node::Int(n) => LEAST_INTEGER <= *n && *n <= GREATEST_INTEGER,
        Node::Atom(_) | Node::Nil | Node::Var(_) | Node::Name(_) => true,
        Node::Tuple(parts) => expressions(parts.as_slice()),
        Node::List(parts, tail) => expressions(parts.as_slice())
            && expression(tail.get())
            && !is_list(tail.get()),
        Node::Values(parts) => expressions(parts.as_slice()),
        Node::Let(_, values, body) => expression(values.get()) && expression(body.get()),
        Node::Case(values, list) => expression(values.get()) && clauses(list.as_slice()),
        Node::Lambda(fun) => function(fun),
        Node::Letrec(defs, body) => well_formed_functions(defs.as_slice())
            && expression(body.get()),
        Node::Apply(fun, args) => expression(fun.get()) && expressions(args.as_slice()),
        Node::Call(_, _, args) => expressions(args.as_slice()),
        Node::Primop(_, args) => expressions(args.as_slice()),
        Node::Try(part, _, body, _, handler) => {
            expression(part.get()) && expression(body.get()) && expression(handler.get())
        }
        Node::Do(first, second) => expression(first.get()) && expression(second.get()),
        Node::Catch(part) => expression(part.get()),
    }
}

#[cycle(well_formed)]
#[tactic(auto, using(crate::proofs::Levels::levels))]
fn expressions(list: &[Expr]) -> bool
    ensures { result ≡ well_formed_expressions (expressions (map expression_of list.now)) }
{
    for e in list {
        if !expression(e) {
            return false;
        }
    }
    true
}

#[cycle(well_formed)]
#[tactic(auto, using(crate::proofs::Levels::levels))]
fn clause(c: &Clause) -> bool
    ensures { result ≡ well_formed_clauses (clauses (clause_of c.now ∷ [])) }
{
    patterns(c.patterns.as_slice()) && expression(&c.guard) && expression(&c.body)
}

#[cycle(well_formed)]
#[tactic(auto, using(crate::proofs::Levels::levels))]
fn clauses(list: &[Clause]) -> bool
    ensures { result ≡ well_formed_clauses (clauses (map clause_of list.now)) }
{
    for c in list {
        if !clause(c) {
            return false;
        }
    }
    true
}

#[cycle(well_formed)]
#[tactic(auto, using(crate::proofs::Levels::levels))]
fn function(f: &Fun) -> bool
    ensures { result ≡ well_formed (function_of f.now).body }
{
    expression(f.body.get())
}

#[cycle(well_formed)]
#[tactic(auto, using(crate::proofs::Levels::levels))]
fn definition(def: &FunDef) -> bool
    ensures { result ≡ well_formed (definition_of def.now).function.body }
{
    function(&def.fun)
}

#[cycle(well_formed)]
#[tactic(auto, using(crate::proofs::Levels::levels))]
fn well_formed_functions(list: &[FunDef]) -> bool
    ensures { result ≡ well_formed_definitions (definitions (map definition_of list.now)) }
{
    for def in list {
        if !definition(def) {
            return false;
        }
    }
    true
}

#[tactic(auto, using(crate::proofs::Levels::pattern_levels))]
fn is_list_pattern(p: &Pattern) -> bool
    ensures { result ≡ is_list_pattern (pattern_of p.now) }
{
    matches!(&p.node, PatNode::List(_, _))
}

#[cycle(well_formed_pattern)]
#[tactic(auto, using(crate::proofs::Levels::pattern_levels))]
fn pattern(p: &Pattern) -> bool
    ensures { result ≡ well_formed_pattern (pattern_of p.now) }
{
    match &p.node {
        PatNode::Int(n) => LEAST_INTEGER <= *n && *n <= GREATEST_INTEGER,
        PatNode::Var(_) | PatNode::Atom(_) | PatNode::Nil => true,
        PatNode::Tuple(parts) => patterns(parts.as_slice()),
        PatNode::List(parts, tail) => patterns(parts.as_slice())
            && pattern(tail.get())
            && !is_list_pattern(tail.get()),
        PatNode::Alias(_, part) => pattern(part.get()),
    }
}

#[cycle(well_formed_pattern)]
#[tactic(auto, using(crate::proofs::Levels::pattern_levels))]
fn patterns(list: &[Pattern]) -> bool
    ensures { result ≡ well_formed_patterns (patterns (map pattern_of list.now)) }
{
    for p in list {
        if !pattern(p) {
            return false;
        }
    }
    true
}
