// The nodes of a function, counted down from a room, so that no count can grow past its type.

ghost use Rattle.std.specs.Prelude.{◌≡◌, ◌-◌, ◌<◌, ◌^◌, map, [], ◌∷◌};
ghost use Rattle.core_ast.specs.Trees.{pattern_of, patterns, expression_of, expressions, clause_of, clauses, function_of, definition_of, definitions};
ghost use Rattle.core_ast.specs.Nodes.{nodes_of, pattern_nodes, patterns_nodes, expression_nodes, expressions_nodes, clauses_nodes, definitions_nodes};

use crate::pattern::{PatNode, Pattern};
use crate::tree::{Clause, Expr, Fun, FunDef, Node};

/// How many nodes a function has: the expressions, patterns, clauses and the variables bound by `let` and `try` in its
/// body, those of the funs in it too. The module and the name of a `call` or `primop` are not counted. It takes no
/// memory.
pub fn nodes(f: &Fun) -> u32
    requires { nodes_of (function_of f.now) < 2 ^ 32 }
    ensures { result ≡ nodes_of (function_of f.now) }
{
    (u64::MAX - function(f, u64::MAX)) as u32
}

/// What is left of a room once an expression has taken a unit for each of its nodes, itself among them: 0 where it has no
/// fewer nodes than there is room.
#[cycle(count)]
#[tactic(auto, using(crate::proofs::Levels::levels))]
pub fn expression(e: &Expr, room: u64) -> u64
    ensures { result ≡ room - expression_nodes (expression_of e.now) }
{
    let left = room.saturating_sub(1);
    match &e.node {
        Node::Int(_) | Node::Atom(_) | Node::Nil | Node::Var(_) | Node::Name(_) => left,
        Node::Tuple(parts) => expressions(parts.as_slice(), left),
        Node::List(parts, tail) => expression(tail.get(), expressions(parts.as_slice(), left)),
        Node::Values(parts) => expressions(parts.as_slice(), left),
        Node::Let(variables, values, body) => {
            let inside = expression(values.get(), without(variables.len(), left));
            expression(body.get(), inside)
        }
        Node::Case(values, list) => clauses(list.as_slice(), expression(values.get(), left)),
        Node::Lambda(fun) => function(fun, left),
        Node::Letrec(defs, body) => expression(body.get(), definitions(defs.as_slice(), left)),
        Node::Apply(fun, args) => expressions(args.as_slice(), expression(fun.get(), left)),
        Node::Call(_, _, args) => expressions(args.as_slice(), left),
        Node::Primop(_, args) => expressions(args.as_slice(), left),
        Node::Try(part, values, body, causes, handler) => {
            let behind_part = expression(part.get(), left);
            let behind_body = expression(body.get(), without(values.len(), behind_part));
            expression(handler.get(), without(causes.len(), behind_body))
        }
        Node::Do(first, second) => expression(second.get(), expression(first.get(), left)),
        Node::Catch(part) => expression(part.get(), left),
    }
}

// The room without this many units.
fn without(count: usize, room: u64) -> u64
    ensures { result ≡ room - count }
{
    room.saturating_sub(count as u64)
}

/// What these expressions together leave of a room.
#[cycle(count)]
#[tactic(auto, using(crate::proofs::Levels::levels))]
pub fn expressions(list: &[Expr], room: u64) -> u64
    ensures { result ≡ room - expressions_nodes (expressions (map expression_of list.now)) }
{
    let mut left = room;
    for e in list {
        left = expression(e, left);
    }
    left
}

/// What a clause leaves of a room, itself counted.
#[cycle(count)]
#[tactic(auto, using(crate::proofs::Levels::levels))]
pub fn clause(c: &Clause, room: u64) -> u64
    ensures { result ≡ room - clauses_nodes (clauses (clause_of c.now ∷ [])) }
{
    let inside = patterns(c.patterns.as_slice(), room.saturating_sub(1));
    expression(&c.body, expression(&c.guard, inside))
}

/// What these clauses together leave of a room.
#[cycle(count)]
#[tactic(auto, using(crate::proofs::Levels::levels))]
pub fn clauses(list: &[Clause], room: u64) -> u64
    ensures { result ≡ room - clauses_nodes (clauses (map clause_of list.now)) }
{
    let mut left = room;
    for c in list {
        left = clause(c, left);
    }
    left
}

/// What a function leaves of a room: it takes a unit for each node of its body.
#[cycle(count)]
#[tactic(auto, using(crate::proofs::Levels::levels))]
pub fn function(f: &Fun, room: u64) -> u64
    ensures { result ≡ room - nodes_of (function_of f.now) }
{
    expression(f.body.get(), room)
}

/// What a function with a name leaves of a room.
#[cycle(count)]
#[tactic(auto, using(crate::proofs::Levels::levels))]
pub fn definition(def: &FunDef, room: u64) -> u64
    ensures { result ≡ room - nodes_of (definition_of def.now).function }
{
    function(&def.fun, room)
}

/// What these functions together leave of a room.
#[cycle(count)]
#[tactic(auto, using(crate::proofs::Levels::levels))]
pub fn definitions(list: &[FunDef], room: u64) -> u64
    ensures { result ≡ room - definitions_nodes (definitions (map definition_of list.now)) }
{
    let mut left = room;
    for def in list {
        left = definition(def, left);
    }
    left
}

/// What a pattern leaves of a room, itself counted.
#[cycle(pattern)]
#[tactic(auto, using(crate::proofs::Levels::pattern_levels))]
pub fn pattern(p: &Pattern, room: u64) -> u64
    ensures { result ≡ room - pattern_nodes (pattern_of p.now) }
{
    let left = room.saturating_sub(1);
    match &p.node {
        PatNode::Var(_) | PatNode::Int(_) | PatNode::Atom(_) | PatNode::Nil => left,
        PatNode::Tuple(parts) => patterns(parts.as_slice(), left),
        PatNode::List(parts, tail) => pattern(tail.get(), patterns(parts.as_slice(), left)),
        PatNode::Alias(_, part) => pattern(part.get(), left),
    }
}

/// What these patterns together leave of a room.
#[cycle(pattern)]
#[tactic(auto, using(crate::proofs::Levels::pattern_levels))]
pub fn patterns(list: &[Pattern], room: u64) -> u64
    ensures { result ≡ room - patterns_nodes (patterns (map pattern_of list.now)) }
{
    let mut left = room;
    for p in list {
        left = pattern(p, left);
    }
    left
}
