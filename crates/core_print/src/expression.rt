// The text of expressions, clauses and functions. Each of these appends to what was printed before; the level is that of
// the line on which the text begins.

ghost use Rattle.std.specs.Prelude.{◌≡◌, ◌∷◌, [], map, string_bytes, OnOk};
ghost use Rattle.core_ast.specs.Trees.{expression_of, expressions, clause_of, clauses, function_of, definition_of, definitions};
ghost use Rattle.core_print.specs.Printed.{Piece, followed_by, deeper, opened, tail_pieces, spaced_pieces, block_pieces, next_pieces, let_pieces, in_pieces, of_pieces, function_pieces, call_pieces, primop_pieces, branch_pieces, is_nil, pieces, each, clauses_pieces, definitions_pieces};

use crate::pattern::{binders, patterns, variables};
use crate::piece::{
    arrow, atom, comma, deeper, equals, function_name, integer, keyword, line, nil, sign, space,
    variable,
};
use core_ast::{Clause, Expr, Fun, FunDef, Node, Var};
use hipe_base::Memory;
use hipe_terms::Atom;
use std::alloc::Global;

#[cycle(expression)]
#[tactic(auto, using(crate::proofs::Printing::prints))]
fn expression(alloc: Global, out: &mut String, level: u8, e: &Expr) -> Result<(), Memory>
    ensures { OnOk result (string_bytes out.new ≡ followed_by (pieces level (expression_of e.now)) (string_bytes out.old)) }
{
    match &e.node {
        Node::Int(n) => integer(alloc, out, *n),
        Node::Atom(a) => atom(alloc, out, a),
        Node::Nil => nil(out),
        Node::Var(x) => variable(out, x),
        Node::Name(f) => function_name(alloc, out, f),
        Node::Tuple(parts) => {
            expressions(alloc, out, level, "{", parts.as_slice())?;
            sign(out, "}")
        }
        Node::List(parts, end) => {
            expressions(alloc, out, level, "[", parts.as_slice())?;
            tail(alloc, out, level, end.get())
        }
        Node::Values(parts) => {
            expressions(alloc, out, level, "<", parts.as_slice())?;
            sign(out, ">")
        }
        Node::Let(xs, values, body) => {
            binding(alloc, out, level, xs.as_slice(), values.get())?;
            in_body(alloc, out, level, body.get())
        }
        Node::Case(values, list) => {
            spaced(alloc, out, level, "case", values.get())?;
            of_clauses(alloc, out, level, list.as_slice())
        }
        Node::Lambda(f) => function(alloc, out, level, f),
        Node::Letrec(defs, body) => {
            keyword(out, "letrec")?;
            definitions(alloc, out, deeper(level), defs.as_slice())?;
            in_body(alloc, out, level, body.get())
        }
        Node::Apply(f, args) => {
            spaced(alloc, out, level, "apply", f.get())?;
            expressions(alloc, out, level, "(", args.as_slice())?;
            sign(out, ")")
        }
        Node::Call(of, f, args) => call(alloc, out, level, of, f, args.as_slice()),
        Node::Primop(f, args) => primop(alloc, out, level, f, args.as_slice()),
        Node::Try(part, xs, body, causes, handler) => {
            block(alloc, out, level, "try", part.get())?;
            branch(alloc, out, level, "of", xs.as_slice(), body.get())?;
            branch(alloc, out, level, "catch", causes.as_slice(), handler.get())
        }
        Node::Do(first, second) => {
            block(alloc, out, level, "do", first.get())?;
            next(alloc, out, level, second.get())
        }
        Node::Catch(part) => spaced(alloc, out, level, "catch", part.get()),
    }
}

// What opens some expressions, and the expressions with commas between them.
#[cycle(expression)]
#[tactic(auto, using(crate::proofs::Printing::prints))]
fn expressions(
    alloc: Global,
    out: &mut String,
    level: u8,
    opening: &str,
    list: &[Expr],
) -> Result<(), Memory>
    ensures { OnOk result (string_bytes out.new ≡ followed_by (opened opening.now (each level (expressions (map expression_of list.now)))) (string_bytes out.old)) }
{
    sign(out, opening)?;
    for (i, e) in list.iter().enumerate() {
        comma(out, i)?;
        expression(alloc, out, level, e)?;
    }
    Ok(())
}

// What stands behind the elements of a list with this tail.
#[cycle(expression)]
#[tactic(auto, using(crate::proofs::Printing::prints))]
fn tail(alloc: Global, out: &mut String, level: u8, e: &Expr) -> Result<(), Memory>
    ensures { OnOk result (string_bytes out.new ≡ followed_by (tail_pieces (is_nil (expression_of e.now)) (pieces level (expression_of e.now))) (string_bytes out.old)) }
{
    if is_nil(e) {
        return sign(out, "]");
    }
    sign(out, "|")?;
    expression(alloc, out, level, e)?;
    sign(out, "]")
}

#[tactic(auto, using(crate::proofs::Printing::prints))]
fn is_nil(e: &Expr) -> bool
    ensures { result ≡ is_nil (expression_of e.now) }
{
    matches!(&e.node, Node::Nil)
}

// A keyword and an expression on one line.
#[cycle(expression)]
#[tactic(auto, using(crate::proofs::Printing::prints))]
fn spaced(alloc: Global, out: &mut String, level: u8, first: &str, e: &Expr) -> Result<(), Memory>
    ensures { OnOk result (string_bytes out.new ≡ followed_by (spaced_pieces first.now (pieces level (expression_of e.now))) (string_bytes out.old)) }
{
    keyword(out, first)?;
    space(out)?;
    expression(alloc, out, level, e)
}

// A keyword, and an expression on a line of its own.
#[cycle(expression)]
#[tactic(auto, using(crate::proofs::Printing::prints))]
fn block(alloc: Global, out: &mut String, level: u8, first: &str, e: &Expr) -> Result<(), Memory>
    ensures { OnOk result (string_bytes out.new ≡ followed_by (block_pieces level first.now (pieces (deeper level) (expression_of e.now))) (string_bytes out.old)) }
{
    keyword(out, first)?;
    line(out, deeper(level))?;
    expression(alloc, out, deeper(level), e)
}

// An expression on a line of its own.
#[cycle(expression)]
#[tactic(auto, using(crate::proofs::Printing::prints))]
fn next(alloc: Global, out: &mut String, level: u8, e: &Expr) -> Result<(), Memory>
    ensures { OnOk result (string_bytes out.new ≡ followed_by (next_pieces level (pieces level (expression_of e.now))) (string_bytes out.old)) }
{
    line(out, level)?;
    expression(alloc, out, level, e)
}

// `let`, its variables and their values.
#[cycle(expression)]
#[tactic(auto, using(crate::proofs::Printing::prints))]
fn binding(
    alloc: Global,
    out: &mut String,
    level: u8,
    xs: &[Var],
    values: &Expr,
) -> Result<(), Memory>
    ensures { OnOk result (string_bytes out.new ≡ followed_by (let_pieces level xs.now (pieces (deeper level) (expression_of values.now))) (string_bytes out.old)) }
{
    keyword(out, "let")?;
    space(out)?;
    binders(out, xs)?;
    equals(out, level)?;
    expression(alloc, out, deeper(level), values)
}

// `in` and the body behind it.
#[cycle(expression)]
#[tactic(auto, using(crate::proofs::Printing::prints))]
fn in_body(alloc: Global, out: &mut String, level: u8, body: &Expr) -> Result<(), Memory>
    ensures { OnOk result (string_bytes out.new ≡ followed_by (in_pieces level (pieces level (expression_of body.now))) (string_bytes out.old)) }
{
    line(out, level)?;
    keyword(out, "in")?;
    line(out, level)?;
    expression(alloc, out, level, body)
}

// `of`, the clauses and `end`.
#[cycle(expression)]
#[tactic(auto, using(crate::proofs::Printing::prints))]
fn of_clauses(alloc: Global, out: &mut String, level: u8, list: &[Clause]) -> Result<(), Memory>
    ensures { OnOk result (string_bytes out.new ≡ followed_by (of_pieces level (clauses_pieces (deeper level) (clauses (map clause_of list.now)))) (string_bytes out.old)) }
{
    space(out)?;
    keyword(out, "of")?;
    clauses(alloc, out, deeper(level), list)?;
    line(out, level)?;
    keyword(out, "end")
}

#[cycle(expression)]
#[tactic(auto, using(crate::proofs::Printing::prints))]
fn clauses(alloc: Global, out: &mut String, level: u8, list: &[Clause]) -> Result<(), Memory>
    ensures { OnOk result (string_bytes out.new ≡ followed_by (clauses_pieces level (clauses (map clause_of list.now))) (string_bytes out.old)) }
{
    for c in list {
        clause(alloc, out, level, c)?;
    }
    Ok(())
}

#[cycle(expression)]
#[tactic(auto, using(crate::proofs::Printing::prints))]
fn clause(alloc: Global, out: &mut String, level: u8, c: &Clause) -> Result<(), Memory>
    ensures { OnOk result (string_bytes out.new ≡ followed_by (clauses_pieces level (clauses (clause_of c.now ∷ []))) (string_bytes out.old)) }
{
    line(out, level)?;
    patterns(alloc, out, "<", c.patterns.as_slice())?;
    sign(out, ">")?;
    space(out)?;
    spaced(alloc, out, level, "when", &c.guard)?;
    arrow(out, level)?;
    expression(alloc, out, deeper(level), &c.body)
}

#[cycle(expression)]
#[tactic(auto, using(crate::proofs::Printing::prints))]
fn function(alloc: Global, out: &mut String, level: u8, f: &Fun) -> Result<(), Memory>
    ensures { OnOk result (string_bytes out.new ≡ followed_by (function_pieces level (function_of f.now)) (string_bytes out.old)) }
{
    keyword(out, "fun")?;
    space(out)?;
    variables(out, "(", f.params.as_slice())?;
    sign(out, ")")?;
    arrow(out, level)?;
    expression(alloc, out, deeper(level), f.body.get())
}

#[cycle(expression)]
#[tactic(auto, using(crate::proofs::Printing::prints))]
pub(crate) fn definitions(
    alloc: Global,
    out: &mut String,
    level: u8,
    list: &[FunDef],
) -> Result<(), Memory>
    ensures { OnOk result (string_bytes out.new ≡ followed_by (definitions_pieces level (definitions (map definition_of list.now))) (string_bytes out.old)) }
{
    for def in list {
        definition(alloc, out, level, def)?;
    }
    Ok(())
}

#[cycle(expression)]
#[tactic(auto, using(crate::proofs::Printing::prints))]
fn definition(alloc: Global, out: &mut String, level: u8, def: &FunDef) -> Result<(), Memory>
    ensures { OnOk result (string_bytes out.new ≡ followed_by (definitions_pieces level (definitions (definition_of def.now ∷ []))) (string_bytes out.old)) }
{
    line(out, level)?;
    function_name(alloc, out, &def.name)?;
    equals(out, level)?;
    function(alloc, out, deeper(level), &def.fun)
}

// A call of a module's function.
#[cycle(expression)]
#[tactic(auto, using(crate::proofs::Printing::prints))]
fn call(
    alloc: Global,
    out: &mut String,
    level: u8,
    of: &Atom,
    f: &Atom,
    args: &[Expr],
) -> Result<(), Memory>
    ensures { OnOk result (string_bytes out.new ≡ followed_by (call_pieces of.now f.now (each level (expressions (map expression_of args.now)))) (string_bytes out.old)) }
{
    keyword(out, "call")?;
    space(out)?;
    atom(alloc, out, of)?;
    sign(out, ":")?;
    atom(alloc, out, f)?;
    expressions(alloc, out, level, "(", args)?;
    sign(out, ")")
}

// A primitive operation.
#[cycle(expression)]
#[tactic(auto, using(crate::proofs::Printing::prints))]
fn primop(alloc: Global, out: &mut String, level: u8, f: &Atom, args: &[Expr]) -> Result<(), Memory>
    ensures { OnOk result (string_bytes out.new ≡ followed_by (primop_pieces f.now (each level (expressions (map expression_of args.now)))) (string_bytes out.old)) }
{
    keyword(out, "primop")?;
    space(out)?;
    atom(alloc, out, f)?;
    expressions(alloc, out, level, "(", args)?;
    sign(out, ")")
}

// A branch of a `try`: its keyword, its variables and its body.
#[cycle(expression)]
#[tactic(auto, using(crate::proofs::Printing::prints))]
fn branch(
    alloc: Global,
    out: &mut String,
    level: u8,
    first: &str,
    xs: &[Var],
    body: &Expr,
) -> Result<(), Memory>
    ensures { OnOk result (string_bytes out.new ≡ followed_by (branch_pieces level first.now xs.now (pieces (deeper level) (expression_of body.now))) (string_bytes out.old)) }
{
    line(out, level)?;
    keyword(out, first)?;
    space(out)?;
    binders(out, xs)?;
    arrow(out, level)?;
    expression(alloc, out, deeper(level), body)
}
