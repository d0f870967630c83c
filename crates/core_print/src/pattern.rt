// The text of variables and patterns.

ghost use Rattle.std.specs.Prelude.{◌≡◌, map, string_bytes, OnOk};
ghost use Rattle.core_ast.specs.Trees.{pattern_of, patterns};
ghost use Rattle.core_print.specs.Printed.{followed_by, opened, binders, tail_pieces, variable_pieces, alias_pieces, pattern_pieces, each_pattern, is_nil_pattern};

use crate::piece::{atom, comma, integer, nil, sign, space, variable};
use core_ast::{PatNode, Pattern, Var};
use hipe_base::Memory;
use std::alloc::Global;

// What opens some variables, and the variables with commas between them.
#[tactic(auto, using(crate::proofs::Printing::parts))]
pub(crate) fn variables(out: &mut String, opening: &str, list: &[Var]) -> Result<(), Memory>
    ensures { OnOk result (string_bytes out.new ≡ followed_by (opened opening.now (map variable_pieces list.now)) (string_bytes out.old)) }
{
    sign(out, opening)?;
    for (i, x) in list.iter().enumerate() {
        comma(out, i)?;
        variable(out, &x.name)?;
    }
    Ok(())
}

// The variables that a `let` or a `try` binds.
#[tactic(auto, using(crate::proofs::Printing::parts))]
pub(crate) fn binders(out: &mut String, list: &[Var]) -> Result<(), Memory>
    ensures { OnOk result (string_bytes out.new ≡ followed_by (binders list.now) (string_bytes out.old)) }
{
    variables(out, "<", list)?;
    sign(out, ">")
}

#[cycle(pattern)]
#[tactic(auto, using(crate::proofs::Printing::pattern_prints))]
fn pattern(alloc: Global, out: &mut String, p: &Pattern) -> Result<(), Memory>
    ensures { OnOk result (string_bytes out.new ≡ followed_by (pattern_pieces (pattern_of p.now)) (string_bytes out.old)) }
{
    match &p.node {
        PatNode::Var(x) => variable(out, x),
        PatNode::Int(n) => integer(alloc, out, *n),
        PatNode::Atom(a) => atom(alloc, out, a),
        PatNode::Nil => nil(out),
        PatNode::Tuple(parts) => {
            patterns(alloc, out, "{", parts.as_slice())?;
            sign(out, "}")
        }
        PatNode::List(parts, end) => {
            patterns(alloc, out, "[", parts.as_slice())?;
            tail(alloc, out, end.get())
        }
        PatNode::Alias(x, part) => alias(alloc, out, x, part.get()),
    }
}

// What opens some patterns, and the patterns with commas between them.
#[cycle(pattern)]
#[tactic(auto, using(crate::proofs::Printing::pattern_prints))]
pub(crate) fn patterns(
    alloc: Global,
    out: &mut String,
    opening: &str,
    list: &[Pattern],
) -> Result<(), Memory>
    ensures { OnOk result (string_bytes out.new ≡ followed_by (opened opening.now (each_pattern (patterns (map pattern_of list.now)))) (string_bytes out.old)) }
{
    sign(out, opening)?;
    for (i, p) in list.iter().enumerate() {
        comma(out, i)?;
        pattern(alloc, out, p)?;
    }
    Ok(())
}

// What stands behind the elements of a list with this tail.
#[cycle(pattern)]
#[tactic(auto, using(crate::proofs::Printing::pattern_prints))]
fn tail(alloc: Global, out: &mut String, p: &Pattern) -> Result<(), Memory>
    ensures { OnOk result (string_bytes out.new ≡ followed_by (tail_pieces (is_nil_pattern (pattern_of p.now)) (pattern_pieces (pattern_of p.now))) (string_bytes out.old)) }
{
    if is_nil(p) {
        return sign(out, "]");
    }
    sign(out, "|")?;
    pattern(alloc, out, p)?;
    sign(out, "]")
}

#[tactic(auto, using(crate::proofs::Printing::pattern_prints))]
fn is_nil(p: &Pattern) -> bool
    ensures { result ≡ is_nil_pattern (pattern_of p.now) }
{
    matches!(&p.node, PatNode::Nil)
}

#[cycle(pattern)]
#[tactic(auto, using(crate::proofs::Printing::pattern_prints))]
fn alias(alloc: Global, out: &mut String, whole: &Var, part: &Pattern) -> Result<(), Memory>
    ensures { OnOk result (string_bytes out.new ≡ followed_by (alias_pieces whole.now (pattern_pieces (pattern_of part.now))) (string_bytes out.old)) }
{
    variable(out, &whole.name)?;
    space(out)?;
    sign(out, "=")?;
    space(out)?;
    pattern(alloc, out, part)
}
