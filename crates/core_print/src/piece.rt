// Pieces of the text of a module, each of them appended to what was printed before.

ghost use Rattle.std.specs.Prelude.{◌≡◌, pos, string_bytes, OnOk};
ghost use Rattle.hipe_terms.specs.Constants.{IsConstant};
ghost use Rattle.hipe_terms.specs.Terms.{term_of};
ghost use Rattle.core_print.specs.Printed.{Piece, put, followed_by, deeper, comma_before, nil_pieces, name_pieces, arrow, equals};

use core_ast::{FunName, VariableName};
use hipe_base::Memory;
use hipe_terms::{Atom, Constant, show_atom, show_onto};
use std::alloc::Global;

/// Lines are indented by at most so many levels, so that the text of a deep tree doesn't grow with the square of its depth.
/// No contract says how long a text is.
pub const INDENTATION_LIMIT: u8 = 20;

// The next level.
#[tactic(auto, unfolding(crate::specs::Printed::deeper))]
pub(crate) fn deeper(level: u8) -> u8
    ensures { result ≡ deeper level }
{
    if level < INDENTATION_LIMIT {
        level + 1
    } else {
        level
    }
}

#[tactic(auto, unfolding(crate::specs::Printed::put))]
pub(crate) fn keyword(out: &mut String, keyword: &str) -> Result<(), Memory>
    ensures { OnOk result (string_bytes out.new ≡ put (Piece.Keyword keyword.now) (string_bytes out.old)) }
{
    out.push_str(keyword)
}

#[tactic(auto, unfolding(crate::specs::Printed::put))]
pub(crate) fn sign(out: &mut String, sign: &str) -> Result<(), Memory>
    ensures { OnOk result (string_bytes out.new ≡ put (Piece.Sign sign.now) (string_bytes out.old)) }
{
    out.push_str(sign)
}

#[tactic(auto, unfolding(crate::specs::Printed::put))]
pub(crate) fn space(out: &mut String) -> Result<(), Memory>
    ensures { OnOk result (string_bytes out.new ≡ put Piece.Space (string_bytes out.old)) }
{
    out.push_str(" ")
}

// A new line, indented by so many levels.
#[tactic(auto, using(crate::proofs::Printing::lines))]
pub(crate) fn line(out: &mut String, level: u8) -> Result<(), Memory>
    ensures { OnOk result (string_bytes out.new ≡ put (Piece.Line level) (string_bytes out.old)) }
{
    out.push_str("\n")?;
    for _ in 0..level {
        out.push_str("  ")?;
    }
    Ok(())
}

#[tactic(auto, unfolding(crate::specs::Printed::put))]
pub(crate) fn atom(alloc: Global, out: &mut String, atom: &Atom) -> Result<(), Memory>
    ensures { OnOk result (string_bytes out.new ≡ put (Piece.Atom atom.now) (string_bytes out.old)) }
{
    show_atom(alloc, atom, out)
}

#[tactic(auto, unfolding(crate::specs::Printed::put))]
pub(crate) fn variable(out: &mut String, name: &VariableName) -> Result<(), Memory>
    ensures { OnOk result (string_bytes out.new ≡ put (Piece.Variable name.now) (string_bytes out.old)) }
{
    out.push_str(name.as_str())
}

#[tactic(auto, unfolding(crate::specs::Printed::put))]
pub(crate) fn integer(alloc: Global, out: &mut String, n: i64) -> Result<(), Memory>
    ensures { OnOk result (string_bytes out.new ≡ put (Piece.Integer n) (string_bytes out.old)) }
{
    let decimal = format!(in alloc; "{n}")?;
    out.push_str(decimal.as_str())
}

// The number of a function's parameters.
#[tactic(auto, unfolding(crate::specs::Printed::put))]
fn arity(alloc: Global, out: &mut String, n: u64) -> Result<(), Memory>
    ensures { OnOk result (string_bytes out.new ≡ put (Piece.Integer (pos n)) (string_bytes out.old)) }
{
    let decimal = format!(in alloc; "{n}")?;
    out.push_str(decimal.as_str())
}

#[tactic(auto, unfolding(crate::specs::Printed::put))]
pub(crate) fn constant(alloc: Global, out: &mut String, c: &Constant) -> Result<(), Memory>
    requires { IsConstant c.now }
    ensures { OnOk result (string_bytes out.new ≡ put (Piece.Constant (term_of c.now)) (string_bytes out.old)) }
{
    show_onto(alloc, c, out)
}

// A comma, but for the first part.
pub(crate) fn comma(out: &mut String, i: usize) -> Result<(), Memory>
    ensures { OnOk result (string_bytes out.new ≡ followed_by (comma_before i) (string_bytes out.old)) }
{
    if i > 0 {
        return sign(out, ",");
    }
    Ok(())
}

#[tactic(auto, unfolding(crate::specs::Printed::arrow))]
pub(crate) fn arrow(out: &mut String, level: u8) -> Result<(), Memory>
    ensures { OnOk result (string_bytes out.new ≡ followed_by (arrow level) (string_bytes out.old)) }
{
    space(out)?;
    sign(out, "->")?;
    line(out, deeper(level))
}

#[tactic(auto, unfolding(crate::specs::Printed::equals))]
pub(crate) fn equals(out: &mut String, level: u8) -> Result<(), Memory>
    ensures { OnOk result (string_bytes out.new ≡ followed_by (equals level) (string_bytes out.old)) }
{
    space(out)?;
    sign(out, "=")?;
    line(out, deeper(level))
}

// The empty list.
pub(crate) fn nil(out: &mut String) -> Result<(), Memory>
    ensures { OnOk result (string_bytes out.new ≡ followed_by nil_pieces (string_bytes out.old)) }
{
    sign(out, "[")?;
    sign(out, "]")
}

// The name of a function.
#[tactic(auto, unfolding(crate::specs::Printed::name_pieces))]
pub(crate) fn function_name(alloc: Global, out: &mut String, f: &FunName) -> Result<(), Memory>
    ensures { OnOk result (string_bytes out.new ≡ followed_by (name_pieces f.now) (string_bytes out.old)) }
{
    atom(alloc, out, &f.name)?;
    sign(out, "/")?;
    arity(alloc, out, f.arity)
}
