// The built-in functions.

ghost use Rattle.std.specs.Prelude.{◌≡◌, ◌∷◌, [], IfOk};
ghost use Rattle.hipe_terms.specs.Outcome.{bif_outcome, is_integer, is_atom, is_list, is_tuple, is_fun};
ghost use Rattle.eval_values.specs.Results.{outcome_in, arities_in};
ghost use Rattle.eval_values.specs.Values.{term_in, terms_in};

use crate::compare::order;
use crate::ends::{Ground, raises};
use crate::result::Outcome;
use crate::value::{Shape, Value, shape_of};
use hipe_base::Memory;
use hipe_terms::{Bif, Class};

/// How a built-in function ends with these arguments. An error where there is no memory for its result, or for its work.
pub fn perform<'a>(
    ground: Ground<'a>,
    bif: Bif,
    arguments: &[Value<'a>],
) -> Result<Outcome<'a>, Memory>
    ensures { IfOk result (λ o. outcome_in o ≡ bif_outcome (arities_in ground.entry.arities.now) bif (terms_in arguments.now)) }
{
    match arguments {
        [a] => unary(ground, bif, *a),
        [a, b] => binary(ground, bif, *a, *b),
        [a, b, c] => ternary(ground, bif, *a, *b, *c),
        _ => Ok(ground.undef()),
    }
}

// With one argument.
fn unary<'a>(ground: Ground<'a>, bif: Bif, a: Value<'a>) -> Result<Outcome<'a>, Memory>
    ensures { IfOk result (λ o. outcome_in o ≡ bif_outcome (arities_in ground.entry.arities.now) bif (term_in a.entry ∷ [])) }
{
    match bif {
        Bif::Negate => Ok(ground.negated(a)),
        Bif::BitNot => Ok(ground.bits_turned(a)),
        Bif::Not => Ok(ground.negation(a)),
        Bif::IsInteger | Bif::IsNumber => Ok(ground.truth(is_integer(a))),
        Bif::IsAtom => Ok(ground.truth(is_atom(a))),
        Bif::IsBoolean => Ok(ground.truth(ground.boolean_of(a).is_some())),
        Bif::IsList => Ok(ground.truth(is_list(a))),
        Bif::IsTuple => Ok(ground.truth(is_tuple(a))),
        Bif::IsFunction => Ok(ground.truth(is_fun(a))),
        Bif::Head => Ok(ground.head(a)),
        Bif::Tail => Ok(ground.tail(a)),
        Bif::Length => ground.length(a),
        Bif::TupleSize => Ok(ground.tuple_size(a)),
        Bif::Error => Ok(raises(Class::Error, a)),
        Bif::Throw => Ok(raises(Class::Throw, a)),
        Bif::Exit => Ok(raises(Class::Exit, a)),
        Bif::Display => Ok(ground.displayed(a)),
        _ => Ok(ground.undef()),
    }
}

// With two arguments.
fn binary<'a>(
    ground: Ground<'a>,
    bif: Bif,
    a: Value<'a>,
    b: Value<'a>,
) -> Result<Outcome<'a>, Memory>
    ensures { IfOk result (λ o. outcome_in o ≡ bif_outcome (arities_in ground.entry.arities.now) bif (term_in a.entry ∷ term_in b.entry ∷ [])) }
{
    match bif {
        Bif::Add => Ok(ground.added(a, b)),
        Bif::Subtract => Ok(ground.subtracted(a, b)),
        Bif::Multiply => Ok(ground.multiplied(a, b)),
        Bif::Divide => Ok(ground.divided(a, b)),
        Bif::Remainder => Ok(ground.remainder(a, b)),
        Bif::BitAnd => Ok(ground.bits_and(a, b)),
        Bif::BitOr => Ok(ground.bits_or(a, b)),
        Bif::BitXor => Ok(ground.bits_xor(a, b)),
        Bif::ShiftLeft => Ok(ground.shifted_left(a, b)),
        Bif::ShiftRight => Ok(ground.shifted_right(a, b)),
        Bif::Equal | Bif::ExactlyEqual => {
            let found = order(ground.alloc, a, b)?;
            Ok(ground.truth(found.is_eq()))
        }
        Bif::NotEqual | Bif::ExactlyNotEqual => {
            let found = order(ground.alloc, a, b)?;
            Ok(ground.truth(!found.is_eq()))
        }
        Bif::LessThan => {
            let found = order(ground.alloc, a, b)?;
            Ok(ground.truth(found.is_lt()))
        }
        Bif::AtMost => {
            let found = order(ground.alloc, a, b)?;
            Ok(ground.truth(!found.is_gt()))
        }
        Bif::GreaterThan => {
            let found = order(ground.alloc, a, b)?;
            Ok(ground.truth(found.is_gt()))
        }
        Bif::AtLeast => {
            let found = order(ground.alloc, a, b)?;
            Ok(ground.truth(!found.is_lt()))
        }
        Bif::And => Ok(ground.both(a, b)),
        Bif::Or => Ok(ground.either(a, b)),
        Bif::IsFunctionOfArity => Ok(ground.has_arity(a, b)),
        Bif::Append => ground.append(a, b),
        Bif::Element => Ok(ground.element(a, b)),
        _ => Ok(ground.undef()),
    }
}

// With three arguments.
fn ternary<'a>(
    ground: Ground<'a>,
    bif: Bif,
    a: Value<'a>,
    b: Value<'a>,
    c: Value<'a>,
) -> Result<Outcome<'a>, Memory>
    ensures { IfOk result (λ o. outcome_in o ≡ bif_outcome (arities_in ground.entry.arities.now) bif (term_in a.entry ∷ term_in b.entry ∷ term_in c.entry ∷ [])) }
{
    match bif {
        Bif::SetElement => ground.set_element(a, b, c),
        _ => Ok(ground.undef()),
    }
}

// ---- kinds of values

fn is_integer(a: Value<'_>) -> bool
    ensures { result ≡ is_integer (term_in a.entry) }
{
    match shape_of(a) {
        Shape::Int(_) => true,
        Shape::Atom(_) | Shape::Nil => false,
        Shape::Cons(_, _) | Shape::Tuple(_) => false,
        Shape::Fun(_, _) => false,
    }
}

fn is_atom(a: Value<'_>) -> bool
    ensures { result ≡ is_atom (term_in a.entry) }
{
    match shape_of(a) {
        Shape::Atom(_) => true,
        Shape::Int(_) | Shape::Nil => false,
        Shape::Cons(_, _) | Shape::Tuple(_) => false,
        Shape::Fun(_, _) => false,
    }
}

fn is_list(a: Value<'_>) -> bool
    ensures { result ≡ is_list (term_in a.entry) }
{
    match shape_of(a) {
        Shape::Nil | Shape::Cons(_, _) => true,
        Shape::Int(_) | Shape::Atom(_) => false,
        Shape::Tuple(_) | Shape::Fun(_, _) => false,
    }
}

fn is_tuple(a: Value<'_>) -> bool
    ensures { result ≡ is_tuple (term_in a.entry) }
{
    match shape_of(a) {
        Shape::Tuple(_) => true,
        Shape::Int(_) | Shape::Atom(_) => false,
        Shape::Nil | Shape::Cons(_, _) => false,
        Shape::Fun(_, _) => false,
    }
}

fn is_fun(a: Value<'_>) -> bool
    ensures { result ≡ is_fun (term_in a.entry) }
{
    match shape_of(a) {
        Shape::Fun(_, _) => true,
        Shape::Int(_) | Shape::Atom(_) => false,
        Shape::Nil | Shape::Cons(_, _) => false,
        Shape::Tuple(_) => false,
    }
}
