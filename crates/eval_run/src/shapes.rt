// Shapes of values and of lists of values.

ghost use Rattle.std.specs.Prelude.{◌≡◌, option_map};
ghost use Rattle.eval_values.specs.Values.{term_in, terms_in};
ghost use Rattle.eval_run.specs.Shapes.{fun_of, one_of, two_of};

use eval_values::{Shape, Value, shape_of};

/// The only value of a list.
#[tactic(auto, using(crate::proofs::Steps::lists))]
pub fn one_of<'a>(values: &[Value<'a>]) -> Option<Value<'a>>
    ensures { option_map term_in result ≡ one_of (terms_in values.now) }
{
    if values.len() == 1 {
        Some(values[0])
    } else {
        None
    }
}

/// Both values of a list of two.
#[tactic(auto, using(crate::proofs::Steps::lists))]
pub fn two_of<'a>(values: &[Value<'a>]) -> Option<(Value<'a>, Value<'a>)>
    ensures { option_map (λ p. (term_in p.0, term_in p.1)) result ≡ two_of (terms_in values.now) }
{
    if values.len() == 2 {
        Some((values[0], values[1]))
    } else {
        None
    }
}

/// The number of a fun's function, and what the fun captured.
#[tactic(auto, using(crate::proofs::Steps::funs_shown))]
pub fn fun_of<'a>(value: Value<'a>) -> Option<(u64, &'a [Value<'a>])>
    ensures { option_map (λ f. (f.0, terms_in (f.1).now)) result ≡ fun_of (term_in value.entry) }
{
    match shape_of(value) {
        Shape::Fun(n, captured) => Some((n, captured)),
        Shape::Int(_) | Shape::Atom(_) => None,
        Shape::Nil | Shape::Cons(_, _) => None,
        Shape::Tuple(_) => None,
    }
}
