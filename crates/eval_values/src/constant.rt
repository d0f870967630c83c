// The values of constants.

ghost use Rattle.std.specs.Prelude.{◌≡◌, ◌≤◌, ◌^◌, map, sum, IfOk, IfSome, IfNone};
ghost use Rattle.hipe_terms.specs.Terms.{term_of};
ghost use Rattle.hipe_terms.specs.Words.{words_of};
ghost use Rattle.eval_values.specs.Values.{term_in, terms_in};

use crate::list::{cells, tuple};
use crate::value::Value;
use bumpalo::Bump;
use hipe_base::Memory;
use hipe_terms::Constant;
use std::alloc::Global;

/// The value of a constant, whose parts take room in the arena. An error where there is no memory for it.
#[cycle(value_of)]
#[tactic(auto, using(crate::proofs::Levels::levels))]
pub fn value_of<'a>(alloc: Global, bump: &'a Bump, c: &'a Constant) -> Result<Value<'a>, Memory>
    ensures { IfOk result (λ v. term_in v ≡ term_of c.now) }
{
    match c {
        Constant::Int(n) => Ok(Value::Int(*n)),
        Constant::Atom(a) => Ok(Value::Atom(a)),
        Constant::Nil => Ok(Value::Nil),
        Constant::List(parts, tail) => {
            let elements = values_of(alloc, bump, parts.as_slice())?;
            let end = value_of(alloc, bump, tail.get())?;
            cells(bump, elements.as_slice(), end)
        }
        Constant::Tuple(parts) => {
            let elements = values_of(alloc, bump, parts.as_slice())?;
            tuple(bump, elements.as_slice())
        }
    }
}

/// The values of constants. An error where there is no memory for them.
#[cycle(value_of)]
#[tactic(auto, using(crate::proofs::Levels::levels))]
pub fn values_of<'a>(
    alloc: Global,
    bump: &'a Bump,
    parts: &'a [Constant],
) -> Result<Vec<Value<'a>>, Memory>
    ensures { IfOk result (λ vs. terms_in vs.items ≡ map term_of parts.now) }
{
    let mut values = Vec::new(alloc);
    for part in parts {
        values.push(value_of(alloc, bump, part)?)?;
    }
    Ok(values)
}

/// How many words a constant takes on the heap, or nothing where they are 2^64 or more.
#[cycle(words_of)]
#[tactic(auto, using(crate::proofs::Levels::levels))]
pub fn words_of(c: &Constant) -> Option<u64>
    ensures some { IfSome result (λ n. n ≡ words_of c.now) }
    ensures none { IfNone result (2 ^ 64 ≤ words_of c.now) }
{
    match c {
        Constant::Int(_) | Constant::Atom(_) | Constant::Nil => Some(0),
        Constant::List(parts, tail) => {
            let elements = words_of_all(parts.as_slice())?;
            let cells = (parts.len() as u64).checked_mul(2)?;
            elements
                .checked_add(words_of(tail.get())?)?
                .checked_add(cells)
        }
        Constant::Tuple(parts) => {
            let size = (parts.len() as u64).checked_add(1)?;
            words_of_all(parts.as_slice())?.checked_add(size)
        }
    }
}

/// How many words these constants take together, or nothing where they are 2^64 or more.
#[cycle(words_of)]
#[tactic(auto, using(crate::proofs::Levels::levels))]
pub fn words_of_all(parts: &[Constant]) -> Option<u64>
    ensures some { IfSome result (λ n. n ≡ sum (map words_of parts.now)) }
    ensures none { IfNone result (2 ^ 64 ≤ sum (map words_of parts.now)) }
{
    let mut words = 0u64;
    for part in parts {
        words = words.checked_add(words_of(part)?)?;
    }
    Some(words)
}
