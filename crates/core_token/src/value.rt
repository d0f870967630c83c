// What tokens mean, read from their bytes.

ghost use Rattle.std.specs.Prelude.{◌≡◌, ℕ, ◌<◌, ◌≤◌, ◌^◌, length, IfOk};
ghost use Rattle.core_token.specs.Values.{integer_of, character_of, code_points_of};

use crate::lexeme::{FARTHEST_BELOW, GREATEST};
use core_text::bytes::{DECIMAL, number_up_to, prefix, rest_from};
use core_text::code_point::{code_point_at, values_between};
use hipe_base::Memory;
use std::alloc::Global;

/// The number of an integer, from its bytes; `None` where it isn't from `LEAST_INTEGER` to
/// `GREATEST_INTEGER`, which no token is.
#[tactic(auto, unfolding(crate::specs::Values::integer_of))]
pub fn integer_of(token: &[u8]) -> Option<i64>
    ensures { result ≡ integer_of token.now }
{
    match token.first() {
        None => None,
        Some(b'-') => {
            let n = number_up_to(rest_from(token, 1), DECIMAL, FARTHEST_BELOW)?;
            Some(-(n as i64))
        }
        Some(b'+') => {
            let n = number_up_to(rest_from(token, 1), DECIMAL, GREATEST)?;
            Some(n as i64)
        }
        Some(_) => {
            let n = number_up_to(token, DECIMAL, GREATEST)?;
            Some(n as i64)
        }
    }
}

/// The code point of a character, from its bytes; `None` where its escape is bad, which no token's is.
#[tactic(auto, unfolding(crate::specs::Values::character_of))]
pub fn character_of(token: &[u8]) -> Option<u32>
    requires some { 0 < length token.now }
    requires short { length token.now < 2 ^ 32 }
    ensures { result ≡ character_of token.now }
{
    let code_point = code_point_at(rest_from(token, 1))?;
    Some(code_point.value)
}

/// The code points of an atom or of a text, from its bytes with the quotes. The error is that memory ran out.
#[tactic(auto, unfolding(crate::specs::Values::code_points_of))]
pub fn code_points_of(alloc: Global, token: &[u8]) -> Result<Vec<u32>, Memory>
    requires quotes { 2 ≤ length token.now }
    requires short { length token.now < 2 ^ 32 }
    ensures { IfOk result (λ v. v.items ≡ code_points_of token.now) }
{
    let rest = rest_from(token, 1);
    values_between(alloc, prefix(rest, token.len() - 2))
}
