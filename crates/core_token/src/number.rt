// Integers and floats.

ghost use Rattle.std.specs.Prelude.{◌≡◌, ℕ, ◌+◌, ◌<◌, ◌≤◌, ◌^◌, length, IfOk};
ghost use Rattle.core_token.specs.Lexemes.{number_at};

use crate::lexeme::Lexeme;
use crate::token::{Sort, TokenKind};
use core_text::bytes::{DECIMAL, digits, number_up_to, prefix, rest_from};
use core_text::fraction::fraction_length;

/// An integer of at most `most` or a float, whose digits stand at the beginning, behind a sign of so many bytes.
#[tactic(auto, unfolding(crate::specs::Lexemes::number_at))]
pub fn number_at(sign: usize, most: u64, text: &[u8]) -> Result<Lexeme, TokenKind>
    requires some { 0 < length text.now }
    requires short { length text.now < 2 ^ 32 }
    requires sign { sign ≤ 1 }
    requires small { most ≤ 2 ^ 59 }
    ensures lexeme { result ≡ number_at sign most text.now }
    ensures within { IfOk result (λ l. (0 < l.length) × (l.length ≤ sign + length text.now)) }
{
    let count = digits(rest_from(text, 1)) + 1;
    let fraction = fraction_length(rest_from(text, count));
    if fraction > 0 {
        return Ok(Lexeme {
            sort: Sort::Float,
            length: sign + count + fraction,
        });
    }
    match number_up_to(prefix(text, count), DECIMAL, most) {
        Some(_) => Ok(Lexeme {
            sort: Sort::Integer,
            length: sign + count,
        }),
        None => Err(TokenKind::WideInteger),
    }
}
