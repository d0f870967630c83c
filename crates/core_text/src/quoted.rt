// What stands between quotes.

ghost use Rattle.std.specs.Prelude.{◌≡◌, ℕ, ◌+◌, ◌<◌, ◌≤◌, ◌^◌, length, IfSome};
ghost use Rattle.core_text.specs.Quotes.{quoted_at};

use crate::bytes::rest_from;
use crate::code_point::code_point_at;

/// The bytes up to a closing quote and with it, and the code points that stand before it.
#[derive(Clone, Copy)]
pub struct Quoted {
    /// The bytes up to the closing quote, with it.
    pub length: usize,
    /// The code points before the closing quote.
    pub code_points: usize,
}

/// What stands behind an opening quote, if there is a closing one and each character and escape before it is good.
#[tactic(auto, using(crate::proofs::Walks::walks), unfolding(crate::specs::Quotes::quoted_at))]
pub fn quoted_at(quote: u8, text: &[u8]) -> Option<Quoted>
    requires { length text.now < 2 ^ 32 }
    ensures quoted { result ≡ quoted_at quote text.now }
    ensures within { IfSome result (λ b. b.length ≤ length text.now) }
{
    let mut length = 0;
    let mut code_points = 0;
    while length < text.len() {
        let rest = rest_from(text, length);
        if rest[0] == quote {
            return Some(Quoted {
                length: length + 1,
                code_points,
            });
        }
        length += code_point_at(rest)?.length;
        code_points += 1;
    }
    None
}
