// The words that constants take.

ghost use Rattle.std.specs.Prelude.{◌≡◌, ◌<◌, ◌^◌, sum, map};
ghost use Rattle.hipe_terms.specs.Words.{words_of};

use crate::constant::Constant;

/// How many words of the heap a constant takes, its parts' included: `2 * n` for a list of n elements before its tail,
/// `n + 1` for a tuple of n elements, and none for an integer, an atom or the empty list. It takes no memory.
#[cycle(words)]
#[tactic(auto, using(crate::proofs::Levels::levels))]
pub fn words_of(c: &Constant) -> u64
    requires { words_of c.now < 2 ^ 64 }
    ensures { result ≡ words_of c.now }
{
    match c {
        Constant::Int(_) => 0,
        Constant::Atom(_) => 0,
        Constant::Nil => 0,
        Constant::List(parts, tail) => {
            words_of_each(parts.as_slice()) + words_of(tail.get()) + 2 * parts.len() as u64
        }
        Constant::Tuple(parts) => words_of_each(parts.as_slice()) + parts.len() as u64 + 1,
    }
}

// The words of these constants together.
#[cycle(words)]
#[tactic(auto, using(crate::proofs::Levels::levels))]
fn words_of_each(parts: &[Constant]) -> u64
    requires { sum (map words_of parts.now) < 2 ^ 64 }
    ensures { result ≡ sum (map words_of parts.now) }
{
    let mut words = 0;
    for part in parts {
        words += words_of(part);
    }
    words
}
