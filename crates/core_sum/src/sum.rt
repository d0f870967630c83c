// Sums, and why a module has none.

ghost use Rattle.std.specs.Prelude.{◌*◌};
ghost use Rattle.core_sum.specs.declared.sum.Sum.{Sum as ASum};
ghost use Rattle.core_sum.specs.Sums.{count_of, value, HasSmallIntegers, IsWithin};

use hipe_base::Memory;
use hipe_terms::Place;
use sqlite_items::Boxed;

/// The most integers of a sum that a function of a good module has: a function has at most `NODE_LIMIT` nodes, and each integer
/// but the first comes with a call.
pub const MOST_INTEGERS: u64 = 32_768;

/// The body of a module's one function: integers and their sums.
#[derive(Debug, Drop)]
pub enum Sum {
    /// An integer. One in the sum of a module is from -999,999 to 999,999.
    Int(i64),
    /// The sum of two parts, the left one first.
    Plus(Boxed<Sum>, Boxed<Sum>),
}

/// Why a module has no sum.
#[derive(Clone, Copy, Debug, PartialEq, Eq)]
pub enum SumRefusal {
    /// The module doesn't export `'main'/0`.
    NotExported,
    /// A part that isn't made so begins at a place.
    NotYet { at: Place },
    /// Memory ran out.
    Memory,
}

impl From<Memory> for SumRefusal {
    ghost use Rattle.core_sum.specs.declared.sum.SumRefusal.TheVariants.{Memory};
    ghost use Rattle.std.specs.Prelude.{◌≡◌};

    ghost from_gives = { λ _ refusal. refusal ≡ Memory };

    fn from(_error: Memory) -> SumRefusal {
        SumRefusal::Memory
    }
}

/// A sum of so many integers, each from -999,999 to 999,999, comes to at most 999,999 times that many,
/// and to no less than the same below 0.
pub fn value_of_small_integers()
    ensures { (e : ASum) → HasSmallIntegers e → IsWithin (999999 * count_of e) (value e) }
{}
