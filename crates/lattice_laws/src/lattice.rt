ghost use Rattle.std.specs.Prelude.{◌≡◌, ℕ};
ghost use Rattle.lattice_laws.specs.Lattices.{LatticeMeaning, IsLattice};

/// A type whose values have an order with a least value and least upper bounds.
///
/// The type may have data that are no values, such as a range with its ends the wrong way round: a lattice means which
/// of its data are values, and its laws (`IsLattice`) speak of these alone. None of its functions takes memory.
pub trait Lattice: Copy + Send + Sync {
    /// The greatest rank that a value may have. No chain of values has more than `HEIGHT + 1` of them.
    const HEIGHT: u32;

    ghost HEIGHT: { ℕ };

    // which data are values
    ghost is_value: { Self → Type 0 };

    // what the functions compute
    ghost meaning: { LatticeMeaning Self };

    /// The least value.
    fn bottom() -> Self
        ensures { result ≡ meaning.bottom };

    /// The least value that is at least `self` and at least `other`.
    fn join(self, other: Self) -> Self
        ensures { result ≡ meaning.join self other };

    /// Whether `self` is at most `other` in the order.
    fn at_most(self, other: Self) -> bool
        ensures { result ≡ meaning.at_most self other };

    /// How far up the value lies, from 0 to `HEIGHT`: of two values the strictly greater one has the greater rank.
    fn rank(self) -> u32
        ensures { result ≡ meaning.rank self };

    /// Does nothing. It promises that what it is given is a value.
    fn told(self)
        ensures { is_value self };

    // the rank's bound is the constant
    ghost height: { meaning.height ≡ HEIGHT };

    // the laws
    ghost lawful: { IsLattice is_value meaning };
}
