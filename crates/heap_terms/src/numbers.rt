// The numbers of a program's atoms.

ghost use Rattle.std.specs.Prelude.{◌≡◌, ℕ, List};
ghost use Rattle.heap_terms.specs.Building.{number_of};

use hipe_terms::Atom;

/// The atoms of a program by their numbers.
pub trait AtomNumbers {
    // The atoms, from number 0 on.
    ghost atoms: { Self → List (List ℕ) };

    /// The number of an atom, or how many atoms there are, where it isn't one of them.
    fn number(&self, atom: &Atom) -> usize
        ensures { result ≡ number_of (atoms self.now) atom.now };
}
