ghost use Rattle.std.specs.Prelude.{◌≡◌, ◌≤◌};
ghost use Rattle.coord_core_tests.specs.Levels.{IsLevel, levels, levels_are_lattice};

use lattice_laws::Lattice;
use std::marker::Model;

/// A number from 0 to 3.
#[derive(Clone, Copy, Debug)]
pub struct Level {
    number: u32,
}

impl Model for Level {
    ghost use Rattle.std.specs.Prelude.{ℕ, ◌≤◌};

    ghost Value = { ℕ };

    ghost view = { λ l. l.number };

    ghost invariant = { λ l. l.number ≤ 3 };

    ghost inverse = { λ n. record { number = n } };
}

impl Level {
    /// The level of a number.
    pub fn new(number: u32) -> Level
        requires { number ≤ 3 }
        ensures { result ≡ number }
    {
        Level { number }
    }

    /// Its number.
    pub fn number(self) -> u32
        ensures number { result ≡ self }
        ensures level { self ≤ 3 }
    {
        self.number
    }
}

impl Lattice for Level {
    ghost use Rattle.std.specs.Prelude.{refl};

    const HEIGHT: u32 = 3;

    ghost HEIGHT = { 3 };

    ghost is_value = { IsLevel };

    ghost meaning = { levels };

    ghost height = { refl };

    ghost lawful = { levels_are_lattice };

    fn bottom() -> Level {
        Level { number: 0 }
    }

    fn join(self, other: Level) -> Level {
        Level {
            number: self.number.max(other.number),
        }
    }

    fn at_most(self, other: Level) -> bool {
        self.number <= other.number
    }

    fn rank(self) -> u32 {
        self.number
    }

    fn told(self) {
        let _number = self.number;
    }
}
