// What is read from and what is written to.
ghost use Rattle.std.specs.Prelude.{◌≡◌, ℕ, ◌<◌, ◌≤◌, List, length, take, Option, Ok, IfOk, OnErr};
ghost use Rattle.std.specs.Io.KnownBytes.{Appends, Consumes, Keeps, IsAtEnd};
ghost use Rattle.hipe_edge.specs.Counts.{Rises};

/// A read or a write that failed.
#[derive(Clone, Copy, Debug, PartialEq, Eq)]
pub struct Failed;

/// What bytes are read from.
pub trait Source {
    // The bytes that reads will give from here on, where the source tells them.
    ghost left: { Self → Option (List ℕ) };

    // How many reads have failed so far. The count stands still at 2^64 - 1.
    ghost faults: { Self → ℕ };

    /// Reads the next bytes into the beginning of `into`, and answers how many. 0 is the end of the input.
    /// `Failed` takes no byte.
    fn read(&mut self, into: &mut [u8]) -> Result<usize, Failed>
        requires { 0 < length into.old }
        ensures bound { IfOk result (λ n. n ≤ length into.new) }
        ensures taken { IfOk result (λ n. Consumes (left self.old) (left self.new) (take n into.new)) }
        ensures end { result ≡ Ok 0 → IsAtEnd (left self.new) }
        ensures kept { OnErr result (Keeps (left self.old) (left self.new)) }
        ensures faults_never_fall { faults self.old ≤ faults self.new }
        ensures failed { OnErr result (Rises (faults self.old) (faults self.new)) };
}

/// What bytes are written to.
pub trait Sink {
    // The bytes that it was given so far, where the sink tells them.
    ghost written: { Self → Option (List ℕ) };

    // How many writes have failed so far. The count stands still at 2^64 - 1.
    ghost faults: { Self → ℕ };

    /// Takes a prefix of `from`, one byte or more, and answers how many. `Failed` takes none.
    fn write(&mut self, from: &[u8]) -> Result<usize, Failed>
        requires { 0 < length from.now }
        ensures bound { IfOk result (λ n. (0 < n) × (n ≤ length from.now)) }
        ensures appended { IfOk result (λ n. Appends (written self.old) (written self.new) (take n from.now)) }
        ensures kept { OnErr result (Keeps (written self.old) (written self.new)) }
        ensures faults_never_fall { faults self.old ≤ faults self.new }
        ensures failed { OnErr result (Rises (faults self.old) (faults self.new)) };
}
