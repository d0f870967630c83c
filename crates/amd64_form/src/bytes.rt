//! The bytes of one instruction.

ghost use Rattle.std.specs.Prelude.{◌≡◌, ◌+◌, ◌≤◌, ◌++◌, ◌↔◌, List, [], ℕ, IsTrue, length, take};

use std::marker::Model;

/// How many bytes an instruction has at most (the manual's volume 3, chapter 1).
pub const LONGEST: usize = 15;

/// The bytes of one instruction, at most 15. Contracts see them as their list.
#[derive(Debug, Drop)]
pub struct Bytes {
    buffer: [u8; LONGEST],
    len: usize,
}

impl Model for Bytes {
    ghost Value = { List ℕ };

    ghost view = { λ b. take b.len b.buffer };

    ghost invariant = { λ b. b.len ≤ 15 };
}

impl Bytes {
    /// These bytes, at most 15.
    pub(crate) fn from_slice(bytes: &[u8]) -> Bytes
        requires { length bytes.now ≤ 15 }
        ensures { result ≡ bytes.now }
    {
        let mut buffer = [0; LONGEST];
        buffer[..bytes.len()].copy_from_slice(bytes);
        Bytes {
            buffer,
            len: bytes.len(),
        }
    }

    /// Puts these bytes at the end. There are at most 15 then.
    pub(crate) fn extend(&mut self, bytes: &[u8])
        requires { length self.old + length bytes.now ≤ 15 }
        ensures { self.new ≡ self.old ++ bytes.now }
    {
        let end = self.len + bytes.len();
        self.buffer[self.len..end].copy_from_slice(bytes);
        self.len = end;
    }

    /// The bytes, in the order in which they stand in memory.
    pub fn as_slice(&self) -> &[u8]
        ensures bytes { result.now ≡ self.now }
        ensures bound { length self.now ≤ 15 }
    {
        &self.buffer[..self.len]
    }

    /// How many bytes there are.
    pub fn len(&self) -> usize
        ensures len { result ≡ length self.now }
        ensures bound { result ≤ 15 }
    {
        self.len
    }

    /// Whether there is no byte. What `encode` gives has one at least.
    pub fn is_empty(&self) -> bool
        ensures { IsTrue result ↔ (self.now ≡ []) }
    {
        self.len == 0
    }
}
