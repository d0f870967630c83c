//! What instructions with several operations of one form do.

ghost use Rattle.std.specs.Prelude.{◌≡◌, ◌<◌};
ghost use Rattle.amd64_form.specs.Operation.{count_of, shift_count};

/// An operation of two words.
#[derive(Clone, Copy, PartialEq, Eq, Debug)]
pub enum BinaryOp {
    /// The sum, modulo 2^64.
    Add,

    /// Inclusive or, bit by bit.
    Or,

    /// And, bit by bit.
    And,

    /// The difference, modulo 2^64.
    Sub,

    /// Exclusive or, bit by bit.
    Xor,

    /// The flags of the difference alone.
    Cmp,

    /// The flags of the bitwise and alone.
    Test,
}

/// An operation of one register.
#[derive(Clone, Copy, PartialEq, Eq, Debug)]
pub enum UnaryOp {
    /// Each bit turned round.
    Not,

    /// The negative, modulo 2^64.
    Neg,

    /// Signed division of rdx:rax, 128 bits, by the register: the quotient into rax, the remainder into rdx.
    Idiv,
}

/// A shift of a register.
#[derive(Clone, Copy, PartialEq, Eq, Debug)]
pub enum ShiftOp {
    /// To the left, with zeros behind.
    Shl,

    /// To the right, with zeros before.
    Shr,

    /// To the right, with copies of the top bit before.
    Sar,
}

/// By how many bits a shift goes, 0 to 63.
#[derive(Clone, Copy, PartialEq, Eq, Debug)]
pub struct ShiftCount {
    bits: u8,
}

impl ShiftCount {
    /// This many bits, at most 63.
    pub fn new(bits: u8) -> ShiftCount
        requires { bits < 64 }
        ensures count { result ≡ shift_count bits }
        ensures bits { count_of result ≡ bits }
    {
        ShiftCount { bits }
    }

    /// How many bits.
    pub fn bits(self) -> u8
        ensures { result ≡ count_of self }
    {
        self.bits
    }
}
