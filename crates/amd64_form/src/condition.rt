//! The conditions of jumps.

ghost use Rattle.std.specs.Prelude.{◌≡◌, ◌<◌};
ghost use Rattle.amd64_form.specs.Operation.{condition_number};

/// A condition on the flags, by the letters of the assemblers' `j` instructions. The variants stand in the order of
/// their numbers: of each two, the second is the contrary of the first. Parity is left out.
#[derive(Clone, Copy, PartialEq, Eq, Debug)]
pub enum Condition {
    /// Overflow: OF.
    O,

    /// No overflow.
    No,

    /// Below, of unsigned numbers: CF.
    B,

    /// Above or equal.
    Ae,

    /// Equal: ZF.
    E,

    /// Not equal.
    Ne,

    /// Below or equal: CF or ZF.
    Be,

    /// Above.
    A,

    /// The sign: SF.
    S,

    /// No sign.
    Ns,

    /// Less, of signed numbers: SF isn't OF.
    L,

    /// Greater or equal.
    Ge,

    /// Less or equal: ZF, or SF isn't OF.
    Le,

    /// Greater.
    G,
}

impl Condition {
    /// The number by which an opcode names the condition, 0 to 9 and 12 to 15 (the manual's volume 3, appendix A).
    pub fn number(self) -> u8
        ensures number { result ≡ condition_number self }
        ensures bound { result < 16 }
    {
        match self {
            Condition::O => 0x0,
            Condition::No => 0x1,
            Condition::B => 0x2,
            Condition::Ae => 0x3,
            Condition::E => 0x4,
            Condition::Ne => 0x5,
            Condition::Be => 0x6,
            Condition::A => 0x7,
            Condition::S => 0x8,
            Condition::Ns => 0x9,
            Condition::L => 0xC,
            Condition::Ge => 0xD,
            Condition::Le => 0xE,
            Condition::G => 0xF,
        }
    }
}
