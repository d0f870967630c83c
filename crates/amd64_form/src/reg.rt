//! The sixteen registers of 64 bits.

ghost use Rattle.std.specs.Prelude.{◌≡◌, ◌<◌};
ghost use Rattle.amd64_form.specs.Reg.{number, register};

/// A general-purpose register of 64 bits. The variants stand in the order of their numbers, 0 to 15.
#[derive(Clone, Copy, PartialEq, Eq, Debug)]
pub enum Reg {
    Rax,
    Rcx,
    Rdx,
    Rbx,
    Rsp,
    Rbp,
    Rsi,
    Rdi,
    R8,
    R9,
    R10,
    R11,
    R12,
    R13,
    R14,
    R15,
}

impl Reg {
    /// The number by which an encoding names the register, 0 to 15 (the manual's volume 3, chapter 1).
    pub fn number(self) -> u8
        ensures number { result ≡ number self }
        ensures bound { result < 16 }
    {
        self as u8
    }

    /// The register of this number, which is at most 15.
    pub fn from_number(value: u8) -> Reg
        requires { value < 16 }
        ensures register { result ≡ register value }
        ensures number { number result ≡ value }
    {
        REGISTERS[value as usize]
    }
}

/// The registers in the order of their numbers.
const REGISTERS: [Reg; 16] = [
    Reg::Rax,
    Reg::Rcx,
    Reg::Rdx,
    Reg::Rbx,
    Reg::Rsp,
    Reg::Rbp,
    Reg::Rsi,
    Reg::Rdi,
    Reg::R8,
    Reg::R9,
    Reg::R10,
    Reg::R11,
    Reg::R12,
    Reg::R13,
    Reg::R14,
    Reg::R15,
];
