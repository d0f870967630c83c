//! The text of registers, operations and instructions, as assemblers for AMD64 write them in Intel's syntax.

ghost use Rattle.std.specs.Prelude.{◌≡◌, pos, ◌+ℤ◌, ◌≤ℤ◌};
ghost use Rattle.amd64_form.specs.Text.{reg_text, binary_text, unary_text, shift_text, condition_text};

use crate::condition::Condition;
use crate::inst::Inst;
use crate::operation::{BinaryOp, ShiftOp, UnaryOp};
use crate::reg::Reg;
use std::fmt;

impl Reg {
    /// The register's name in lower case: `rax`, `r8`.
    pub fn name(self) -> &'static str
        ensures { result.now ≡ reg_text self }
    {
        match self {
            Reg::Rax => "rax",
            Reg::Rcx => "rcx",
            Reg::Rdx => "rdx",
            Reg::Rbx => "rbx",
            Reg::Rsp => "rsp",
            Reg::Rbp => "rbp",
            Reg::Rsi => "rsi",
            Reg::Rdi => "rdi",
            Reg::R8 => "r8",
            Reg::R9 => "r9",
            Reg::R10 => "r10",
            Reg::R11 => "r11",
            Reg::R12 => "r12",
            Reg::R13 => "r13",
            Reg::R14 => "r14",
            Reg::R15 => "r15",
        }
    }
}

/// The register's name.
impl fmt::Display for Reg {
    ghost use Rattle.std.specs.Prelude.{Some};

    ghost output = { λ r. Some (reg_text r) };

    fn fmt<W: fmt::Write>(&self, f: &mut fmt::Formatter<W>) -> fmt::Result {
        f.write_str(self.name())
    }
}

impl BinaryOp {
    /// The operation's word: `add`, `cmp`.
    pub fn name(self) -> &'static str
        ensures { result.now ≡ binary_text self }
    {
        match self {
            BinaryOp::Add => "add",
            BinaryOp::Or => "or",
            BinaryOp::And => "and",
            BinaryOp::Sub => "sub",
            BinaryOp::Xor => "xor",
            BinaryOp::Cmp => "cmp",
            BinaryOp::Test => "test",
        }
    }
}

impl UnaryOp {
    /// The operation's word: `not`, `idiv`.
    pub fn name(self) -> &'static str
        ensures { result.now ≡ unary_text self }
    {
        match self {
            UnaryOp::Not => "not",
            UnaryOp::Neg => "neg",
            UnaryOp::Idiv => "idiv",
        }
    }
}

impl ShiftOp {
    /// The operation's word: `shl`, `sar`.
    pub fn name(self) -> &'static str
        ensures { result.now ≡ shift_text self }
    {
        match self {
            ShiftOp::Shl => "shl",
            ShiftOp::Shr => "shr",
            ShiftOp::Sar => "sar",
        }
    }
}

impl Condition {
    /// The condition's letters: `e`, `ae`.
    pub fn name(self) -> &'static str
        ensures { result.now ≡ condition_text self }
    {
        match self {
            Condition::O => "o",
            Condition::No => "no",
            Condition::B => "b",
            Condition::Ae => "ae",
            Condition::E => "e",
            Condition::Ne => "ne",
            Condition::Be => "be",
            Condition::A => "a",
            Condition::S => "s",
            Condition::Ns => "ns",
            Condition::L => "l",
            Condition::Ge => "ge",
            Condition::Le => "le",
            Condition::G => "g",
        }
    }
}

// A displacement, with its sign.
#[derive(Clone, Copy)]
struct Displacement(i64);

impl fmt::Display for Displacement {
    ghost use Rattle.std.specs.Prelude.{Some};
    ghost use Rattle.amd64_form.specs.Text.{displacement_text};

    ghost output = { λ d. Some (displacement_text d.0) };

    fn fmt<W: fmt::Write>(&self, f: &mut fmt::Formatter<W>) -> fmt::Result {
        if self.0 < 0 {
            write!(f, "{}", self.0)
        } else {
            write!(f, "+{}", self.0)
        }
    }
}

// The word in memory at a base and a displacement.
#[derive(Clone, Copy)]
struct Address(Reg, i32);

impl fmt::Display for Address {
    ghost use Rattle.std.specs.Prelude.{Some};
    ghost use Rattle.amd64_form.specs.Text.{address_text};

    ghost output = { λ a. Some (address_text a.0 a.1) };

    fn fmt<W: fmt::Write>(&self, f: &mut fmt::Formatter<W>) -> fmt::Result {
        write!(f, "[{}{}]", self.0, Displacement(i64::from(self.1)))
    }
}

// The target of a jump of so many bytes, from its own beginning.
fn target(bytes: i64, offset: i32) -> Displacement
    requires { (pos 0 ≤ℤ bytes) × (bytes ≤ℤ pos 15) }
    ensures { result.0 ≡ offset +ℤ bytes }
{
    Displacement(i64::from(offset) + bytes)
}

/// The instruction with its operands, the one that it writes first: `mov rdi, rax`, `add rax, -15`. A word in memory
/// is `[r15+24]`. The target of a jump is told from the jump's own beginning, which is the dot: `je .+20`.
impl fmt::Display for Inst {
    ghost use Rattle.std.specs.Prelude.{Some};
    ghost use Rattle.amd64_form.specs.Text.{inst_text};

    ghost output = { λ i. Some (inst_text i) };

    fn fmt<W: fmt::Write>(&self, f: &mut fmt::Formatter<W>) -> fmt::Result {
        match *self {
            Inst::Move { to, from } => write!(f, "mov {to}, {from}"),
            Inst::Load { to, base, offset } => write!(f, "mov {to}, {}", Address(base, offset)),
            Inst::Store { base, offset, from } => write!(
                f,
                "mov {}, {from}",
                Address(base, offset)
            ),
            Inst::LoadConstant { to, value } => write!(f, "mov {to}, {value}"),
            Inst::Binary { op, to, from } => write!(f, "{} {to}, {from}", op.name()),
            Inst::BinaryConstant { op, to, value } => write!(f, "{} {to}, {value}", op.name()),
            Inst::Unary { op, of } => write!(f, "{} {of}", op.name()),
            Inst::Multiply { to, by } => write!(f, "imul {to}, {by}"),
            Inst::SignExtend => write!(f, "cqo"),
            Inst::Shift { op, to, count } => write!(f, "{} {to}, {}", op.name(), count.bits()),
            Inst::ShiftByCl { op, to } => write!(f, "{} {to}, cl", op.name()),
            Inst::LoadAddress { to, base, offset } => write!(
                f,
                "lea {to}, {}",
                Address(base, offset)
            ),
            Inst::Jump(offset) => write!(f, "jmp .{}", target(5, offset)),
            Inst::Call(offset) => write!(f, "call .{}", target(5, offset)),
            Inst::JumpIf(condition, offset) => write!(
                f,
                "j{} .{}",
                condition.name(),
                target(6, offset)
            ),
            Inst::CallRegister(r) => write!(f, "call {r}"),
            Inst::JumpRegister(r) => write!(f, "jmp {r}"),
            Inst::Push(r) => write!(f, "push {r}"),
            Inst::Pop(r) => write!(f, "pop {r}"),
            Inst::Return => write!(f, "ret"),
            Inst::Syscall => write!(f, "syscall"),
        }
    }
}
