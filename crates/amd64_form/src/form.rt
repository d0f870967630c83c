//! The table of forms, in the order of the instructions in `Inst`.
//!
//! A new form has a line here in `Form`, `FORMS`, `parts` and `inst`, a line in `parts_of` and `inst_of` of
//! `specs/Form.antt`, and a line in `is_encoding`, `in_table` and `is_read_again` of `proofs/Rows.antt`. That no
//! two forms share bytes is computed from the table.

ghost use Rattle.std.specs.Prelude.{◌≡◌, ◌+◌, ◌≤◌, length, take};
ghost use Rattle.std.specs.Int.{w32, w64, from_le_bytes, cast_signed};
ghost use Rattle.amd64_form.specs.Form.{admits, parts_of, fit, reg_field, rm_field, load_of, store_of, load_address_of, inst_of};

use crate::condition::Condition;
use crate::inst::Inst;
use crate::operation::{BinaryOp, ShiftCount, ShiftOp, UnaryOp};
use crate::reg::Reg;

/// The values that one byte of an encoding may have.
#[derive(Clone, Copy)]
pub enum Part {
    /// This value alone.
    Byte(u8),

    /// A REX prefix with W set and X clear: R and B are the top bits of two registers.
    Wide,

    /// A REX prefix with W set, R and X clear: B is the top bit of a register.
    WideOne,

    /// This value, a multiple of 8, plus the low three bits of a register.
    Plus(u8),

    /// A ModRM byte in register mode: the low three bits of two registers.
    ModRm,

    /// A ModRM byte with a displacement of 32 bits: the low three bits of a register, and of a base that needs no SIB
    /// byte.
    Memory,

    /// The same with a base that needs a SIB byte, which follows.
    MemorySib,

    /// The count of a shift.
    Count,

    /// A byte of a constant.
    Any,
}

impl Part {
    fn admits(self, byte: u8) -> bool
        ensures { result ≡ admits self byte }
    {
        match self {
            Part::Byte(value) => byte == value,
            Part::Wide => matches!(byte, 0x48 | 0x49 | 0x4C | 0x4D),
            Part::WideOne => matches!(byte, 0x48 | 0x49),
            Part::Plus(value) => byte / 8 == value / 8,
            Part::ModRm => matches!(byte, 0xC0..=0xFF),
            Part::Memory => matches!(byte, 0x80..=0xBF) && byte % 8 != 4,
            Part::MemorySib => matches!(byte, 0x80..=0xBF) && byte % 8 == 4,
            Part::Count => byte < 64,
            Part::Any => true,
        }
    }
}

/// How bytes stand to a form.
#[derive(Clone, Copy, PartialEq, Eq)]
pub enum Fit {
    /// They begin with an encoding of this form.
    Whole,

    /// They break off inside an encoding of this form.
    Prefix,

    /// Neither.
    Apart,
}

/// A form of instruction: an opcode with the kinds of its operands. A register of an opcode without a
/// prefix and one with a prefix are two forms, and so are a base that needs no SIB byte and one that does.
#[derive(Clone, Copy)]
pub enum Form {
    Move,
    Load,
    LoadSib,
    Store,
    StoreSib,
    LoadConstant,
    Binary(BinaryOp),
    BinaryConstant(BinaryOp),
    Unary(UnaryOp),
    Multiply,
    SignExtend,
    Shift(ShiftOp),
    ShiftByCl(ShiftOp),
    LoadAddress,
    LoadAddressSib,
    Jump,
    Call,
    JumpIf(Condition),
    CallLow,
    CallHigh,
    JumpLow,
    JumpHigh,
    PushLow,
    PushHigh,
    PopLow,
    PopHigh,
    Return,
    Syscall,
}

/// Each form.
pub const FORMS: [Form; 59] = [
    Form::Move,
    Form::Load,
    Form::LoadSib,
    Form::Store,
    Form::StoreSib,
    Form::LoadConstant,
    Form::Binary(BinaryOp::Add),
    Form::Binary(BinaryOp::Or),
    Form::Binary(BinaryOp::And),
    Form::Binary(BinaryOp::Sub),
    Form::Binary(BinaryOp::Xor),
    Form::Binary(BinaryOp::Cmp),
    Form::Binary(BinaryOp::Test),
    Form::BinaryConstant(BinaryOp::Add),
    Form::BinaryConstant(BinaryOp::Or),
    Form::BinaryConstant(BinaryOp::And),
    Form::BinaryConstant(BinaryOp::Sub),
    Form::BinaryConstant(BinaryOp::Xor),
    Form::BinaryConstant(BinaryOp::Cmp),
    Form::BinaryConstant(BinaryOp::Test),
    Form::Unary(UnaryOp::Not),
    Form::Unary(UnaryOp::Neg),
    Form::Unary(UnaryOp::Idiv),
    Form::Multiply,
    Form::SignExtend,
    Form::Shift(ShiftOp::Shl),
    Form::Shift(ShiftOp::Shr),
    Form::Shift(ShiftOp::Sar),
    Form::ShiftByCl(ShiftOp::Shl),
    Form::ShiftByCl(ShiftOp::Shr),
    Form::ShiftByCl(ShiftOp::Sar),
    Form::LoadAddress,
    Form::LoadAddressSib,
    Form::Jump,
    Form::Call,
    Form::JumpIf(Condition::O),
    Form::JumpIf(Condition::No),
    Form::JumpIf(Condition::B),
    Form::JumpIf(Condition::Ae),
    Form::JumpIf(Condition::E),
    Form::JumpIf(Condition::Ne),
    Form::JumpIf(Condition::Be),
    Form::JumpIf(Condition::A),
    Form::JumpIf(Condition::S),
    Form::JumpIf(Condition::Ns),
    Form::JumpIf(Condition::L),
    Form::JumpIf(Condition::Ge),
    Form::JumpIf(Condition::Le),
    Form::JumpIf(Condition::G),
    Form::CallLow,
    Form::CallHigh,
    Form::JumpLow,
    Form::JumpHigh,
    Form::PushLow,
    Form::PushHigh,
    Form::PopLow,
    Form::PopHigh,
    Form::Return,
    Form::Syscall,
];

impl Form {
    /// The bytes of an encoding of this form, one after the other.
    pub fn parts(self) -> &'static [Part]
        ensures { result.now ≡ parts_of self }
    {
        use BinaryOp::*;
        use Condition::*;
        use Part::*;
        use ShiftOp::*;
        use UnaryOp::*;

        match self {
            Form::Move => &[Wide, Byte(0x89), ModRm],
            Form::Load => &[Wide, Byte(0x8B), Memory, Any, Any, Any, Any],
            Form::LoadSib => &[Wide, Byte(0x8B), MemorySib, Byte(0x24), Any, Any, Any, Any],
            Form::Store => &[Wide, Byte(0x89), Memory, Any, Any, Any, Any],
            Form::StoreSib => &[Wide, Byte(0x89), MemorySib, Byte(0x24), Any, Any, Any, Any],
            Form::LoadConstant => &[WideOne, Plus(0xB8), Any, Any, Any, Any, Any, Any, Any, Any],
            Form::Binary(Add) => &[Wide, Byte(0x01), ModRm],
            Form::Binary(Or) => &[Wide, Byte(0x09), ModRm],
            Form::Binary(And) => &[Wide, Byte(0x21), ModRm],
            Form::Binary(Sub) => &[Wide, Byte(0x29), ModRm],
            Form::Binary(Xor) => &[Wide, Byte(0x31), ModRm],
            Form::Binary(Cmp) => &[Wide, Byte(0x39), ModRm],
            Form::Binary(Test) => &[Wide, Byte(0x85), ModRm],
            Form::BinaryConstant(Add) => &[WideOne, Byte(0x81), Plus(0xC0), Any, Any, Any, Any],
            Form::BinaryConstant(Or) => &[WideOne, Byte(0x81), Plus(0xC8), Any, Any, Any, Any],
            Form::BinaryConstant(And) => &[WideOne, Byte(0x81), Plus(0xE0), Any, Any, Any, Any],
            Form::BinaryConstant(Sub) => &[WideOne, Byte(0x81), Plus(0xE8), Any, Any, Any, Any],
            Form::BinaryConstant(Xor) => &[WideOne, Byte(0x81), Plus(0xF0), Any, Any, Any, Any],
            Form::BinaryConstant(Cmp) => &[WideOne, Byte(0x81), Plus(0xF8), Any, Any, Any, Any],
            Form::BinaryConstant(Test) => &[WideOne, Byte(0xF7), Plus(0xC0), Any, Any, Any, Any],
            Form::Unary(Not) => &[WideOne, Byte(0xF7), Plus(0xD0)],
            Form::Unary(Neg) => &[WideOne, Byte(0xF7), Plus(0xD8)],
            Form::Unary(Idiv) => &[WideOne, Byte(0xF7), Plus(0xF8)],
            Form::Multiply => &[Wide, Byte(0x0F), Byte(0xAF), ModRm],
            Form::SignExtend => &[Byte(0x48), Byte(0x99)],
            Form::Shift(Shl) => &[WideOne, Byte(0xC1), Plus(0xE0), Count],
            Form::Shift(Shr) => &[WideOne, Byte(0xC1), Plus(0xE8), Count],
            Form::Shift(Sar) => &[WideOne, Byte(0xC1), Plus(0xF8), Count],
            Form::ShiftByCl(Shl) => &[WideOne, Byte(0xD3), Plus(0xE0)],
            Form::ShiftByCl(Shr) => &[WideOne, Byte(0xD3), Plus(0xE8)],
            Form::ShiftByCl(Sar) => &[WideOne, Byte(0xD3), Plus(0xF8)],
            Form::LoadAddress => &[Wide, Byte(0x8D), Memory, Any, Any, Any, Any],
            Form::LoadAddressSib => &[Wide, Byte(0x8D), MemorySib, Byte(0x24), Any, Any, Any, Any],
            Form::Jump => &[Byte(0xE9), Any, Any, Any, Any],
            Form::Call => &[Byte(0xE8), Any, Any, Any, Any],
            Form::JumpIf(O) => &[Byte(0x0F), Byte(0x80), Any, Any, Any, Any],
            Form::JumpIf(No) => &[Byte(0x0F), Byte(0x81), Any, Any, Any, Any],
            Form::JumpIf(B) => &[Byte(0x0F), Byte(0x82), Any, Any, Any, Any],
            Form::JumpIf(Ae) => &[Byte(0x0F), Byte(0x83), Any, Any, Any, Any],
            Form::JumpIf(E) => &[Byte(0x0F), Byte(0x84), Any, Any, Any, Any],
            Form::JumpIf(Ne) => &[Byte(0x0F), Byte(0x85), Any, Any, Any, Any],
            Form::JumpIf(Be) => &[Byte(0x0F), Byte(0x86), Any, Any, Any, Any],
            Form::JumpIf(A) => &[Byte(0x0F), Byte(0x87), Any, Any, Any, Any],
            Form::JumpIf(S) => &[Byte(0x0F), Byte(0x88), Any, Any, Any, Any],
            Form::JumpIf(Ns) => &[Byte(0x0F), Byte(0x89), Any, Any, Any, Any],
            Form::JumpIf(L) => &[Byte(0x0F), Byte(0x8C), Any, Any, Any, Any],
            Form::JumpIf(Ge) => &[Byte(0x0F), Byte(0x8D), Any, Any, Any, Any],
            Form::JumpIf(Le) => &[Byte(0x0F), Byte(0x8E), Any, Any, Any, Any],
            Form::JumpIf(G) => &[Byte(0x0F), Byte(0x8F), Any, Any, Any, Any],
            Form::CallLow => &[Byte(0xFF), Plus(0xD0)],
            Form::CallHigh => &[Byte(0x41), Byte(0xFF), Plus(0xD0)],
            Form::JumpLow => &[Byte(0xFF), Plus(0xE0)],
            Form::JumpHigh => &[Byte(0x41), Byte(0xFF), Plus(0xE0)],
            Form::PushLow => &[Plus(0x50)],
            Form::PushHigh => &[Byte(0x41), Plus(0x50)],
            Form::PopLow => &[Plus(0x58)],
            Form::PopHigh => &[Byte(0x41), Plus(0x58)],
            Form::Return => &[Byte(0xC3)],
            Form::Syscall => &[Byte(0x0F), Byte(0x05)],
        }
    }

    /// How the bytes stand to this form.
    pub fn fit(self, bytes: &[u8]) -> Fit
        ensures { result ≡ fit (parts_of self) bytes.now }
    {
        for (i, part) in self.parts().iter().enumerate() {
            if i >= bytes.len() {
                return Fit::Prefix;
            }
            if !part.admits(bytes[i]) {
                return Fit::Apart;
            }
        }
        Fit::Whole
    }

    /// The instruction that an encoding of this form stands for.
    pub fn inst(self, bytes: &[u8]) -> Inst
        requires { length (parts_of self) ≤ length bytes.now }
        ensures { result ≡ inst_of self bytes.now }
    {
        match self {
            Form::Move => Inst::Move {
                to: rm_field(bytes[0], bytes[2]),
                from: reg_field(bytes[0], bytes[2]),
            },
            Form::Load => load(bytes, 3),
            Form::LoadSib => load(bytes, 4),
            Form::Store => store(bytes, 3),
            Form::StoreSib => store(bytes, 4),
            Form::LoadConstant => Inst::LoadConstant {
                to: rm_field(bytes[0], bytes[1]),
                value: constant_64(&bytes[2..]),
            },
            Form::Binary(op) => Inst::Binary {
                op,
                to: rm_field(bytes[0], bytes[2]),
                from: reg_field(bytes[0], bytes[2]),
            },
            Form::BinaryConstant(op) => Inst::BinaryConstant {
                op,
                to: rm_field(bytes[0], bytes[2]),
                value: constant_32(&bytes[3..]),
            },
            Form::Unary(op) => Inst::Unary {
                op,
                of: rm_field(bytes[0], bytes[2]),
            },
            Form::Multiply => Inst::Multiply {
                to: reg_field(bytes[0], bytes[3]),
                by: rm_field(bytes[0], bytes[3]),
            },
            Form::SignExtend => Inst::SignExtend,
            Form::Shift(op) => Inst::Shift {
                op,
                to: rm_field(bytes[0], bytes[2]),
                count: ShiftCount::new(bytes[3] % 64),
            },
            Form::ShiftByCl(op) => Inst::ShiftByCl {
                op,
                to: rm_field(bytes[0], bytes[2]),
            },
            Form::LoadAddress => load_address(bytes, 3),
            Form::LoadAddressSib => load_address(bytes, 4),
            Form::Jump => Inst::Jump(constant_32(&bytes[1..])),
            Form::Call => Inst::Call(constant_32(&bytes[1..])),
            Form::JumpIf(condition) => Inst::JumpIf(condition, constant_32(&bytes[2..])),
            Form::CallLow => Inst::CallRegister(rm_field(0, bytes[1])),
            Form::CallHigh => Inst::CallRegister(rm_field(bytes[0], bytes[2])),
            Form::JumpLow => Inst::JumpRegister(rm_field(0, bytes[1])),
            Form::JumpHigh => Inst::JumpRegister(rm_field(bytes[0], bytes[2])),
            Form::PushLow => Inst::Push(rm_field(0, bytes[0])),
            Form::PushHigh => Inst::Push(rm_field(bytes[0], bytes[1])),
            Form::PopLow => Inst::Pop(rm_field(0, bytes[0])),
            Form::PopHigh => Inst::Pop(rm_field(bytes[0], bytes[1])),
            Form::Return => Inst::Return,
            Form::Syscall => Inst::Syscall,
        }
    }
}

/// A load whose displacement begins at this byte.
fn load(bytes: &[u8], at: usize) -> Inst
    requires { (3 ≤ at) × (at + 4 ≤ length bytes.now) }
    ensures { result ≡ load_of at bytes.now }
{
    Inst::Load {
        to: reg_field(bytes[0], bytes[2]),
        base: rm_field(bytes[0], bytes[2]),
        offset: constant_32(&bytes[at..]),
    }
}

/// A store whose displacement begins at this byte.
fn store(bytes: &[u8], at: usize) -> Inst
    requires { (3 ≤ at) × (at + 4 ≤ length bytes.now) }
    ensures { result ≡ store_of at bytes.now }
{
    Inst::Store {
        base: rm_field(bytes[0], bytes[2]),
        offset: constant_32(&bytes[at..]),
        from: reg_field(bytes[0], bytes[2]),
    }
}

/// The address of a word in memory whose displacement begins at this byte.
fn load_address(bytes: &[u8], at: usize) -> Inst
    requires { (3 ≤ at) × (at + 4 ≤ length bytes.now) }
    ensures { result ≡ load_address_of at bytes.now }
{
    Inst::LoadAddress {
        to: reg_field(bytes[0], bytes[2]),
        base: rm_field(bytes[0], bytes[2]),
        offset: constant_32(&bytes[at..]),
    }
}

/// The register of the field reg: its top bit is R of the prefix.
fn reg_field(prefix: u8, mod_rm: u8) -> Reg
    ensures { result ≡ reg_field prefix mod_rm }
{
    Reg::from_number(8 * (prefix / 4 % 2) + mod_rm / 8 % 8)
}

/// The register in the low three bits of a byte: its top bit is B of the prefix.
fn rm_field(prefix: u8, byte: u8) -> Reg
    ensures { result ≡ rm_field prefix byte }
{
    Reg::from_number(8 * (prefix % 2) + byte % 8)
}

/// The constant of 64 bits at the beginning.
fn constant_64(bytes: &[u8]) -> u64
    requires { 8 ≤ length bytes.now }
    ensures { result ≡ from_le_bytes w64 (take 8 bytes.now) }
{
    u64::from_le_bytes([
        bytes[0], bytes[1], bytes[2], bytes[3], bytes[4], bytes[5], bytes[6], bytes[7],
    ])
}

/// The signed constant of 32 bits at the beginning.
fn constant_32(bytes: &[u8]) -> i32
    requires { 4 ≤ length bytes.now }
    ensures { result ≡ cast_signed w32 (from_le_bytes w32 (take 4 bytes.now)) }
{
    i32::from_le_bytes([bytes[0], bytes[1], bytes[2], bytes[3]])
}
