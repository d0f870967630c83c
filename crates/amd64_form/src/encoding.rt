//! From an instruction to its bytes.

ghost use Rattle.std.specs.Prelude.{◌≡◌, ◌+◌, ◌<◌, ◌≤◌, ◌++◌, length};
ghost use Rattle.amd64_form.specs.Operation.{opcode, opcode_of_constant, binary_digit, unary_digit, shift_digit};
ghost use Rattle.amd64_form.specs.Reg.{high, low};
ghost use Rattle.amd64_form.specs.Encoding.{rex, mod_rm, two_registers, one_register, short_register, near_register, constant_32, memory, encoding};

use crate::bytes::Bytes;
use crate::inst::Inst;
use crate::operation::{BinaryOp, ShiftOp, UnaryOp};
use crate::reg::Reg;

/// The encoding of the instruction: its only one that `decode` reads.
///
/// The opcodes and the fields of their bytes are those of the manual's volume 3, appendix A.
pub fn encode(inst: Inst) -> Bytes
    ensures { result ≡ encoding inst }
{
    match inst {
        Inst::Move { to, from } => two_registers(0x89, from, to),
        Inst::Load { to, base, offset } => memory(0x8B, to, base, offset),
        Inst::Store { base, offset, from } => memory(0x89, from, base, offset),
        Inst::LoadConstant { to, value } => load_constant(to, value),
        Inst::Binary { op, to, from } => two_registers(opcode(op), from, to),
        Inst::BinaryConstant { op, to, value } => {
            with_constant(
                one_register(opcode_of_constant(op), binary_digit(op), to),
                value,
            )
        }
        Inst::Unary { op, of } => one_register(0xF7, unary_digit(op), of),
        Inst::Multiply { to, by } => multiply(to, by),
        Inst::SignExtend => Bytes::from_slice(&[rex(1, 0, 0, 0), 0x99]),
        Inst::Shift { op, to, count } => {
            let mut bytes = one_register(0xC1, shift_digit(op), to);
            bytes.extend(&[count.bits()]);
            bytes
        }
        Inst::ShiftByCl { op, to } => one_register(0xD3, shift_digit(op), to),
        Inst::LoadAddress { to, base, offset } => memory(0x8D, to, base, offset),
        Inst::Jump(offset) => with_constant(Bytes::from_slice(&[0xE9]), offset),
        Inst::Call(offset) => with_constant(Bytes::from_slice(&[0xE8]), offset),
        Inst::JumpIf(condition, offset) => {
            with_constant(
                Bytes::from_slice(&[0x0F, 0x80 + condition.number()]),
                offset,
            )
        }
        Inst::CallRegister(m) => near_register(0xFF, 2, m),
        Inst::JumpRegister(m) => near_register(0xFF, 4, m),
        Inst::Push(r) => short_register(0x50, r),
        Inst::Pop(r) => short_register(0x58, r),
        Inst::Return => Bytes::from_slice(&[0xC3]),
        Inst::Syscall => Bytes::from_slice(&[0x0F, 0x05]),
    }
}

/// An opcode of 64 bits with register `r` in the field reg and register `m` in the field rm.
fn two_registers(opcode: u8, r: Reg, m: Reg) -> Bytes
    ensures { result ≡ two_registers opcode r m }
{
    Bytes::from_slice(&[rex(1, high(r), 0, high(m)), opcode, mod_rm(low(r), low(m))])
}

/// An opcode of 64 bits that goes on in the field reg, with register `m` in the field rm.
fn one_register(opcode: u8, digit: u8, m: Reg) -> Bytes
    requires { digit < 8 }
    ensures { result ≡ one_register opcode digit m }
{
    Bytes::from_slice(&[rex(1, 0, 0, high(m)), opcode, mod_rm(digit, low(m))])
}

/// These bytes and a signed constant of 32 bits.
fn with_constant(before: Bytes, value: i32) -> Bytes
    requires { length before ≤ 11 }
    ensures { result ≡ before ++ constant_32 value }
{
    let mut bytes = before;
    bytes.extend(&value.to_le_bytes());
    bytes
}

/// Loads the register with a constant of 64 bits.
fn load_constant(to: Reg, value: u64) -> Bytes
    ensures { result ≡ encoding (Inst.LoadConstant to value) }
{
    let mut bytes = Bytes::from_slice(&[rex(1, 0, 0, high(to)), 0xB8 + low(to)]);
    bytes.extend(&value.to_le_bytes());
    bytes
}

/// The signed product, whose opcode has two bytes.
fn multiply(to: Reg, by: Reg) -> Bytes
    ensures { result ≡ encoding (Inst.Multiply to by) }
{
    let prefix = rex(1, high(to), 0, high(by));
    Bytes::from_slice(&[prefix, 0x0F, 0xAF, mod_rm(low(to), low(by))])
}

/// An opcode of 64 bits with register `r` in the field reg, and the word in memory at the base and the displacement.
fn memory(opcode: u8, r: Reg, base: Reg, offset: i32) -> Bytes
    ensures { result ≡ memory opcode r base offset }
{
    let prefix = rex(1, high(r), 0, high(base));
    let mut bytes = Bytes::from_slice(&[prefix, opcode, 0x80 + 8 * low(r) + low(base)]);
    // In the field rm 4 says that a SIB byte follows: here one of the base alone.
    if low(base) == 4 {
        bytes.extend(&[0x24]);
    }
    with_constant(bytes, offset)
}

/// An opcode that has register `r` in its low three bits, and a prefix where `r` is r8 or above.
fn short_register(opcode: u8, r: Reg) -> Bytes
    requires { opcode + 8 ≤ 256 }
    ensures { result ≡ short_register opcode r }
{
    if r.number() < 8 {
        Bytes::from_slice(&[opcode + low(r)])
    } else {
        Bytes::from_slice(&[rex(0, 0, 0, 1), opcode + low(r)])
    }
}

/// An opcode that works on 64 bits without W and goes on in the field reg, and a prefix where `m` is r8 or above.
fn near_register(opcode: u8, digit: u8, m: Reg) -> Bytes
    requires { digit < 8 }
    ensures { result ≡ near_register opcode digit m }
{
    if m.number() < 8 {
        Bytes::from_slice(&[opcode, mod_rm(digit, low(m))])
    } else {
        Bytes::from_slice(&[rex(0, 0, 0, 1), opcode, mod_rm(digit, low(m))])
    }
}

/// The opcode of an operation with two registers.
fn opcode(op: BinaryOp) -> u8
    ensures { result ≡ opcode op }
{
    match op {
        BinaryOp::Add => 0x01,
        BinaryOp::Or => 0x09,
        BinaryOp::And => 0x21,
        BinaryOp::Sub => 0x29,
        BinaryOp::Xor => 0x31,
        BinaryOp::Cmp => 0x39,
        BinaryOp::Test => 0x85,
    }
}

/// The opcode of an operation with a register and a constant.
fn opcode_of_constant(op: BinaryOp) -> u8
    ensures { result ≡ opcode_of_constant op }
{
    match op {
        BinaryOp::Test => 0xF7,
        _ => 0x81,
    }
}

/// The number with which that opcode goes on.
fn binary_digit(op: BinaryOp) -> u8
    ensures digit { result ≡ binary_digit op }
    ensures bound { result < 8 }
{
    match op {
        BinaryOp::Add | BinaryOp::Test => 0,
        BinaryOp::Or => 1,
        BinaryOp::And => 4,
        BinaryOp::Sub => 5,
        BinaryOp::Xor => 6,
        BinaryOp::Cmp => 7,
    }
}

/// The number with which the opcode of an operation of one register goes on.
fn unary_digit(op: UnaryOp) -> u8
    ensures digit { result ≡ unary_digit op }
    ensures bound { result < 8 }
{
    match op {
        UnaryOp::Not => 2,
        UnaryOp::Neg => 3,
        UnaryOp::Idiv => 7,
    }
}

/// The number with which the opcode of a shift goes on.
fn shift_digit(op: ShiftOp) -> u8
    ensures digit { result ≡ shift_digit op }
    ensures bound { result < 8 }
{
    match op {
        ShiftOp::Shl => 4,
        ShiftOp::Shr => 5,
        ShiftOp::Sar => 7,
    }
}

/// The REX prefix of these four bits.
fn rex(w: u8, r: u8, x: u8, b: u8) -> u8
    requires bits { (w < 2) × (r < 2) × (x < 2) × (b < 2) }
    ensures { result ≡ rex w r x b }
{
    0x40 + 8 * w + 4 * r + 2 * x + b
}

/// The ModRM byte in register mode.
fn mod_rm(reg: u8, rm: u8) -> u8
    requires { (reg < 8) × (rm < 8) }
    ensures { result ≡ mod_rm reg rm }
{
    0xC0 + 8 * reg + rm
}

/// The top bit of a register's number.
fn high(r: Reg) -> u8
    ensures bit { result ≡ high r }
    ensures bound { result < 2 }
{
    r.number() / 8
}

/// The low three bits of a register's number.
fn low(r: Reg) -> u8
    ensures bits { result ≡ low r }
    ensures bound { result < 8 }
{
    r.number() % 8
}
