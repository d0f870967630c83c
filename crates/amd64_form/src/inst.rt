//! The instructions.

use crate::condition::Condition;
use crate::operation::{BinaryOp, ShiftCount, ShiftOp, UnaryOp};
use crate::reg::Reg;

/// An instruction. Each works on words of 64 bits. A constant of 32 bits is extended by its sign, and sums of
/// addresses are modulo 2^64.
#[derive(Clone, Copy, PartialEq, Eq, Debug)]
pub enum Inst {
    /// `mov to, from`: copies the register `from` into `to`.
    Move {
        to: Reg,
        from: Reg,
    },

    /// `mov to, [base+offset]`: loads the register from the word in memory.
    Load {
        to: Reg,
        base: Reg,
        offset: i32,
    },

    /// `mov [base+offset], from`: stores the register at the word in memory.
    Store {
        base: Reg,
        offset: i32,
        from: Reg,
    },

    /// `mov to, value`: sets the register to the constant.
    LoadConstant {
        to: Reg,
        value: u64,
    },

    /// `op to, from`: the operation of both registers. It sets the flags, and `to` where the operation has a result.
    Binary {
        op: BinaryOp,
        to: Reg,
        from: Reg,
    },

    /// `op to, value`: the same with a constant.
    BinaryConstant {
        op: BinaryOp,
        to: Reg,
        value: i32,
    },

    /// `op of`: the operation of the register.
    Unary {
        op: UnaryOp,
        of: Reg,
    },

    /// `imul to, by`: the signed product, modulo 2^64, into `to`.
    Multiply {
        to: Reg,
        by: Reg,
    },

    /// `cqo`: fills rdx with the top bit of rax.
    SignExtend,

    /// `op to, count`: shifts the register by so many bits.
    Shift {
        op: ShiftOp,
        to: Reg,
        count: ShiftCount,
    },

    /// `op to, cl`: shifts the register by rcx modulo 64.
    ShiftByCl {
        op: ShiftOp,
        to: Reg,
    },

    /// `lea to, [base+offset]`: the address itself into `to`.
    LoadAddress {
        to: Reg,
        base: Reg,
        offset: i32,
    },

    /// `jmp`: goes on so many bytes behind the next instruction.
    Jump(i32),

    /// `call`: pushes the address of the next instruction, and goes on so many bytes behind it.
    Call(i32),

    /// `j`: goes on so many bytes behind the next instruction where the condition holds, else at the next one.
    JumpIf(Condition, i32),

    /// `call r`: pushes the address of the next instruction, and goes on at what the register held before.
    CallRegister(Reg),

    /// `jmp r`: goes on at the address in the register.
    JumpRegister(Reg),

    /// `push r`: lowers rsp by 8, and stores at rsp what the register held before.
    Push(Reg),

    /// `pop r`: loads the register from the word at rsp, and raises rsp by 8 before the register is set.
    Pop(Reg),

    /// `ret`: pops the address at which it goes on.
    Return,

    /// `syscall`: calls the service whose number is in rax.
    Syscall,
}
