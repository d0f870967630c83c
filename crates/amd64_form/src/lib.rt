// The instructions of AMD64 that the compiler writes, and their bytes.
//
// `encode` gives the one encoding of an instruction that this crate knows, and `decode` reads the
// instruction at the beginning of some bytes. What `encode` writes is read again, whatever follows it, and
// nothing else is read: another encoding of the same instruction is unknown. Neither takes memory.
//
// The encodings are those of the AMD64 Architecture Programmer's Manual, Volume 3: General-Purpose and
// System Instructions, chapter 1 "Instruction Encoding" and appendix A "Opcode and Operand Encodings".
//
// Promises: `encode` gives the one encoding of an instruction, `decode` reads it again whatever follows it, and nothing else
// decodes; no encoding is a prefix of another.
//
// May touch: nothing, no memory either.
//
// Files:
//   bytes.rt       the bytes of one instruction
//   condition.rt   the conditions of jumps
//   decoding.rt    from bytes to the instruction that they begin with
//   encoding.rt    from an instruction to its bytes
//   form.rt        the table of forms, each with the bytes that it has
//   inst.rt        the instructions
//   operation.rt   operations, and the counts of shifts
//   reg.rt         the sixteen registers of 64 bits
//   text.rt        the text of registers, operations and instructions
#![tactic(auto)]

mod bytes;
mod condition;
mod decoding;
mod encoding;
mod form;
mod inst;
mod operation;
mod reg;
mod text;

pub use bytes::Bytes;
pub use condition::Condition;
pub use decoding::{DecodeFault, decode, one_spelling};
pub use encoding::encode;
pub use inst::Inst;
pub use operation::{BinaryOp, ShiftCount, ShiftOp, UnaryOp};
pub use reg::Reg;
