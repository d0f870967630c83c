// The code of one function, and the code that every program begins with.

ghost use Rattle.std.specs.Prelude.{◌≡◌, ◌++◌, OnOk};
ghost use Rattle.amd64_form.specs.Encoding.{encoding};
ghost use Rattle.image_link.specs.Code.{exit_bytes};

use amd64_form::{Inst, Reg, ShiftCount, ShiftOp, encode};
use hipe_base::Memory;
use sqlite_items::Items;

/// A call in the code of a function, whose displacement is filled by `link`.
#[derive(Clone, Copy, PartialEq, Eq, Debug)]
pub struct CallSite {
    /// Where the four bytes of the displacement stand in the function's code.
    pub at: u32,

    /// The number of the function that is called.
    pub target: u32,
}

/// The code of one function before it is linked.
#[derive(Debug, Drop)]
pub struct Code {
    /// The bytes, with any four at each call's displacement.
    pub bytes: Items<u8>,

    /// The calls of functions of the program.
    pub calls: Items<CallSite>,

    /// Where a call of the function as a value begins, in bytes from the start of the part: the fun is in rax, and its captured
    /// values are loaded from it. A definition captures nothing, so it is entered at its first byte: 0.
    pub closure_entry: u32,
}

// Appends one instruction.
fn put(inst: Inst, code: &mut Vec<u8>) -> Result<(), Memory>
    ensures { OnOk result (code.new.items ≡ code.old.items ++ encoding inst) }
{
    code.extend_from_slice(encode(inst).as_slice())
}

// Appends the exit part.
pub(crate) fn put_exit(code: &mut Vec<u8>) -> Result<(), Memory>
    ensures { OnOk result (code.new.items ≡ code.old.items ++ exit_bytes) }
{
    let value = Inst::Move {
        to: Reg::Rdi,
        from: Reg::Rax,
    };
    put(value, code)?;
    let class = Inst::Move {
        to: Reg::Rsi,
        from: Reg::Rdx,
    };
    put(class, code)?;
    let rounded = Inst::LoadAddress {
        to: Reg::Rax,
        base: Reg::Rdx,
        offset: 3,
    };
    put(rounded, code)?;
    let service = Inst::Shift {
        op: ShiftOp::Shr,
        to: Reg::Rax,
        count: ShiftCount::new(2),
    };
    put(service, code)?;
    put(Inst::Syscall, code)
}
