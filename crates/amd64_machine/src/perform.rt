// What each instruction does.
ghost use Rattle.std.specs.Prelude.{◌≡◌, ◌<◌};
ghost use Rattle.region_memory.specs.Regions.{word_at};
ghost use Rattle.region_memory.specs.Regions.{with_word as regions_with};
ghost use Rattle.amd64_machine.specs.Arithmetic.{holds};
ghost use Rattle.amd64_machine.specs.Fetch.{Here};
ghost use Rattle.amd64_machine.specs.Machine.{Goes, act, loaded, stored, branched, unary, binary, divide, multiply, shift, push, pop, go_back};
ghost use Rattle.amd64_machine.specs.Machine.{displaced as displaced_to};
ghost use Rattle.amd64_machine.specs.Machine.{put as registers_with};
ghost use Rattle.amd64_machine.specs.Seen.{IsKept, step_seen, registers_seen};

use super::arithmetic::{
    divided, flags_of, flags_of_difference, flags_of_product, holds, result_of, shifted, sign_word,
};
use super::state::{Core, Did, Flags, get, put};
use amd64_form::{BinaryOp, Condition, Inst, Reg, ShiftOp, UnaryOp};

// An address with a displacement.
fn displaced(address: u64, offset: i32) -> u64
    ensures { result ≡ displaced_to address offset }
{
    address.wrapping_add(i64::from(offset).cast_unsigned())
}

// Goes on at an address.
fn go(core: &mut Core, target: u64) -> Did
    ensures step { step_seen core.new result ≡ Goes target (registers_seen core.old.registers) core.old.flags core.old.region }
    ensures kept { IsKept core.old core.new result }
{
    core.at = target;
    Did::Goes
}

// Puts a word into a register and goes on.
fn set(core: &mut Core, to: Reg, word: u64, next: u64) -> Did
    ensures step { step_seen core.new result
        ≡ Goes next (registers_with to word (registers_seen core.old.registers)) core.old.flags core.old.region }
    ensures kept { IsKept core.old core.new result }
{
    put(&mut core.registers, to, word);
    core.at = next;
    Did::Goes
}

// Loads a register from the word at an address and goes on.
fn load(core: &mut Core, to: Reg, address: u64, next: u64) -> Did
    ensures step { step_seen core.new result ≡ loaded next to (registers_seen core.old.registers) core.old.flags
        core.old.region (word_at core.old.region address) }
    ensures kept { IsKept core.old core.new result }
{
    match core.region.read(address) {
        Some(word) => set(core, to, word, next),
        None => Did::Stops,
    }
}

// Stores a word at an address and goes on.
fn store(core: &mut Core, address: u64, word: u64, next: u64) -> Did
    ensures step { step_seen core.new result ≡ stored next (registers_seen core.old.registers) core.old.flags
        (regions_with core.old.region address word) }
    ensures kept { IsKept core.old core.new result }
{
    if !core.region.write(address, word) {
        return Did::Stops;
    }
    go(core, next)
}

// Does an operation of a register and a word, and goes on.
fn binary(core: &mut Core, op: BinaryOp, to: Reg, word: u64, next: u64) -> Did
    ensures step { step_seen core.new result ≡ binary next op to word (registers_seen core.old.registers) core.old.region }
    ensures kept { IsKept core.old core.new result }
{
    let before = get(&core.registers, to);
    core.flags = flags_of(op, before, word);
    match result_of(op, before, word) {
        Some(word) => set(core, to, word, next),
        None => go(core, next),
    }
}

// Divides rdx:rax by a word and goes on.
fn divide(core: &mut Core, by: u64, next: u64) -> Did
    ensures step { step_seen core.new result ≡ divide next by (registers_seen core.old.registers) core.old.region }
    ensures kept { IsKept core.old core.new result }
{
    let high = get(&core.registers, Reg::Rdx);
    let low = get(&core.registers, Reg::Rax);
    match divided(high, low, by) {
        Some((quotient, remainder)) => {
            core.flags = Flags::UNKNOWN;
            put(&mut core.registers, Reg::Rax, quotient);
            set(core, Reg::Rdx, remainder, next)
        }
        None => Did::Stops,
    }
}

// Does an operation of one register and goes on.
fn unary(core: &mut Core, op: UnaryOp, of: Reg, next: u64) -> Did
    ensures step { step_seen core.new result ≡ unary next op of (registers_seen core.old.registers) core.old.flags
        core.old.region }
    ensures kept { IsKept core.old core.new result }
{
    let word = get(&core.registers, of);
    match op {
        UnaryOp::Not => set(core, of, !word, next),
        UnaryOp::Neg => {
            core.flags = flags_of_difference(0, word);
            set(core, of, 0u64.wrapping_sub(word), next)
        }
        UnaryOp::Idiv => divide(core, word, next),
    }
}

// Multiplies a register by a word and goes on.
fn multiply(core: &mut Core, to: Reg, word: u64, next: u64) -> Did
    ensures step { step_seen core.new result ≡ multiply next to word (registers_seen core.old.registers) core.old.region }
    ensures kept { IsKept core.old core.new result }
{
    let before = get(&core.registers, to);
    core.flags = flags_of_product(before, word);
    set(core, to, before.wrapping_mul(word), next)
}

// Shifts a register and goes on.
fn shift(core: &mut Core, op: ShiftOp, to: Reg, count: u8, next: u64) -> Did
    requires { count < 64 }
    ensures step { step_seen core.new result ≡ shift next op to count (registers_seen core.old.registers) core.old.region }
    ensures kept { IsKept core.old core.new result }
{
    let before = get(&core.registers, to);
    core.flags = Flags::UNKNOWN;
    set(core, to, shifted(op, before, count), next)
}

// Pushes a word and goes on.
fn push(core: &mut Core, word: u64, next: u64) -> Did
    ensures step { step_seen core.new result ≡ push next word (registers_seen core.old.registers) core.old.flags core.old.region }
    ensures kept { IsKept core.old core.new result }
{
    let top = get(&core.registers, Reg::Rsp).wrapping_sub(8);
    if !core.region.write(top, word) {
        return Did::Stops;
    }
    set(core, Reg::Rsp, top, next)
}

// Pops a word into a register and goes on.
fn pop(core: &mut Core, r: Reg, next: u64) -> Did
    ensures step { step_seen core.new result ≡ pop next r (registers_seen core.old.registers) core.old.flags core.old.region }
    ensures kept { IsKept core.old core.new result }
{
    let top = get(&core.registers, Reg::Rsp);
    let Some(word) = core.region.read(top) else {
        return Did::Stops;
    };
    put(&mut core.registers, Reg::Rsp, top.wrapping_add(8));
    set(core, r, word, next)
}

// Pops an address and goes on there.
fn go_back(core: &mut Core) -> Did
    ensures step { step_seen core.new result ≡ go_back (registers_seen core.old.registers) core.old.flags core.old.region }
    ensures kept { IsKept core.old core.new result }
{
    let top = get(&core.registers, Reg::Rsp);
    let Some(target) = core.region.read(top) else {
        return Did::Stops;
    };
    set(core, Reg::Rsp, top.wrapping_add(8), target)
}

// Goes on at a target where a condition holds, else at the next instruction.
fn branch(core: &mut Core, condition: Condition, target: u64, next: u64) -> Did
    ensures step { step_seen core.new result ≡ branched target next (registers_seen core.old.registers) core.old.flags
        core.old.region (holds condition core.old.flags) }
    ensures kept { IsKept core.old core.new result }
{
    match holds(condition, core.flags) {
        Some(true) => go(core, target),
        Some(false) => go(core, next),
        None => Did::Stops,
    }
}

// Does an instruction, with the next one's address. A service isn't done: nothing changes where it is called.
pub(crate) fn perform(core: &mut Core, inst: Inst, next: u64) -> Did
    ensures step { step_seen core.new result ≡ act (Here inst next)
        (registers_seen core.old.registers) core.old.flags core.old.region }
    ensures kept { IsKept core.old core.new result }
{
    match inst {
        Inst::Move { to, from } => {
            let word = get(&core.registers, from);
            set(core, to, word, next)
        }
        Inst::Load { to, base, offset } => {
            let address = displaced(get(&core.registers, base), offset);
            load(core, to, address, next)
        }
        Inst::Store { base, offset, from } => {
            let address = displaced(get(&core.registers, base), offset);
            let word = get(&core.registers, from);
            store(core, address, word, next)
        }
        Inst::LoadConstant { to, value } => set(core, to, value, next),
        Inst::Binary { op, to, from } => {
            let word = get(&core.registers, from);
            binary(core, op, to, word, next)
        }
        Inst::BinaryConstant { op, to, value } => {
            binary(core, op, to, i64::from(value).cast_unsigned(), next)
        }
        Inst::Unary { op, of } => unary(core, op, of, next),
        Inst::Multiply { to, by } => {
            let word = get(&core.registers, by);
            multiply(core, to, word, next)
        }
        Inst::SignExtend => {
            let word = sign_word(get(&core.registers, Reg::Rax));
            set(core, Reg::Rdx, word, next)
        }
        Inst::Shift { op, to, count } => shift(core, op, to, count.bits() % 64, next),
        Inst::ShiftByCl { op, to } => {
            let count = get(&core.registers, Reg::Rcx) % 64;
            shift(core, op, to, count as u8, next)
        }
        Inst::LoadAddress { to, base, offset } => {
            let address = displaced(get(&core.registers, base), offset);
            set(core, to, address, next)
        }
        Inst::Jump(offset) => go(core, displaced(next, offset)),
        Inst::Call(offset) => push(core, next, displaced(next, offset)),
        Inst::JumpIf(condition, offset) => branch(core, condition, displaced(next, offset), next),
        Inst::CallRegister(r) => {
            let target = get(&core.registers, r);
            push(core, next, target)
        }
        Inst::JumpRegister(r) => {
            let target = get(&core.registers, r);
            go(core, target)
        }
        Inst::Push(r) => {
            let word = get(&core.registers, r);
            push(core, word, next)
        }
        Inst::Pop(r) => pop(core, r, next),
        Inst::Return => go_back(core),
        Inst::Syscall => Did::Calls(next),
    }
}
