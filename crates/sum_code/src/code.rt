// The code of a sum.

ghost use Rattle.std.specs.Prelude.{◌≡◌, ◌++◌, IfOk, OnOk};
ghost use Rattle.amd64_form.specs.Encoding.{encoding};
ghost use Rattle.heap_terms.specs.Integers.{IsInteger, word_of};
ghost use Rattle.core_sum.specs.Sums.{HasSmallIntegers};
ghost use Rattle.sum_code.specs.Code.{addition, evaluation, ending, bytes_of, code_for};

use amd64_form::{BinaryOp, Inst, Reg, encode};
use core_sum::Sum;
use heap_terms::tags::{INTEGER_SCALE, INTEGER_TAG};
use hipe_base::Memory;
use std::alloc::Global;

// The word that stands for an integer.
fn word(n: i64) -> u64
    requires { IsInteger n }
    ensures { result ≡ word_of n }
{
    (INTEGER_SCALE as i64 * n + INTEGER_TAG as i64).cast_unsigned()
}

// Appends one instruction.
fn put(inst: Inst, code: &mut Vec<u8>) -> Result<(), Memory>
    ensures { OnOk result (code.new.items ≡ code.old.items ++ encoding inst) }
{
    code.extend_from_slice(encode(inst).as_slice())
}

// Appends the instructions that add the word on top of the stack to rax.
fn add(code: &mut Vec<u8>) -> Result<(), Memory>
    ensures { OnOk result (code.new.items ≡ code.old.items ++ bytes_of addition) }
{
    put(Inst::Pop(Reg::Rcx), code)?;
    let sum = Inst::Binary {
        op: BinaryOp::Add,
        to: Reg::Rax,
        from: Reg::Rcx,
    };
    put(sum, code)?;
    let tag = Inst::BinaryConstant {
        op: BinaryOp::Add,
        to: Reg::Rax,
        value: -(INTEGER_TAG as i32),
    };
    put(tag, code)
}

// Appends the instructions that leave the word of a sum's value in rax.
#[tactic(auto, using(crate::proofs::Levels::levels))]
fn evaluate(e: &Sum, code: &mut Vec<u8>) -> Result<(), Memory>
    requires { HasSmallIntegers e.now }
    ensures { OnOk result (code.new.items ≡ code.old.items ++ bytes_of (evaluation e.now)) }
{
    match e {
        Sum::Int(n) => {
            let load = Inst::LoadConstant {
                to: Reg::Rax,
                value: word(*n),
            };
            put(load, code)
        }
        Sum::Plus(a, b) => {
            evaluate(a.get(), code)?;
            put(Inst::Push(Reg::Rax), code)?;
            evaluate(b.get(), code)?;
            add(code)
        }
    }
}

// Appends the instructions that go back with the value in rax.
fn end(code: &mut Vec<u8>) -> Result<(), Memory>
    ensures { OnOk result (code.new.items ≡ code.old.items ++ bytes_of ending) }
{
    let normal = Inst::LoadConstant {
        to: Reg::Rdx,
        value: 0,
    };
    put(normal, code)?;
    put(Inst::Return, code)
}

// The code of a function that goes back with a sum's value: the values that wait for their other part stand on the stack, and
// the last value is in rax.
pub(crate) fn code_of(alloc: Global, e: &Sum) -> Result<Vec<u8>, Memory>
    requires { HasSmallIntegers e.now }
    ensures { IfOk result (λ code. code.items ≡ code_for e.now) }
{
    let mut code = Vec::new(alloc);
    evaluate(e, &mut code)?;
    end(&mut code)?;
    Ok(code)
}
