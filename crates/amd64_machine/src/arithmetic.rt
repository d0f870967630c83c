// What instructions compute of words, and the flags that they leave.
ghost use Rattle.std.specs.Prelude.{◌≡◌, ◌≢◌, ◌<◌, pos, int_rem};
ghost use Rattle.amd64_machine.specs.Arithmetic.{flags_with, flags_of_sum, flags_of_difference, flags_of_bits, flags_of_product, result_of, flags_of, sign_word, signed, double, quotient_of, divided, shifted, contrary, either_of, differ, holds, ConditionsCompare};

use super::state::Flags;
use amd64_form::{BinaryOp, Condition, ShiftOp};

// The flags of a result with this CF and this OF.
fn flags_with(carry: bool, overflow: bool, word: u64) -> Flags
    ensures { result ≡ flags_with carry overflow word }
{
    Flags {
        carry: Some(carry),
        zero: Some(word == 0),
        sign: Some(word >= 1 << 63),
        overflow: Some(overflow),
    }
}

// The flags of a sum.
fn flags_of_sum(a: u64, b: u64) -> Flags
    ensures { result ≡ flags_of_sum a b }
{
    let (sum, carry) = a.overflowing_add(b);
    let (_, overflow) = a.cast_signed().overflowing_add(b.cast_signed());
    flags_with(carry, overflow, sum)
}

// The flags of a difference.
pub(crate) fn flags_of_difference(a: u64, b: u64) -> Flags
    ensures { result ≡ flags_of_difference a b }
{
    let (difference, borrow) = a.overflowing_sub(b);
    let (_, overflow) = a.cast_signed().overflowing_sub(b.cast_signed());
    flags_with(borrow, overflow, difference)
}

// The flags of a signed product.
pub(crate) fn flags_of_product(a: u64, b: u64) -> Flags
    ensures { result ≡ flags_of_product a b }
{
    let (_, overflow) = a.cast_signed().overflowing_mul(b.cast_signed());
    Flags {
        carry: Some(overflow),
        zero: None,
        sign: None,
        overflow: Some(overflow),
    }
}

// The flags after an operation of two words.
pub(crate) fn flags_of(op: BinaryOp, a: u64, b: u64) -> Flags
    ensures { result ≡ flags_of op a b }
{
    match op {
        BinaryOp::Add => flags_of_sum(a, b),
        BinaryOp::Or => flags_with(false, false, a | b),
        BinaryOp::And => flags_with(false, false, a & b),
        BinaryOp::Sub => flags_of_difference(a, b),
        BinaryOp::Xor => flags_with(false, false, a ^ b),
        BinaryOp::Cmp => flags_of_difference(a, b),
        BinaryOp::Test => flags_with(false, false, a & b),
    }
}

// The result of an operation of two words, if it has one.
pub(crate) fn result_of(op: BinaryOp, a: u64, b: u64) -> Option<u64>
    ensures { result ≡ result_of op a b }
{
    match op {
        BinaryOp::Add => Some(a.wrapping_add(b)),
        BinaryOp::Or => Some(a | b),
        BinaryOp::And => Some(a & b),
        BinaryOp::Sub => Some(a.wrapping_sub(b)),
        BinaryOp::Xor => Some(a ^ b),
        BinaryOp::Cmp => None,
        BinaryOp::Test => None,
    }
}

// The top bit of a word in each bit.
pub(crate) fn sign_word(word: u64) -> u64
    ensures { result ≡ sign_word word }
{
    if word >= 1 << 63 { u64::MAX } else { 0 }
}

// The signed number of 128 bits in two words.
fn double(high: u64, low: u64) -> i128
    ensures { result ≡ double high low }
{
    i128::from(high.cast_signed()) * (1 << 64) + i128::from(low)
}

// The signed quotient, if it fits.
fn quotient(dividend: i128, divisor: i64) -> Option<i64>
    requires { divisor ≢ pos 0 }
    ensures { result ≡ quotient_of dividend divisor }
{
    match i64::try_from(dividend.wrapping_div(i128::from(divisor))) {
        Ok(quotient) => Some(quotient),
        Err(_) => None,
    }
}

// The remainder, which has the sign of the dividend.
fn remainder(dividend: i128, divisor: i64) -> i64
    requires { divisor ≢ pos 0 }
    ensures { result ≡ int_rem dividend divisor }
{
    dividend.wrapping_rem(i128::from(divisor)) as i64
}

// The quotient of two words by a word, and the remainder.
pub(crate) fn divided(high: u64, low: u64, by: u64) -> Option<(u64, u64)>
    ensures { result ≡ divided (double high low) (signed by) }
{
    if by == 0 {
        return None;
    }
    let (dividend, divisor) = (double(high, low), by.cast_signed());
    match quotient(dividend, divisor) {
        Some(quotient) => {
            let remainder = remainder(dividend, divisor);
            Some((quotient.cast_unsigned(), remainder.cast_unsigned()))
        }
        None => None,
    }
}

// A word shifted by so many bits.
pub(crate) fn shifted(op: ShiftOp, word: u64, count: u8) -> u64
    requires { count < 64 }
    ensures { result ≡ shifted op word count }
{
    match op {
        ShiftOp::Shl => word << count,
        ShiftOp::Shr => word >> count,
        ShiftOp::Sar => (word.cast_signed() >> count).cast_unsigned(),
    }
}

// The contrary of what is known.
fn contrary(a: Option<bool>) -> Option<bool>
    ensures { result ≡ contrary a }
{
    match a {
        Some(a) => Some(!a),
        None => None,
    }
}

// One of two, where both are known.
fn either_of(a: Option<bool>, b: Option<bool>) -> Option<bool>
    ensures { result ≡ either_of a b }
{
    match (a, b) {
        (Some(a), Some(b)) => Some(a || b),
        _ => None,
    }
}

// Whether two differ, where both are known.
fn differ(a: Option<bool>, b: Option<bool>) -> Option<bool>
    ensures { result ≡ differ a b }
{
    match (a, b) {
        (Some(true), Some(b)) => Some(!b),
        (Some(false), Some(b)) => Some(b),
        _ => None,
    }
}

// Whether a condition holds, where each flag that it reads is known.
pub(crate) fn holds(condition: Condition, flags: Flags) -> Option<bool>
    ensures { result ≡ holds condition flags }
{
    match condition {
        Condition::O => flags.overflow,
        Condition::No => contrary(flags.overflow),
        Condition::B => flags.carry,
        Condition::Ae => contrary(flags.carry),
        Condition::E => flags.zero,
        Condition::Ne => contrary(flags.zero),
        Condition::Be => either_of(flags.carry, flags.zero),
        Condition::A => contrary(either_of(flags.carry, flags.zero)),
        Condition::S => flags.sign,
        Condition::Ns => contrary(flags.sign),
        Condition::L => differ(flags.sign, flags.overflow),
        Condition::Ge => contrary(differ(flags.sign, flags.overflow)),
        Condition::Le => either_of(flags.zero, differ(flags.sign, flags.overflow)),
        Condition::G => contrary(either_of(flags.zero, differ(flags.sign, flags.overflow))),
    }
}

/// After `cmp a, b` the conditions compare the two words, as unsigned numbers by their order in ℕ and as signed ones by
/// that of the numbers for which they stand in two's complement.
pub fn conditions_compare()
    ensures { ConditionsCompare }
{}
