// Arithmetic. A result that is out of the range is none.

ghost use Rattle.std.specs.Prelude.{◌≡◌, ◌≢◌, ◌<◌, ◌≤◌, ◌^◌, pos, neg_ℤ, ◌+ℤ◌, ◌-ℤ◌, ◌*ℤ◌, int_div, int_rem};
ghost use Rattle.hipe_terms.specs.Outcome.{floor, shifted_left, shifted_right};
ghost use Rattle.eval_values.specs.Integers.{in_range};

use hipe_base::limits::{GREATEST_INTEGER, LEAST_INTEGER};

/// The integer, where it is in the range.
pub fn in_range(n: i64) -> Option<i64>
    ensures { result ≡ in_range n }
{
    if LEAST_INTEGER <= n && n <= GREATEST_INTEGER {
        Some(n)
    } else {
        None
    }
}

/// The sum.
pub fn sum(a: i64, b: i64) -> Option<i64>
    ensures { result ≡ in_range (a +ℤ b) }
{
    in_range(a.checked_add(b)?)
}

/// The difference.
pub fn difference(a: i64, b: i64) -> Option<i64>
    ensures { result ≡ in_range (a -ℤ b) }
{
    in_range(a.checked_sub(b)?)
}

/// The product.
pub fn product(a: i64, b: i64) -> Option<i64>
    ensures { result ≡ in_range (a *ℤ b) }
{
    in_range(a.checked_mul(b)?)
}

/// The negative.
pub fn negative(a: i64) -> Option<i64>
    ensures { result ≡ in_range (neg_ℤ a) }
{
    in_range(a.checked_neg()?)
}

/// The quotient, truncated towards zero.
pub fn quotient(a: i64, b: i64) -> Option<i64>
    requires { b ≢ pos 0 }
    ensures { result ≡ in_range (int_div a b) }
{
    in_range(a.checked_div(b)?)
}

/// The remainder, with the dividend's sign.
pub fn remainder(a: i64, b: i64) -> i64
    requires { b ≢ pos 0 }
    ensures { result ≡ int_rem a b }
{
    if b == -1 { 0 } else { a % b }
}

/// A times 2 to the power b, and where b is negative, the floor of a over 2 to the power -b.
pub fn shifted_left(a: i64, b: i64) -> Option<i64>
    ensures { result ≡ in_range (shifted_left a b) }
{
    if b < 0 {
        in_range(floor(a, b.unsigned_abs()))
    } else {
        raised(a, b.unsigned_abs())
    }
}

/// The floor of a over 2 to the power b, and where b is negative, a times 2 to the power -b.
pub fn shifted_right(a: i64, b: i64) -> Option<i64>
    ensures { result ≡ in_range (shifted_right a b) }
{
    if b < 0 {
        raised(a, b.unsigned_abs())
    } else {
        in_range(floor(a, b.unsigned_abs()))
    }
}

// A times 2 to the power n. No integer but 0 stays in the range where n is over 59.
fn raised(a: i64, n: u64) -> Option<i64>
    ensures { result ≡ in_range (a *ℤ pos (2 ^ n)) }
{
    if a == 0 {
        return Some(0);
    }
    if n >= 60 {
        return None;
    }
    product(a, 1 << n)
}

// The floor of a over 2 to the power n. Where n is over 62 it is 0 or -1.
fn floor(a: i64, n: u64) -> i64
    ensures { result ≡ floor a (2 ^ n) }
{
    if n >= 63 {
        return if a < 0 { -1 } else { 0 };
    }
    a >> n
}
