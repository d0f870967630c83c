// What makes a float of an integer: a point, digits, and an exponent or none.

ghost use Rattle.std.specs.Prelude.{◌≡◌, ℕ, ◌+◌, ◌<◌, ◌≤◌, ◌^◌, length};
ghost use Rattle.core_text.specs.Fractions.{is_sign_byte, sign_length, exponent_length, fraction_length};

use crate::bytes::{digits, rest_from};

/// The sign of a number.
pub fn is_sign_byte(b: u8) -> bool
    ensures { result ≡ is_sign_byte b }
{
    b == b'+' || b == b'-'
}

fn sign_length(text: &[u8]) -> usize
    ensures length { result ≡ sign_length text.now }
    ensures within { result ≤ length text.now }
{
    match text.first() {
        Some(b) if is_sign_byte(*b) => 1,
        _ => 0,
    }
}

// How many bytes an exponent at the beginning has.
fn exponent_length(text: &[u8]) -> usize
    ensures length { result ≡ exponent_length text.now }
    ensures within { result ≤ length text.now }
{
    match text.first() {
        Some(b'e' | b'E') => {
            let before = sign_length(rest_from(text, 1)) + 1;
            let count = digits(rest_from(text, before));
            if count == 0 { 0 } else { count + before }
        }
        _ => 0,
    }
}

/// How many bytes a point, digits and an exponent at the beginning have; 0 where no digit stands behind a point.
pub fn fraction_length(text: &[u8]) -> usize
    requires { length text.now < 2 ^ 32 }
    ensures length { result ≡ fraction_length text.now }
    ensures within { result ≤ length text.now }
{
    match text.first() {
        Some(b'.') => {
            let count = digits(rest_from(text, 1));
            if count == 0 {
                0
            } else {
                (count + 1) + exponent_length(rest_from(text, count + 1))
            }
        }
        _ => 0,
    }
}
