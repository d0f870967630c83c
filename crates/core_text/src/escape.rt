// Escapes: what stands behind a backslash, and which code point it means.

ghost use Rattle.std.specs.Prelude.{◌≡◌, ℕ, ◌+◌, ◌<◌, ◌≤◌, ◌^◌, length, IfSome};
ghost use Rattle.core_text.specs.Escapes.{simple_escape, is_scalar, octal_escape, control_escape, braced_escape, hex_escape, escape_at};

use crate::bytes::{hex_digits, number_up_to, octal_digits, prefix, rest_from};

// The greatest Unicode scalar value.
const GREATEST_SCALAR: u64 = 0x10_FFFF;

/// The code point that an escape means, and how many bytes it has behind its backslash.
#[derive(Clone, Copy)]
pub struct Escape {
    /// The code point.
    pub value: u32,
    /// The bytes behind the backslash.
    pub length: usize,
}

// The escapes of one letter or sign.
fn simple_escape(b: u8) -> Option<u32>
    ensures { result ≡ simple_escape b }
{
    match b {
        b'b' => Some(8),
        b'd' => Some(127),
        b'e' => Some(27),
        b'f' => Some(12),
        b'n' => Some(10),
        b'r' => Some(13),
        b's' => Some(32),
        b't' => Some(9),
        b'v' => Some(11),
        b'"' => Some(34),
        b'\'' => Some(39),
        b'\\' => Some(92),
        _ => None,
    }
}

fn is_scalar(value: u64) -> bool
    ensures { result ≡ is_scalar value }
{
    value < 0xD800 || (0xE000 <= value && value <= GREATEST_SCALAR)
}

// One to three octal digits.
fn octal_escape(text: &[u8]) -> Option<Escape>
    ensures escape { result ≡ octal_escape text.now }
    ensures within { IfSome result (λ e. (0 < e.length) × (e.length ≤ length text.now)) }
{
    let length = octal_digits(text).min(3);
    if length == 0 {
        return None;
    }
    let value = number_up_to(prefix(text, length), 8, 0o777)?;
    Some(Escape {
        value: value as u32,
        length,
    })
}

// What stands behind `\^`.
fn control_escape(text: &[u8]) -> Option<Escape>
    ensures escape { result ≡ control_escape text.now }
    ensures within { IfSome result (λ e. (0 < e.length) × (e.length ≤ length text.now + 1)) }
{
    match text.first() {
        Some(b @ b'@'..=b'_') => Some(Escape {
            value: u32::from(*b - 64),
            length: 2,
        }),
        _ => None,
    }
}

// What stands behind `\x{`.
fn braced_escape(text: &[u8]) -> Option<Escape>
    requires { length text.now < 2 ^ 32 }
    ensures escape { result ≡ braced_escape text.now }
    ensures within { IfSome result (λ e. (0 < e.length) × (e.length ≤ length text.now + 2)) }
{
    let length = hex_digits(text);
    if length == 0 {
        return None;
    }
    match text.get(length) {
        Some(b'}') => {}
        _ => return None,
    }
    let value = number_up_to(prefix(text, length), 16, GREATEST_SCALAR)?;
    if is_scalar(value) {
        Some(Escape {
            value: value as u32,
            length: length + 3,
        })
    } else {
        None
    }
}

// What stands behind `\x`.
fn hex_escape(text: &[u8]) -> Option<Escape>
    requires { length text.now < 2 ^ 32 }
    ensures escape { result ≡ hex_escape text.now }
    ensures within { IfSome result (λ e. (0 < e.length) × (e.length ≤ length text.now + 1)) }
{
    if let Some(b'{') = text.first() {
        return braced_escape(rest_from(text, 1));
    }
    if hex_digits(text) < 2 {
        return None;
    }
    let value = number_up_to(prefix(text, 2), 16, 0xFF)?;
    Some(Escape {
        value: value as u32,
        length: 3,
    })
}

/// What stands behind a backslash.
#[tactic(auto, unfolding(crate::specs::Escapes::escape_at))]
pub fn escape_at(text: &[u8]) -> Option<Escape>
    requires { length text.now < 2 ^ 32 }
    ensures escape { result ≡ escape_at text.now }
    ensures within { IfSome result (λ e. (0 < e.length) × (e.length ≤ length text.now)) }
{
    let b = *text.first()?;
    if let Some(value) = simple_escape(b) {
        return Some(Escape { value, length: 1 });
    }
    match b {
        b'^' => control_escape(rest_from(text, 1)),
        b'x' => hex_escape(rest_from(text, 1)),
        _ => octal_escape(text),
    }
}
