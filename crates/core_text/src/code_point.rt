// Code points, as themselves and by escapes.

ghost use Rattle.std.specs.Prelude.{◌≡◌, ℕ, ◌+◌, ◌-◌, ◌*◌, ◌<◌, ◌≤◌, ◌^◌, length, IfSome, IfOk};
ghost use Rattle.core_text.specs.CodePoints.{first_bits, with_bits, code_point_at, values_between};

use crate::bytes::{prefix, rest_from};
use crate::escape::escape_at;
use crate::utf8::character_length;
use hipe_base::Memory;
use std::alloc::Global;

/// A code point, and how many bytes it has in the text.
#[derive(Clone, Copy)]
pub struct CodePoint {
    /// The code point.
    pub value: u32,
    /// How many bytes spell it.
    pub length: usize,
}

// The bits of a code point that its first byte has.
fn first_bits(b: u8) -> u32
    ensures bits { result ≡ first_bits b }
    ensures small { result < 128 }
{
    if b <= 0x7F {
        u32::from(b)
    } else if b <= 0xDF {
        u32::from(b.saturating_sub(0xC0))
    } else if b <= 0xEF {
        u32::from(b.saturating_sub(0xE0))
    } else {
        u32::from(b.saturating_sub(0xF0))
    }
}

// With six more bits for each byte.
fn with_bits(bits: u32, bytes: &[u8]) -> u32
    requires few { length bytes.now ≤ 3 }
    requires small { bits < 128 }
    ensures { result ≡ with_bits bits bytes.now }
{
    let mut bits = u64::from(bits);
    for b in bytes {
        bits = bits * 64 + u64::from(b.saturating_sub(0x80));
    }
    bits as u32
}

/// The code point at the beginning, as itself or by an escape.
#[tactic(auto, unfolding(crate::specs::CodePoints::code_point_at))]
pub fn code_point_at(text: &[u8]) -> Option<CodePoint>
    requires { length text.now < 2 ^ 32 }
    ensures code_point { result ≡ code_point_at text.now }
    ensures within { IfSome result (λ p. (0 < p.length) × (p.length ≤ length text.now)) }
{
    let first = *text.first()?;
    let rest = rest_from(text, 1);
    if first == b'\\' {
        let escape = escape_at(rest)?;
        return Some(CodePoint {
            value: escape.value,
            length: escape.length + 1,
        });
    }
    let length = character_length(text)?;
    Some(CodePoint {
        value: with_bits(first_bits(first), prefix(rest, length - 1)),
        length,
    })
}

/// The code points of a text, up to the first that is ill-formed. The error is that memory ran out.
#[tactic(auto, unfolding(crate::specs::CodePoints::values_between))]
pub fn values_between(alloc: Global, text: &[u8]) -> Result<Vec<u32>, Memory>
    requires { length text.now < 2 ^ 32 }
    ensures { IfOk result (λ v. v.items ≡ values_between text.now) }
{
    let mut values = Vec::new(alloc);
    let mut offset = 0;
    while offset < text.len() {
        let rest = rest_from(text, offset);
        match code_point_at(rest) {
            None => return Ok(values),
            Some(code_point) => {
                values.push(code_point.value)?;
                offset += code_point.length;
            }
        }
    }
    Ok(values)
}
