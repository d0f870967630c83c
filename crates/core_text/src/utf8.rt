// The first byte of a text that isn't UTF-8.

ghost use Rattle.std.specs.Prelude.{◌≡◌, ℕ, ◌+◌, ◌^◌, ◌<◌, ◌≤◌, true, length, IfSome, IfNone};
ghost use Rattle.std.specs.Str.{IsUtf8};
ghost use Rattle.core_text.specs.Utf8.{sequence_of, goes_on, character_length, ill_formed_from};

use crate::bytes::{continuations, rest_from};
use crate::place::moved;
use hipe_terms::Place;

/// What follows a first byte: a second byte within limits, and more bytes from 0x80 to 0xBF.
#[derive(Clone, Copy)]
pub struct Sequence {
    /// The least second byte.
    pub low: u8,
    /// The greatest second byte.
    pub high: u8,
    /// How many bytes from 0x80 to 0xBF come behind the second.
    pub more: usize,
}

// The well-formed sequences by their first byte: table 3-7 of the Unicode Standard, without its first row.
fn sequence_of(first: u8) -> Option<Sequence>
    ensures sequence { result ≡ sequence_of first }
    ensures small { IfSome result (λ q. q.more ≤ 2) }
{
    let (low, high, more) = match first {
        0xC2..=0xDF => (0x80, 0xBF, 0),
        0xE0 => (0xA0, 0xBF, 1),
        0xED => (0x80, 0x9F, 1),
        0xE1..=0xEF => (0x80, 0xBF, 1),
        0xF0 => (0x90, 0xBF, 2),
        0xF1..=0xF3 => (0x80, 0xBF, 2),
        0xF4 => (0x80, 0x8F, 2),
        _ => return None,
    };
    Some(Sequence { low, high, more })
}

// Whether a text goes on as a sequence does behind its first byte.
fn goes_on(sequence: Sequence, rest: &[u8]) -> bool
    ensures answer { result ≡ goes_on sequence rest.now }
    ensures within { result ≡ true → sequence.more + 1 ≤ length rest.now }
{
    match rest.first() {
        None => false,
        Some(second) => {
            sequence.low <= *second
                && *second <= sequence.high
                && sequence.more <= continuations(rest_from(rest, 1))
        }
    }
}

/// How many bytes the character at the beginning has; `None` where none is there.
#[tactic(auto, unfolding(crate::specs::Utf8::character_length))]
pub fn character_length(text: &[u8]) -> Option<usize>
    ensures length { result ≡ character_length text.now }
    ensures some { IfSome result (λ n. (0 < n) × (n ≤ 4)) }
    ensures within { IfSome result (λ n. n ≤ length text.now) }
{
    let first = *text.first()?;
    if first <= 0x7F {
        return Some(1);
    }
    let sequence = sequence_of(first)?;
    if goes_on(sequence, rest_from(text, 1)) {
        Some(sequence.more + 2)
    } else {
        None
    }
}

/// The place of the first byte that isn't UTF-8 of a text that goes on at a place.
#[tactic(auto, using(crate::proofs::Walks::walks), unfolding(crate::specs::Utf8::ill_formed_from))]
pub fn ill_formed_from(at: Place, text: &[u8]) -> Option<Place>
    requires short { length text.now < 2 ^ 32 }
    requires few_lines { at.line < 2 ^ 33 }
    requires few_columns { at.col < 2 ^ 33 }
    ensures place { result ≡ ill_formed_from at text.now }
    // Where there is none, the text is UTF-8.
    ensures utf8 { IfNone result (IsUtf8 text.now) }
{
    let mut at = at;
    let mut offset = 0;
    while offset < text.len() {
        let rest = rest_from(text, offset);
        match character_length(rest) {
            None => return Some(at),
            Some(length) => {
                at = moved(at, rest[0]);
                offset += length;
            }
        }
    }
    None
}
