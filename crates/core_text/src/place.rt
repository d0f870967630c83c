// Places in a text.

ghost use Rattle.std.specs.Prelude.{◌≡◌, ℕ, ◌+◌, ◌^◌, ◌<◌, ◌≤◌, length};
ghost use Rattle.core_text.specs.Places.{start, moved, place_after};

use crate::bytes::is_continuation;
use hipe_terms::Place;

/// The place of the first byte of a text.
pub fn start() -> Place
    ensures { result ≡ start }
{
    Place { line: 1, col: 1 }
}

/// The place behind a byte.
pub fn moved(at: Place, b: u8) -> Place
    requires line { at.line + 1 < 2 ^ 64 }
    requires column { at.col + 1 < 2 ^ 64 }
    ensures place { result ≡ moved at b }
    ensures few_lines { result.line ≤ at.line + 1 }
    ensures few_columns { result.col ≤ at.col + 1 }
{
    if b == b'\n' {
        Place {
            line: at.line + 1,
            col: 1,
        }
    } else if is_continuation(b) {
        at
    } else {
        Place {
            line: at.line,
            col: at.col + 1,
        }
    }
}

/// The place behind some bytes.
pub fn place_after(at: Place, bytes: &[u8]) -> Place
    requires lines { at.line + length bytes.now < 2 ^ 63 }
    requires columns { at.col + length bytes.now < 2 ^ 63 }
    ensures place { result ≡ place_after at bytes.now }
    ensures few_lines { result.line ≤ at.line + length bytes.now }
    ensures few_columns { result.col ≤ at.col + length bytes.now }
{
    let mut at = at;
    for b in bytes {
        at = moved(at, *b);
    }
    at
}
