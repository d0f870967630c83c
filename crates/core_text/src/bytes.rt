// Kinds of bytes, counted at the beginning of a text, and numbers that digits stand for.

ghost use Rattle.std.specs.Prelude.{◌≡◌, ℕ, ◌+◌, ◌-◌, ◌*◌, ◌^◌, ◌<◌, ◌≤◌, length, drop, take, IfSome, IfNone};
ghost use Rattle.std.specs.List.{prefix_len};
ghost use Rattle.core_text.specs.Bytes.{is_space, is_digit, is_octal, is_hex, is_lower, is_upper, is_name_byte, is_continuation, begins, digit_value, number_from};

/// The base of decimal digits.
pub const DECIMAL: u64 = 10;

/// White space: the code points 9 to 13, and 32.
pub fn is_space(b: u8) -> bool
    ensures { result ≡ is_space b }
{
    matches!(b, b'\t'..=b'\r' | b' ')
}

/// A decimal digit.
pub fn is_digit(b: u8) -> bool
    ensures { result ≡ is_digit b }
{
    b.is_ascii_digit()
}

/// An octal digit.
pub fn is_octal(b: u8) -> bool
    ensures { result ≡ is_octal b }
{
    matches!(b, b'0'..=b'7')
}

/// A hexadecimal digit.
pub fn is_hex(b: u8) -> bool
    ensures { result ≡ is_hex b }
{
    matches!(b, b'0'..=b'9' | b'a'..=b'f' | b'A'..=b'F')
}

/// A lower-case ASCII letter.
pub fn is_lower(b: u8) -> bool
    ensures { result ≡ is_lower b }
{
    b.is_ascii_lowercase()
}

/// An upper-case ASCII letter.
pub fn is_upper(b: u8) -> bool
    ensures { result ≡ is_upper b }
{
    b.is_ascii_uppercase()
}

/// An ASCII letter, a digit, `_` or `@`.
pub fn is_name_byte(b: u8) -> bool
    ensures { result ≡ is_name_byte b }
{
    b.is_ascii_lowercase() || b.is_ascii_uppercase() || b.is_ascii_digit() || b == b'_' || b == b'@'
}

/// A byte of a character but its first.
pub fn is_continuation(b: u8) -> bool
    ensures { result ≡ is_continuation b }
{
    matches!(b, 0x80..=0xBF)
}

/// The text from its byte n on.
pub fn rest_from(text: &[u8], n: usize) -> &[u8]
    requires { n ≤ length text.now }
    ensures { result.now ≡ drop n text.now }
{
    &text[n..]
}

/// The first n bytes of a text.
pub fn prefix(text: &[u8], n: usize) -> &[u8]
    requires { n ≤ length text.now }
    ensures { result.now ≡ take n text.now }
{
    &text[..n]
}

/// How many decimal digits stand at the beginning.
pub fn digits(text: &[u8]) -> usize
    ensures count { result ≡ prefix_len is_digit text.now }
    ensures within { result ≤ length text.now }
{
    text.iter().take_while(|b| is_digit(**b)).count()
}

/// How many hexadecimal digits stand at the beginning.
pub fn hex_digits(text: &[u8]) -> usize
    ensures count { result ≡ prefix_len is_hex text.now }
    ensures within { result ≤ length text.now }
{
    text.iter().take_while(|b| is_hex(**b)).count()
}

/// How many octal digits stand at the beginning.
pub fn octal_digits(text: &[u8]) -> usize
    ensures count { result ≡ prefix_len is_octal text.now }
    ensures within { result ≤ length text.now }
{
    text.iter().take_while(|b| is_octal(**b)).count()
}

/// How many ASCII letters, digits, `_` and `@` stand at the beginning.
pub fn name_bytes(text: &[u8]) -> usize
    ensures count { result ≡ prefix_len is_name_byte text.now }
    ensures within { result ≤ length text.now }
{
    text.iter().take_while(|b| is_name_byte(**b)).count()
}

/// How many bytes of a character but its first stand at the beginning.
pub fn continuations(text: &[u8]) -> usize
    ensures count { result ≡ prefix_len is_continuation text.now }
    ensures within { result ≤ length text.now }
{
    text.iter().take_while(|b| is_continuation(**b)).count()
}

/// Whether a decimal digit stands at the beginning.
pub fn begins_with_digit(text: &[u8]) -> bool
    ensures { result ≡ begins is_digit text.now }
{
    match text.first() {
        Some(b) => is_digit(*b),
        None => false,
    }
}

fn digit_value(b: u8) -> u64
    ensures value { result ≡ digit_value b }
    ensures small { result < 256 }
{
    let low = if b <= b'9' {
        b'0'
    } else if b <= b'F' {
        55
    } else {
        87
    };
    u64::from(b.saturating_sub(low))
}

/// The number that digits to a base stand for, where it is at most `most`.
#[tactic(auto, using(crate::proofs::Numbers::stops))]
pub fn number_up_to(digits: &[u8], base: u64, most: u64) -> Option<u64>
    requires base { 1 ≤ base }
    requires small_base { base ≤ 16 }
    requires small { most ≤ 2 ^ 59 }
    ensures some { IfSome result (λ n. (n ≡ number_from base 0 digits.now) × (n ≤ most)) }
    ensures none { IfNone result (most < number_from base 0 digits.now) }
{
    let mut n: u64 = 0;
    for d in digits {
        let more = n * base + digit_value(*d);
        if more > most {
            return None;
        }
        n = more;
    }
    Some(n)
}
