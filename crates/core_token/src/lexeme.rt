// The token at the beginning of a text.

ghost use Rattle.std.specs.Prelude.{◌≡◌, ℕ, ◌+◌, ◌<◌, ◌≤◌, ◌^◌, length, map, IfOk};
ghost use Rattle.core_text.specs.Quotes.{quoted_at};
ghost use Rattle.core_text.specs.CodePoints.{code_point_at};
ghost use Rattle.core_token.specs.Lexemes.{atom_of, text_of, character_by, is_among, is_keyword, sign_length, keyword_at, sign_at, unquoted_at, lexeme_at};

use crate::number::number_at;
use crate::token::{Sort, TokenKind};
use core_text::bytes::{
    begins_with_digit, is_digit, is_lower, is_upper, name_bytes, prefix, rest_from,
};
use core_text::code_point::code_point_at;
use core_text::fraction::is_sign_byte;
use core_text::quoted::quoted_at;
use hipe_base::limits::{ATOM_LIMIT, GREATEST_INTEGER, LEAST_INTEGER};

/// The greatest number that the digits of an integer stand for, without a sign or behind `+`.
pub const GREATEST: u64 = GREATEST_INTEGER as u64;

/// The greatest number that the digits of an integer stand for behind `-`.
pub const FARTHEST_BELOW: u64 = (-LEAST_INTEGER) as u64;

/// A token without its place: what it is, and how many bytes it has.
#[derive(Clone, Copy)]
pub struct Lexeme {
    /// What it is.
    pub sort: Sort,
    /// How many bytes it has.
    pub length: usize,
}

// An atom, whose opening quote stands before the text.
fn atom_at(text: &[u8]) -> Result<Lexeme, TokenKind>
    requires { length text.now < 2 ^ 32 }
    ensures lexeme { result ≡ atom_of (quoted_at 39 text.now) }
    ensures within { IfOk result (λ l. (0 < l.length) × (l.length ≤ length text.now + 1)) }
{
    match quoted_at(b'\'', text) {
        None => Err(TokenKind::Token),
        Some(quoted) if quoted.code_points > ATOM_LIMIT => Err(TokenKind::LongAtom),
        Some(quoted) => Ok(Lexeme {
            sort: Sort::Atom,
            length: quoted.length + 1,
        }),
    }
}

// A text, whose opening quote stands before the text.
fn text_at(text: &[u8]) -> Result<Lexeme, TokenKind>
    requires { length text.now < 2 ^ 32 }
    ensures lexeme { result ≡ text_of (quoted_at 34 text.now) }
    ensures within { IfOk result (λ l. (0 < l.length) × (l.length ≤ length text.now + 1)) }
{
    match quoted_at(b'"', text) {
        None => Err(TokenKind::Token),
        Some(quoted) => Ok(Lexeme {
            sort: Sort::Text,
            length: quoted.length + 1,
        }),
    }
}

// A character, whose `$` stands before the text.
fn character_at(text: &[u8]) -> Result<Lexeme, TokenKind>
    requires { length text.now < 2 ^ 32 }
    ensures lexeme { result ≡ character_by (code_point_at text.now) }
    ensures within { IfOk result (λ l. (0 < l.length) × (l.length ≤ length text.now + 1)) }
{
    match code_point_at(text) {
        None => Err(TokenKind::Token),
        Some(code_point) => Ok(Lexeme {
            sort: Sort::Character,
            length: code_point.length + 1,
        }),
    }
}

// The keywords of the language.
const KEYWORDS: [&[u8]; 19] = [
    b"after",
    b"apply",
    b"attributes",
    b"call",
    b"case",
    b"catch",
    b"do",
    b"end",
    b"fun",
    b"in",
    b"let",
    b"letrec",
    b"module",
    b"of",
    b"primop",
    b"receive",
    b"timeout",
    b"try",
    b"when",
];

fn is_among(bytes: &[u8], keywords: &[&[u8]]) -> bool
    ensures { result ≡ is_among bytes.now (map (λ w. w.now) keywords.now) }
{
    for keyword in keywords {
        if bytes == *keyword {
            return true;
        }
    }
    false
}

#[tactic(auto, unfolding(crate::specs::Lexemes::is_keyword))]
fn is_keyword(bytes: &[u8]) -> bool
    ensures { result ≡ is_keyword bytes.now }
{
    is_among(bytes, &KEYWORDS)
}

// How many bytes the sign has that begins with this byte before the text; 0 where none does.
fn sign_length(first: u8, text: &[u8]) -> usize
    ensures { result ≡ sign_length first text.now }
{
    match (first, text.first()) {
        (b'(', _) => 1,
        (b')', _) => 1,
        (b'{', _) => 1,
        (b'}', _) => 1,
        (b'[', _) => 1,
        (b']', _) => 1,
        (b'<', _) => 1,
        (b'>', _) => 1,
        (b',', _) => 1,
        (b'=', _) => 1,
        (b'/', _) => 1,
        (b':', _) => 1,
        (b'|', _) => 1,
        (b'#', _) => 1,
        (b'~', _) => 1,
        (b'-', Some(b'>')) => 2,
        (b'-', Some(b'|')) => 2,
        _ => 0,
    }
}

// A keyword.
fn keyword_at(text: &[u8]) -> Result<Lexeme, TokenKind>
    requires some { 0 < length text.now }
    requires short { length text.now < 2 ^ 32 }
    ensures lexeme { result ≡ keyword_at text.now }
    ensures within { IfOk result (λ l. (0 < l.length) × (l.length ≤ length text.now)) }
{
    let length = name_bytes(rest_from(text, 1)) + 1;
    if is_keyword(prefix(text, length)) {
        Ok(Lexeme {
            sort: Sort::Word,
            length,
        })
    } else {
        Err(TokenKind::Token)
    }
}

// A sign, whose first byte stands before the text.
fn sign_at(first: u8, text: &[u8]) -> Result<Lexeme, TokenKind>
    ensures lexeme { result ≡ sign_at first text.now }
    ensures within { IfOk result (λ l. (0 < l.length) × (l.length ≤ length text.now + 1)) }
{
    let length = sign_length(first, text);
    if length == 0 {
        return Err(TokenKind::Token);
    }
    Ok(Lexeme {
        sort: Sort::Sign,
        length,
    })
}

// A number, a variable, a keyword or a sign.
#[tactic(auto, unfolding(crate::specs::Lexemes::unquoted_at))]
fn unquoted_at(text: &[u8]) -> Result<Lexeme, TokenKind>
    requires { length text.now < 2 ^ 32 }
    ensures lexeme { result ≡ unquoted_at text.now }
    ensures within { IfOk result (λ l. (0 < l.length) × (l.length ≤ length text.now)) }
{
    let first = match text.first() {
        None => return Err(TokenKind::Token),
        Some(b) => *b,
    };
    let rest = rest_from(text, 1);
    if is_digit(first) {
        return number_at(0, GREATEST, text);
    }
    if is_sign_byte(first) && begins_with_digit(rest) {
        let most = if first == b'-' {
            FARTHEST_BELOW
        } else {
            GREATEST
        };
        return number_at(1, most, rest);
    }
    if is_upper(first) || first == b'_' {
        return Ok(Lexeme {
            sort: Sort::Variable,
            length: name_bytes(rest) + 1,
        });
    }
    if is_lower(first) {
        keyword_at(text)
    } else {
        sign_at(first, rest)
    }
}

/// The token at the beginning of a text.
#[tactic(auto, unfolding(crate::specs::Lexemes::lexeme_at))]
pub fn lexeme_at(text: &[u8]) -> Result<Lexeme, TokenKind>
    requires { length text.now < 2 ^ 32 }
    ensures lexeme { result ≡ lexeme_at text.now }
    ensures within { IfOk result (λ l. (0 < l.length) × (l.length ≤ length text.now)) }
{
    match text.first() {
        None => Err(TokenKind::Token),
        Some(b'\'') => atom_at(rest_from(text, 1)),
        Some(b'"') => text_at(rest_from(text, 1)),
        Some(b'$') => character_at(rest_from(text, 1)),
        Some(_) => unquoted_at(text),
    }
}
