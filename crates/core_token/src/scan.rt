// The tokens of a whole text.

ghost use Rattle.std.specs.Prelude.{◌≡◌, ℕ, ◌+◌, ◌<◌, ◌≤◌, ◌^◌, [], length, take, Some, Ok, All, IfOk, IfErr};
ghost use Rattle.std.specs.List.{prefix_len};
ghost use Rattle.std.specs.Str.{IsUtf8};
ghost use Rattle.core_text.specs.Bytes.{is_before_line_end};
ghost use Rattle.core_text.specs.Places.{start, place_after};
ghost use Rattle.core_text.specs.Utf8.{ill_formed_from, ArePassed};
ghost use Rattle.core_token.specs.Lexemes.{lexeme_at};
ghost use Rattle.core_token.specs.Text.{HasTokens, StandsIn, AreInOrder, AnswersFault};
ghost use Rattle.core_token.specs.Reading.{blank_length, refusal, read, Answers, AnswersStep};

use crate::lexeme::{Lexeme, lexeme_at};
use crate::token::{Sort, Token, TokenFault, TokenKind, Tokens};
use core_text::bytes::{is_space, prefix, rest_from};
use core_text::place::{moved, place_after, start};
use core_text::utf8::{character_length, ill_formed_from};
use hipe_terms::Place;
use std::alloc::Global;

/// What has been read of a text: its tokens up to a byte, and the place of that byte.
#[derive(Drop)]
pub struct Scan {
    /// The tokens that were read.
    pub tokens: Tokens,
    /// The place of the next byte.
    pub at: Place,
    /// How many bytes were read.
    pub offset: usize,
}

// Bytes at the beginning of a text that were passed, and the place behind them.
#[derive(Clone, Copy)]
struct Passed {
    length: usize,
    at: Place,
}

// Passes what stands before the end of the line, by its characters. The error is the place of the first byte that isn't UTF-8.
fn line_at(at: Place, text: &[u8]) -> Result<Passed, Place>
    requires short { length text.now < 2 ^ 32 }
    requires few_lines { at.line < 2 ^ 33 }
    requires few_columns { at.col < 2 ^ 33 }
    ensures length { IfOk result (λ p. p.length ≡ prefix_len is_before_line_end text.now) }
    ensures passed { IfOk result (λ p. ArePassed text.now at p.length p.at) }
    ensures lines { IfOk result (λ p. p.at.line ≤ at.line + p.length) }
    ensures columns { IfOk result (λ p. p.at.col ≤ at.col + p.length) }
    ensures ill_formed { IfErr result (λ q. ill_formed_from at text.now ≡ Some q) }
{
    let mut at = at;
    let mut length = 0;
    while length < text.len() && text[length] != b'\n' {
        let rest = rest_from(text, length);
        match character_length(rest) {
            None => return Err(at),
            Some(more) => {
                at = moved(at, rest[0]);
                length += more;
            }
        }
    }
    Ok(Passed { length, at })
}

// Passes one byte of white space, or a comment up to the end of its line, or nothing where neither is there. The error is the
// place of the first byte that isn't UTF-8.
fn blank_at(at: Place, text: &[u8]) -> Result<Passed, Place>
    requires short { length text.now < 2 ^ 32 }
    requires few_lines { at.line < 2 ^ 33 }
    requires few_columns { at.col < 2 ^ 33 }
    ensures length { IfOk result (λ p. p.length ≡ blank_length text.now) }
    ensures passed { IfOk result (λ p. ArePassed text.now at p.length p.at) }
    ensures lines { IfOk result (λ p. p.at.line ≤ at.line + p.length) }
    ensures columns { IfOk result (λ p. p.at.col ≤ at.col + p.length) }
    ensures ill_formed { IfErr result (λ q. ill_formed_from at text.now ≡ Some q) }
{
    match text.first() {
        Some(b'%') => line_at(at, text),
        Some(b) if is_space(*b) => Ok(Passed {
            length: 1,
            at: moved(at, *b),
        }),
        _ => Ok(Passed { length: 0, at }),
    }
}

// The place behind a token. Only in quotes and behind `$` may a line end or a character of more than one byte stand.
fn place_behind(at: Place, lexeme: Lexeme, text: &[u8]) -> Place
    requires token { lexeme_at text.now ≡ Ok lexeme }
    requires within { lexeme.length ≤ length text.now }
    requires short { length text.now < 2 ^ 32 }
    requires few_lines { at.line < 2 ^ 33 }
    requires few_columns { at.col < 2 ^ 33 }
    ensures passed { ArePassed text.now at lexeme.length result }
    ensures lines { result.line ≤ at.line + lexeme.length }
    ensures columns { result.col ≤ at.col + lexeme.length }
{
    match lexeme.sort {
        Sort::Atom | Sort::Character | Sort::Text => place_after(at, prefix(text, lexeme.length)),
        Sort::Variable | Sort::Integer | Sort::Float | Sort::Word | Sort::Sign => Place {
            line: at.line,
            col: at.col + lexeme.length as u64,
        },
    }
}

// The fault of a text that goes on with no token: its first byte that isn't UTF-8, and else that there is no token.
fn fault_at(at: Place, kind: TokenKind, text: &[u8]) -> TokenFault
    requires short { length text.now < 2 ^ 32 }
    requires few_lines { at.line < 2 ^ 33 }
    requires few_columns { at.col < 2 ^ 33 }
    ensures { result ≡ refusal (ill_formed_from at text.now) kind at }
{
    match ill_formed_from(at, text) {
        Some(first) => TokenFault::Refused {
            kind: TokenKind::Token,
            at: first,
        },
        None => TokenFault::Refused { kind, at },
    }
}

// Reads white space, a comment or a token, and tells how many bytes it has.
fn step(scan: &mut Scan, rest: &[u8]) -> Result<usize, TokenFault>
    requires some { 0 < length rest.now }
    requires short { scan.old.offset + length rest.now < 2 ^ 32 }
    requires few_lines { scan.old.at.line ≤ scan.old.offset + 1 }
    requires few_columns { scan.old.at.col ≤ scan.old.offset + 1 }
    ensures answer { AnswersStep rest.now scan.old scan.new result }
    ensures on { IfOk result (λ n. (0 < n) × (n ≤ length rest.now) × (scan.new.offset ≡ scan.old.offset + n)) }
    ensures lines { IfOk result (λ n. scan.new.at.line ≤ scan.new.offset + 1) }
    ensures columns { IfOk result (λ n. scan.new.at.col ≤ scan.new.offset + 1) }
{
    let blank = match blank_at(scan.at, rest) {
        Ok(blank) => blank,
        Err(at) => {
            let kind = TokenKind::Token;
            return Err(TokenFault::Refused { kind, at });
        }
    };
    if blank.length > 0 {
        scan.at = blank.at;
        scan.offset += blank.length;
        return Ok(blank.length);
    }
    let lexeme = match lexeme_at(rest) {
        Ok(lexeme) => lexeme,
        Err(kind) => return Err(fault_at(scan.at, kind, rest)),
    };
    scan.tokens.push(Token {
        sort: lexeme.sort,
        at: scan.at,
        start: scan.offset as u32,
        end: (scan.offset + lexeme.length) as u32,
    })?;
    scan.at = place_behind(scan.at, lexeme, rest);
    scan.offset += lexeme.length;
    Ok(lexeme.length)
}

/// The tokens of a text of less than 2^32 bytes, in its order: those of Core Erlang 1.0.3, but that `_` alone is a variable, `\x`
/// begins an escape, and line ends may stand in atoms and texts.
///
/// The text is gone through once. Where no token is there, the rest is still gone through for a byte that isn't UTF-8, from that
/// place on. The bytes of a token in quotes are passed a second time, for the place behind it.
///
/// # Errors
///
/// - `Refused` if and only if the text has a fault, and then with its first one.
/// - `Memory` where memory runs out.
pub fn tokens(alloc: Global, text: &[u8]) -> Result<Tokens, TokenFault>
    requires short { length text.now < 2 ^ 32 }
    // What is read is what the text has: white space, comments and these tokens in turn.
    ensures utf8 { IfOk result (λ _. IsUtf8 text.now) }
    ensures tokens { IfOk result (λ ts. HasTokens text.now 0 start ts) }
    // Each token stands in the text and has its value, and they stand in order.
    ensures stand { IfOk result (λ ts. All (StandsIn text.now) ts) }
    ensures order { IfOk result (λ ts. AreInOrder 0 ts) }
    // A refusal is that of the first byte that isn't UTF-8, and else of the first fault.
    ensures fault { AnswersFault text.now result }
    // There is one answer, but that memory may run out.
    ensures answer { Answers (read text.now) result }
{
    let mut scan = Scan {
        tokens: Tokens::new(alloc),
        at: start(),
        offset: 0,
    };
    while scan.offset < text.len() {
        let rest = rest_from(text, scan.offset);
        match step(&mut scan, rest) {
            Ok(_) => {}
            Err(fault) => return Err(fault),
        }
    }
    Ok(scan.tokens)
}
