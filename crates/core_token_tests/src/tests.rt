// The tables of texts, gone through.

use crate::tables::{CHARACTERS, FAULTS, INTEGERS, QUOTED, TOKENS};
use core_token::Sort::{Atom, Character, Integer};
use core_token::{
    Sort, Token, TokenFault, TokenKind, character_of, code_points_of, integer_of, tokens,
};
use hipe_terms::Place;
use std::alloc::Global;
use std::test::Fail;

// A token with its line, its column and its bytes.
fn token(row: &(Sort, u64, u64, u32, u32)) -> Token {
    Token {
        sort: row.0,
        at: Place {
            line: row.1,
            col: row.2,
        },
        start: row.3,
        end: row.4,
    }
}

// Whether these are the tokens of a text of few bytes.
fn has_tokens(
    alloc: Global,
    text: &[u8],
    rows: &[(Sort, u64, u64, u32, u32)],
) -> Result<bool, TokenFault> {
    if text.len() > 1000 {
        return Ok(false);
    }
    let found = tokens(alloc, text)?;
    let list = found.list();
    if list.len() != rows.len() {
        return Ok(false);
    }
    for (found, row) in list.iter().zip(rows.iter()) {
        if *found != token(row) {
            return Ok(false);
        }
    }
    Ok(true)
}

// Whether a text of few bytes has this fault there.
fn has_fault(alloc: Global, text: &[u8], kind: TokenKind, line: u64, col: u64) -> bool {
    if text.len() > 1000 {
        return false;
    }
    let at = Place { line, col };
    match tokens(alloc, text) {
        Ok(_) => false,
        Err(fault) => fault == TokenFault::Refused { kind, at },
    }
}

#[test]
fn reads_tokens(rt: HostRuntime) -> Result<(), Fail> {
    for (text, rows) in TOKENS {
        assert!(rt; has_tokens(rt.alloc(), text, rows)?, "{text:?}");
    }
    Ok(())
}

#[test]
fn refuses_faults(rt: HostRuntime) {
    for (text, kind, line, col) in FAULTS {
        assert!(rt; has_fault(rt.alloc(), text, kind, line, col), "{text:?}");
    }
}

// An atom of so many code points: one of two bytes, an escape, and letters.
fn long_atom(alloc: Global, code_points: usize) -> Result<Vec<u8>, Fail> {
    let mut text = Vec::from_slice(alloc, "'\u{e9}\\^A".as_bytes())?;
    for _ in 2..code_points {
        text.push(b'a')?;
    }
    text.push(b'\'')?;
    Ok(text)
}

#[test]
fn keeps_to_255_code_points(rt: HostRuntime) -> Result<(), Fail> {
    let fits = long_atom(rt.alloc(), 255)?;
    assert!(rt; has_tokens(rt.alloc(), fits.as_slice(), &[(Atom, 1, 1, 0, 260)])?);
    let long = long_atom(rt.alloc(), 256)?;
    assert!(rt; has_fault(rt.alloc(), long.as_slice(), TokenKind::LongAtom, 1, 1));
    Ok(())
}

// Whether a text of few bytes is one token of this sort.
fn is_one(alloc: Global, text: &[u8], sort: Sort) -> Result<bool, TokenFault> {
    if text.len() > 1000 {
        return Ok(false);
    }
    has_tokens(alloc, text, &[(sort, 1, 1, 0, text.len() as u32)])
}

// The code point of a character of few bytes.
fn character(text: &[u8]) -> Option<u32> {
    if text.is_empty() || text.len() > 1000 {
        return None;
    }
    character_of(text)
}

// Whether these are the code points of an atom or of a text of few bytes.
fn has_code_points(alloc: Global, text: &[u8], values: &[u32]) -> Result<bool, Fail> {
    if text.len() < 2 || text.len() > 1000 {
        return Ok(false);
    }
    let found = code_points_of(alloc, text)?;
    Ok(found.as_slice() == values)
}

#[test]
fn reads_characters(rt: HostRuntime) -> Result<(), Fail> {
    for (text, value) in CHARACTERS {
        assert!(rt; is_one(rt.alloc(), text, Character)?, "{text:?}");
        assert!(rt; character(text) == Some(value), "{text:?}");
    }
    Ok(())
}

#[test]
fn reads_integers(rt: HostRuntime) -> Result<(), Fail> {
    for (text, value) in INTEGERS {
        assert!(rt; is_one(rt.alloc(), text, Integer)?, "{text:?}");
        assert!(rt; integer_of(text) == Some(value), "{text:?}");
    }
    Ok(())
}

#[test]
fn reads_code_points(rt: HostRuntime) -> Result<(), Fail> {
    for (text, sort, values) in QUOTED {
        assert!(rt; is_one(rt.alloc(), text, sort)?, "{text:?}");
        assert!(rt; has_code_points(rt.alloc(), text, values)?, "{text:?}");
    }
    Ok(())
}
