// Tokens with their values.

ghost use Rattle.std.specs.Prelude.{◌≡◌, ◌++◌, ◌<◌, ◌≤◌, ◌^◌, true, pos, length, chars, string_bytes, encode_utf8, OnOk, IfOk};
ghost use Rattle.std.specs.Char.{IsScalar};
ghost use Rattle.std.specs.Str.{all_scalars, IsUtf8};
ghost use Rattle.core_token.specs.declared.token.Sort.{Sort as ASort};
ghost use Rattle.core_token.specs.Values.{HasValue, integer_of, character_of, code_points_of};
ghost use Rattle.core_token.specs.Text.{StandsIn, bytes_of};
ghost use Rattle.core_reader.specs.Terminals.{kind_of, terminal_of, HasName, number_of, or_zero, or_nul, marked};
ghost use Rattle.core_parser_steps.specs.Steps.{IsNarrow};

use crate::mark::{keyword_of, sign_of};
use core_ast::VariableName;
use core_grammar::{Kind, Mark, Terminal};
use core_text::bytes::begins_with_digit;
use core_token::{Sort, Token, character_of, code_points_of, integer_of};
use hipe_base::Memory;
use hipe_terms::Atom;
use sqlite_items::Items;
use std::alloc::Global;

// The bytes of a token.
fn bytes_of<'a>(text: &'a [u8], token: Token) -> &'a [u8]
    requires some { token.start < token.end }
    requires within { token.end ≤ length text.now }
    ensures { result.now ≡ bytes_of text.now token }
{
    &text[token.start as usize..token.end as usize]
}

// A code point at the end of a text.
fn push_point(point: u32, text: &mut String) -> Result<(), Memory>
    requires { IsScalar point }
    ensures { OnOk result (string_bytes text.new ≡ string_bytes text.old ++ encode_utf8 point) }
{
    match char::from_u32(point) {
        Some(c) => {
            text.push(c)?;
            Ok(())
        }
        None => unreachable!(),
    }
}

// The text of some code points.
#[tactic(auto, using(crate::proofs::Texts::texts))]
fn text_of(alloc: Global, points: &[u32]) -> Result<String, Memory>
    requires { all_scalars points.now ≡ true }
    ensures { IfOk result (λ s. chars (string_bytes s) ≡ points.now) }
{
    let mut text = String::new(alloc);
    for point in points {
        push_point(*point, &mut text)?;
    }
    Ok(text)
}

// The atom of a token.
fn atom_of(alloc: Global, bytes: &[u8]) -> Result<Atom, Memory>
    requires short { length bytes.now < 2 ^ 32 }
    requires value { HasValue ASort.Atom bytes.now }
    ensures { IfOk result (λ a. a ≡ code_points_of bytes.now) }
{
    let points = code_points_of(alloc, bytes)?;
    let text = text_of(alloc, points.as_slice())?;
    match Atom::new(text) {
        Ok(atom) => Ok(atom),
        Err(_) => unreachable!(),
    }
}

// The integer of a token, with a sign or without.
fn number_of(bytes: &[u8]) -> Kind
    requires { HasValue ASort.Integer bytes.now }
    ensures kind { result ≡ number_of bytes.now (or_zero (integer_of bytes.now)) }
    ensures narrow { IsNarrow result }
{
    match integer_of(bytes) {
        Some(n) => {
            if begins_with_digit(bytes) {
                Kind::Natural(n.unsigned_abs())
            } else {
                Kind::Integer(n)
            }
        }
        None => unreachable!(),
    }
}

// The character of a token.
fn character(bytes: &[u8]) -> i64
    requires some { 0 < length bytes.now }
    requires short { length bytes.now < 2 ^ 32 }
    ensures { result ≡ pos (or_nul (character_of bytes.now)) }
{
    match character_of(bytes) {
        Some(c) => i64::from(c),
        None => 0,
    }
}

// The variable of a token.
fn variable_of(alloc: Global, bytes: &[u8]) -> Result<VariableName, Memory>
    requires { IsUtf8 bytes.now }
    ensures { IfOk result (λ x. x ≡ bytes.now) }
{
    match str::from_utf8(bytes) {
        Ok(name) => {
            let name = String::from_str(alloc, name)?;
            Ok(VariableName::new(name))
        }
        Err(_) => unreachable!(),
    }
}

// The code points of a token that is a text.
fn points_of(alloc: Global, bytes: &[u8]) -> Result<Items<u32>, Memory>
    requires short { length bytes.now < 2 ^ 32 }
    requires value { HasValue ASort.Text bytes.now }
    ensures { IfOk result (λ points. points ≡ code_points_of bytes.now) }
{
    let points = code_points_of(alloc, bytes)?;
    Ok(Items::from_vec(points))
}

// What a keyword or a sign is. Each one of a text has a mark.
fn marked(mark: Option<Mark>) -> Kind
    ensures kind { result ≡ marked mark }
    ensures narrow { IsNarrow result }
{
    match mark {
        Some(mark) => Kind::Mark(mark),
        None => Kind::Float,
    }
}

// What a token of this sort with these bytes is.
fn kind_of(alloc: Global, sort: Sort, bytes: &[u8]) -> Result<Kind, Memory>
    requires some { 0 < length bytes.now }
    requires short { length bytes.now < 2 ^ 32 }
    requires value { HasValue sort bytes.now }
    requires name { HasName sort bytes.now }
    ensures kind { IfOk result (λ kind. kind ≡ kind_of sort bytes.now) }
    ensures narrow { IfOk result (λ kind. IsNarrow kind) }
{
    match sort {
        Sort::Atom => {
            let atom = atom_of(alloc, bytes)?;
            Ok(Kind::Atom(atom))
        }
        Sort::Variable => {
            let name = variable_of(alloc, bytes)?;
            Ok(Kind::Variable(name))
        }
        Sort::Integer => Ok(number_of(bytes)),
        Sort::Float => Ok(Kind::Float),
        Sort::Character => Ok(Kind::Integer(character(bytes))),
        Sort::Text => {
            let points = points_of(alloc, bytes)?;
            Ok(Kind::Text(points))
        }
        Sort::Word => Ok(marked(keyword_of(bytes))),
        Sort::Sign => Ok(marked(sign_of(bytes))),
    }
}

/// A token of a text, with its value.
#[tactic(auto, using(crate::proofs::Texts::standing))]
pub fn terminal_of(alloc: Global, text: &[u8], token: Token) -> Result<Terminal, Memory>
    requires short { length text.now < 2 ^ 32 }
    requires stands { StandsIn text.now token }
    ensures terminal { IfOk result (λ t. t ≡ terminal_of text.now token) }
    ensures narrow { IfOk result (λ t. IsNarrow t.kind) }
{
    let kind = kind_of(alloc, token.sort, bytes_of(text, token))?;
    Ok(Terminal { kind, at: token.at })
}
