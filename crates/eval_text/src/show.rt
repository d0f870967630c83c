// The text of values.

ghost use Rattle.std.specs.Prelude.{◌≡◌, ◌++◌, ◌+◌, ◌<◌, OnOk, OnErr, string_bytes};
ghost use Rattle.std.specs.Fmt.{signed_decimal};
ghost use Rattle.hipe_terms.specs.Shown.{shown, shown_tail, shown_all, shown_more, in_braces, after_bar};
ghost use Rattle.hipe_terms.specs.Terms.{terms};
ghost use Rattle.eval_values.specs.Values.{term_in, terms_in};
ghost use Rattle.eval_text.specs.Named.{names_of};
ghost use Rattle.eval_text.specs.Pieces.{piece_text, Writes, term_size, terms_size, piece_size, size_last};

use crate::fun::show_fun;
use crate::piece::{Piece, push};
use core_ast::FunDef;
use eval_values::{Shape, Value, shape_of};
use hipe_base::Memory;
use hipe_terms::show_atom;
use std::alloc::Global;

/// Appends the text of a value in UTF-8, where the module's definitions name its funs: integers in decimal, atoms in single
/// quotes with escapes, lists as `[1,2]` or `[1,2|3]` and tuples as `{1,2}`, without spaces, funs as `#Fun<'f'/1>` or
/// `#Fun<0>`.
///
/// # Errors
///
/// `Memory` where there is no memory for the text. What stood there before stays as it was.
pub fn show_value(
    alloc: Global,
    defs: &[FunDef],
    value: Value<'_>,
    text: &mut String,
) -> Result<(), Memory>
    ensures ok { OnOk result (string_bytes text.new ≡ string_bytes text.old ++ shown (names_of defs.now) (term_in value.entry)) }
    ensures err { OnErr result (string_bytes text.new ≡ string_bytes text.old) }
{
    let mut shown = String::new(alloc);
    show_pieces(alloc, defs, value, &mut shown)?;
    text.push_str(shown.as_str())
}

// Writes the text of a value piece by piece, or a part of it where there is no memory for all of it.
#[tactic(auto, using(crate::proofs::Pieces::pieces))]
fn show_pieces(
    alloc: Global,
    defs: &[FunDef],
    value: Value<'_>,
    text: &mut String,
) -> Result<(), Memory>
    ensures { OnOk result (string_bytes text.new ≡ string_bytes text.old ++ shown (names_of defs.now) (term_in value.entry)) }
{
    let mut pieces = Vec::new(alloc);
    push(&mut pieces, Piece::Value(value))?;
    while let Some(piece) = pieces.pop() {
        show_piece(alloc, defs, piece, &mut pieces, text)?;
    }
    Ok(())
}

// Writes a piece, or what it begins with, and puts what is left of it behind the others.
#[tactic(auto, using(crate::proofs::Pieces::pieces))]
fn show_piece<'a>(
    alloc: Global,
    defs: &[FunDef],
    piece: Piece<'a>,
    pieces: &mut Vec<Piece<'a>>,
    text: &mut String,
) -> Result<(), Memory>
    ensures text { OnOk result (Writes defs.now (piece_text (names_of defs.now) piece.entry) text.old text.new pieces.old.items pieces.new.items) }
    ensures less { OnOk result (size_last pieces.new.items < piece_size piece.entry + size_last pieces.old.items) }
{
    match piece {
        Piece::Value(value) => show_first(alloc, defs, value, pieces, text),
        Piece::Rest(rest) => show_rest(defs, rest, pieces, text),
        Piece::Elements(elements) => show_elements(defs, elements, pieces, text),
        Piece::ListEnd => text.push_str("]"),
        Piece::TupleEnd => text.push_str("}"),
    }
}

// Writes what a value begins with: all of it, but for the parts of lists and tuples.
#[tactic(auto, using(crate::proofs::Pieces::pieces))]
fn show_first<'a>(
    alloc: Global,
    defs: &[FunDef],
    value: Value<'a>,
    pieces: &mut Vec<Piece<'a>>,
    text: &mut String,
) -> Result<(), Memory>
    ensures text { OnOk result (Writes defs.now (shown (names_of defs.now) (term_in value.entry)) text.old text.new pieces.old.items pieces.new.items) }
    ensures less { OnOk result (size_last pieces.new.items < term_size (term_in value.entry) + size_last pieces.old.items) }
{
    match shape_of(value) {
        Shape::Int(n) => show_integer(alloc, n, text),
        Shape::Atom(a) => show_atom(alloc, a, text),
        Shape::Nil => text.push_str("[]"),
        Shape::Cons(head, tail) => {
            text.push_str("[")?;
            push(pieces, Piece::Rest(tail))?;
            push(pieces, Piece::Value(head))
        }
        Shape::Tuple(parts) => show_tuple(defs, parts, pieces, text),
        Shape::Fun(n, _) => show_fun(alloc, defs, n, text),
    }
}

// Writes what a tuple begins with.
#[tactic(auto, using(crate::proofs::Pieces::pieces))]
fn show_tuple<'a>(
    defs: &[FunDef],
    parts: &'a [Value<'a>],
    pieces: &mut Vec<Piece<'a>>,
    text: &mut String,
) -> Result<(), Memory>
    ensures text { OnOk result (Writes defs.now (in_braces (shown_all (names_of defs.now) (terms (terms_in parts.now)))) text.old text.new pieces.old.items pieces.new.items) }
    ensures less { OnOk result (size_last pieces.new.items < terms_size (terms (terms_in parts.now)) + 3 + size_last pieces.old.items) }
{
    text.push_str("{")?;
    push(pieces, Piece::TupleEnd)?;
    match parts.split_first() {
        None => Ok(()),
        Some((first, others)) => {
            push(pieces, Piece::Elements(others))?;
            push(pieces, Piece::Value(*first))
        }
    }
}

// Writes what the elements of a tuple behind its first begin with.
#[tactic(auto, using(crate::proofs::Pieces::pieces))]
fn show_elements<'a>(
    defs: &[FunDef],
    parts: &'a [Value<'a>],
    pieces: &mut Vec<Piece<'a>>,
    text: &mut String,
) -> Result<(), Memory>
    ensures text { OnOk result (Writes defs.now (shown_more (names_of defs.now) (terms (terms_in parts.now))) text.old text.new pieces.old.items pieces.new.items) }
    ensures less { OnOk result (size_last pieces.new.items < terms_size (terms (terms_in parts.now)) + size_last pieces.old.items) }
{
    match parts.split_first() {
        None => Ok(()),
        Some((first, others)) => {
            text.push_str(",")?;
            push(pieces, Piece::Elements(others))?;
            push(pieces, Piece::Value(*first))
        }
    }
}

// Writes what the rest of a list begins with.
#[tactic(auto, using(crate::proofs::Pieces::pieces))]
fn show_rest<'a>(
    defs: &[FunDef],
    rest: Value<'a>,
    pieces: &mut Vec<Piece<'a>>,
    text: &mut String,
) -> Result<(), Memory>
    ensures text { OnOk result (Writes defs.now (shown_tail (names_of defs.now) (term_in rest.entry)) text.old text.new pieces.old.items pieces.new.items) }
    ensures less { OnOk result (size_last pieces.new.items < term_size (term_in rest.entry) + 2 + size_last pieces.old.items) }
{
    match shape_of(rest) {
        Shape::Cons(head, tail) => {
            text.push_str(",")?;
            push(pieces, Piece::Rest(tail))?;
            push(pieces, Piece::Value(head))
        }
        Shape::Nil => text.push_str("]"),
        Shape::Int(_) | Shape::Atom(_) => show_bar(defs, rest, pieces, text),
        Shape::Tuple(_) | Shape::Fun(_, _) => show_bar(defs, rest, pieces, text),
    }
}

// Writes the bar before a list's tail that is no list.
#[tactic(auto, using(crate::proofs::Pieces::pieces))]
fn show_bar<'a>(
    defs: &[FunDef],
    tail: Value<'a>,
    pieces: &mut Vec<Piece<'a>>,
    text: &mut String,
) -> Result<(), Memory>
    ensures text { OnOk result (Writes defs.now (after_bar (shown (names_of defs.now) (term_in tail.entry))) text.old text.new pieces.old.items pieces.new.items) }
    ensures less { OnOk result (size_last pieces.new.items < term_size (term_in tail.entry) + 2 + size_last pieces.old.items) }
{
    text.push_str("|")?;
    push(pieces, Piece::ListEnd)?;
    push(pieces, Piece::Value(tail))
}

fn show_integer(alloc: Global, n: i64, text: &mut String) -> Result<(), Memory>
    ensures { OnOk result (string_bytes text.new ≡ string_bytes text.old ++ signed_decimal n) }
{
    let decimal = format!(in alloc; "{n}")?;
    text.push_str(decimal.as_str())
}
