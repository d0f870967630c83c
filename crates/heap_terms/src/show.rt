// The text of the term for which a word stands.

ghost use Rattle.std.specs.Prelude.{◌≡◌, ◌≤◌, ◌+◌, ◌++◌, true, false, length, Ok, IfOk, OnOk, OnErr, string_bytes};
ghost use Rattle.std.specs.Fmt.{signed_decimal};
ghost use Rattle.region_memory.specs.declared.layout.TheConstants.{HEAP_LIMIT};
ghost use Rattle.heap_terms.specs.Following.{terms_below, words_size};
ghost use Rattle.heap_terms.specs.Parts.{size_below};
ghost use Rattle.heap_terms.specs.Pieces.{IsLess, WritesFirst, followed_by, text_of, rest_text, all_text, more_text, bar_text, tuple_written, piece_text, text_last, piece_size};
ghost use Rattle.heap_terms.specs.Seen.{symbols_of, reference_of};
ghost use Rattle.heap_terms.specs.Terms.{term_at, term_below, HasShown};

use crate::follow::words_stand;
use crate::fun::show_fun;
use crate::piece::{Piece, push};
use crate::shape::{Reference, Shape, shape_at};
use crate::symbols::Symbols;
use hipe_base::Memory;
use hipe_terms::show_atom;
use std::alloc::Global;

/// Appends the text of the term for which a word outside the heap stands, in UTF-8, and answers whether it stands for one:
/// integers in decimal, atoms in single quotes with escapes, lists as `[1,2]` or `[1,2|3]` and tuples as `{1,2}`, without
/// spaces, funs as `#Fun<'f'/1>` or `#Fun<0>`. Where it stands for none, the text stays as it was.
///
/// # Errors
///
/// `Memory` where there is no memory for the text. It stays as it was.
pub fn show_word(
    alloc: Global,
    symbols: &Symbols,
    heap: &[u64],
    word: u64,
    text: &mut String,
) -> Result<bool, Memory>
    requires { length heap.now ≤ HEAP_LIMIT }
    ensures shown { IfOk result (λ yes. HasShown (symbols_of symbols.now).definitions (string_bytes text.old)
        (term_at (symbols_of symbols.now) heap.now word) yes (string_bytes text.new)) }
    ensures none { result ≡ Ok false → string_bytes text.new ≡ string_bytes text.old }
    ensures err { OnErr result (string_bytes text.new ≡ string_bytes text.old) }
{
    let mut shown = String::new(alloc);
    if !show_pieces(alloc, symbols, heap, word, &mut shown)? {
        return Ok(false);
    }
    text.push_str(shown.as_str())?;
    Ok(true)
}

// Writes the text of the term for which a word stands, piece by piece, and answers whether it stands for one. Where it stands for
// none, some of its text may be written.
#[tactic(auto, using(crate::proofs::Pieces::pieces))]
fn show_pieces(
    alloc: Global,
    symbols: &Symbols,
    heap: &[u64],
    word: u64,
    text: &mut String,
) -> Result<bool, Memory>
    requires { length heap.now ≤ HEAP_LIMIT }
    ensures { IfOk result (λ yes. HasShown (symbols_of symbols.now).definitions (string_bytes text.old)
        (term_at (symbols_of symbols.now) heap.now word) yes (string_bytes text.new)) }
{
    let below = heap.len();
    let mut pieces = Vec::new(alloc);
    push(&mut pieces, Piece::Term(Reference { below, word }))?;
    while let Some(piece) = pieces.pop() {
        if !show_piece(alloc, symbols, heap, piece, &mut pieces, text)? {
            return Ok(false);
        }
    }
    Ok(true)
}

// Writes a piece, or what it begins with, and puts what is left of it behind the others. Answers whether what was written is a
// term's.
#[tactic(auto, using(crate::proofs::Pieces::pieces))]
fn show_piece<'a>(
    alloc: Global,
    symbols: &'a Symbols,
    heap: &'a [u64],
    piece: Piece<'a>,
    pieces: &mut Vec<Piece<'a>>,
    text: &mut String,
) -> Result<bool, Memory>
    requires { length heap.now ≤ HEAP_LIMIT }
    ensures text { IfOk result (λ yes. WritesFirst (symbols_of symbols.now) heap.now yes (string_bytes text.new) pieces.new.items (string_bytes text.old)
        (piece_text (symbols_of symbols.now) heap.now piece.entry) pieces.old.items) }
    ensures less { OnOk result (IsLess (symbols_of symbols.now) heap.now pieces.new.items
        (piece_size (symbols_of symbols.now) heap.now piece.entry) pieces.old.items) }
{
    match piece {
        Piece::Term(at) => show_first(alloc, symbols, heap, at, pieces, text),
        Piece::Rest(rest) => show_rest(symbols, heap, rest, pieces, text),
        Piece::Elements { below, words } => {
            show_elements(symbols, heap, below, words, pieces, text)?;
            Ok(true)
        }
        Piece::ListEnd => {
            text.push_str("]")?;
            Ok(true)
        }
        Piece::TupleEnd => {
            text.push_str("}")?;
            Ok(true)
        }
    }
}

// Writes what a term begins with: all of it, but for the parts of lists and tuples.
#[tactic(auto, using(crate::proofs::Pieces::pieces))]
fn show_first<'a>(
    alloc: Global,
    symbols: &'a Symbols,
    heap: &'a [u64],
    at: Reference,
    pieces: &mut Vec<Piece<'a>>,
    text: &mut String,
) -> Result<bool, Memory>
    requires { length heap.now ≤ HEAP_LIMIT }
    ensures text { IfOk result (λ yes. WritesFirst (symbols_of symbols.now) heap.now yes (string_bytes text.new) pieces.new.items (string_bytes text.old)
        (text_of (symbols_of symbols.now).definitions (term_below (symbols_of symbols.now) heap.now (reference_of at))) pieces.old.items) }
    ensures less { OnOk result (IsLess (symbols_of symbols.now) heap.now pieces.new.items
        (size_below (symbols_of symbols.now) heap.now (reference_of at)) pieces.old.items) }
{
    match shape_at(symbols, heap, at) {
        None => return Ok(false),
        Some(Shape::Integer(n)) => show_integer(alloc, n, text)?,
        Some(Shape::Atom(a)) => show_atom(alloc, a, text)?,
        Some(Shape::Nil) => text.push_str("[]")?,
        Some(Shape::Cons(head, tail)) => {
            text.push_str("[")?;
            push(pieces, Piece::Rest(tail))?;
            push(pieces, Piece::Term(head))?;
        }
        Some(Shape::Tuple { below, elements }) => show_tuple(
            symbols, heap, below, elements, pieces, text,
        )?,
        Some(
            Shape::Fun {
                number,
                below,
                captured,
            },
        ) => {
            if !words_stand(alloc, symbols, heap, below, captured)? {
                return Ok(false);
            }
            show_fun(alloc, symbols, number, text)?;
        }
    }
    Ok(true)
}

// Writes what a tuple begins with.
#[tactic(auto, using(crate::proofs::Pieces::pieces))]
fn show_tuple<'a>(
    symbols: &Symbols,
    heap: &[u64],
    below: usize,
    words: &'a [u64],
    pieces: &mut Vec<Piece<'a>>,
    text: &mut String,
) -> Result<(), Memory>
    ensures text { OnOk result (WritesFirst (symbols_of symbols.now) heap.now true (string_bytes text.new) pieces.new.items (string_bytes text.old)
        (tuple_written (all_text (symbols_of symbols.now).definitions (terms_below (symbols_of symbols.now) heap.now below words.now))) pieces.old.items) }
    ensures less { OnOk result (IsLess (symbols_of symbols.now) heap.now pieces.new.items
        (words_size (symbols_of symbols.now) heap.now below words.now + 3) pieces.old.items) }
{
    text.push_str("{")?;
    push(pieces, Piece::TupleEnd)?;
    push_elements(symbols, heap, below, words, pieces)
}

// Puts the elements of a tuple behind the others, the first of them last, if there are any.
#[tactic(auto, using(crate::proofs::Pieces::pieces))]
fn push_elements<'a>(
    symbols: &Symbols,
    heap: &[u64],
    below: usize,
    words: &'a [u64],
    pieces: &mut Vec<Piece<'a>>,
) -> Result<(), Memory>
    ensures text { OnOk result (text_last (symbols_of symbols.now) heap.now pieces.new.items
        ≡ followed_by (all_text (symbols_of symbols.now).definitions (terms_below (symbols_of symbols.now) heap.now below words.now))
        (text_last (symbols_of symbols.now) heap.now pieces.old.items)) }
    ensures less { OnOk result (IsLess (symbols_of symbols.now) heap.now pieces.new.items
        (words_size (symbols_of symbols.now) heap.now below words.now) pieces.old.items) }
{
    match words.split_first() {
        None => Ok(()),
        Some((first, others)) => {
            push(
                pieces,
                Piece::Elements {
                    below,
                    words: others,
                },
            )?;
            push(
                pieces,
                Piece::Term(Reference {
                    below,
                    word: *first,
                }),
            )
        }
    }
}

// Writes what the elements of a tuple behind its first begin with.
#[tactic(auto, using(crate::proofs::Pieces::pieces))]
fn show_elements<'a>(
    symbols: &Symbols,
    heap: &[u64],
    below: usize,
    words: &'a [u64],
    pieces: &mut Vec<Piece<'a>>,
    text: &mut String,
) -> Result<(), Memory>
    ensures text { OnOk result (WritesFirst (symbols_of symbols.now) heap.now true (string_bytes text.new) pieces.new.items (string_bytes text.old)
        (more_text (symbols_of symbols.now).definitions (terms_below (symbols_of symbols.now) heap.now below words.now)) pieces.old.items) }
    ensures less { OnOk result (IsLess (symbols_of symbols.now) heap.now pieces.new.items
        (words_size (symbols_of symbols.now) heap.now below words.now) pieces.old.items) }
{
    if words.is_empty() {
        return Ok(());
    }
    text.push_str(",")?;
    push_elements(symbols, heap, below, words, pieces)
}

// Writes what the rest of a list begins with.
#[tactic(auto, using(crate::proofs::Pieces::pieces))]
fn show_rest<'a>(
    symbols: &'a Symbols,
    heap: &'a [u64],
    rest: Reference,
    pieces: &mut Vec<Piece<'a>>,
    text: &mut String,
) -> Result<bool, Memory>
    requires { length heap.now ≤ HEAP_LIMIT }
    ensures text { IfOk result (λ yes. WritesFirst (symbols_of symbols.now) heap.now yes (string_bytes text.new) pieces.new.items (string_bytes text.old)
        (rest_text (symbols_of symbols.now).definitions (term_below (symbols_of symbols.now) heap.now (reference_of rest))) pieces.old.items) }
    ensures less { OnOk result (IsLess (symbols_of symbols.now) heap.now pieces.new.items
        (size_below (symbols_of symbols.now) heap.now (reference_of rest) + 2) pieces.old.items) }
{
    match shape_at(symbols, heap, rest) {
        None => return Ok(false),
        Some(Shape::Cons(head, tail)) => {
            text.push_str(",")?;
            push(pieces, Piece::Rest(tail))?;
            push(pieces, Piece::Term(head))?;
        }
        Some(Shape::Nil) => text.push_str("]")?,
        Some(Shape::Integer(_)) => show_bar(symbols, heap, rest, pieces, text)?,
        Some(Shape::Atom(_)) => show_bar(symbols, heap, rest, pieces, text)?,
        Some(Shape::Tuple { .. }) => show_bar(symbols, heap, rest, pieces, text)?,
        Some(Shape::Fun { .. }) => show_bar(symbols, heap, rest, pieces, text)?,
    }
    Ok(true)
}

// Writes the bar before a list's tail that is no list.
#[tactic(auto, using(crate::proofs::Pieces::pieces))]
fn show_bar<'a>(
    symbols: &Symbols,
    heap: &[u64],
    tail: Reference,
    pieces: &mut Vec<Piece<'a>>,
    text: &mut String,
) -> Result<(), Memory>
    ensures text { OnOk result (WritesFirst (symbols_of symbols.now) heap.now true (string_bytes text.new) pieces.new.items (string_bytes text.old)
        (bar_text (text_of (symbols_of symbols.now).definitions (term_below (symbols_of symbols.now) heap.now (reference_of tail)))) pieces.old.items) }
    ensures less { OnOk result (IsLess (symbols_of symbols.now) heap.now pieces.new.items
        (size_below (symbols_of symbols.now) heap.now (reference_of tail) + 2) pieces.old.items) }
{
    text.push_str("|")?;
    push(pieces, Piece::ListEnd)?;
    push(pieces, Piece::Term(tail))
}

fn show_integer(alloc: Global, n: i64, text: &mut String) -> Result<(), Memory>
    ensures { OnOk result (string_bytes text.new ≡ string_bytes text.old ++ signed_decimal n) }
{
    let decimal = format!(in alloc; "{n}")?;
    text.push_str(decimal.as_str())
}
