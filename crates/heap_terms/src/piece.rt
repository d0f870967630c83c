// What of a text is still to be written.

ghost use Rattle.std.specs.Prelude.{◌≡◌, ◌++◌, [], ◌∷◌, OnOk};

use crate::shape::Reference;
use hipe_base::Memory;

/// A part of a text that is still to be written.
#[derive(Clone, Copy)]
pub enum Piece<'a> {
    /// A term.
    Term(Reference),
    /// What comes behind an element of a list, where this is the rest of the list.
    Rest(Reference),
    /// The elements of a tuple behind its first, which refer below the tuple.
    Elements { below: usize, words: &'a [u64] },
    /// The end of a list.
    ListEnd,
    /// The end of a tuple.
    TupleEnd,
}

/// Puts a piece behind the others. An error where there is no memory for it.
pub fn push<'a>(pieces: &mut Vec<Piece<'a>>, piece: Piece<'a>) -> Result<(), Memory>
    ensures { OnOk result (pieces.new.items ≡ pieces.old.items ++ piece.entry ∷ []) }
{
    match pieces.push(piece) {
        Ok(()) => Ok(()),
        Err(_) => Err(Memory),
    }
}
