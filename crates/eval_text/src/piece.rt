// What of a text is still to be written.

ghost use Rattle.std.specs.Prelude.{◌≡◌, ◌++◌, [], ◌∷◌, OnOk};

use eval_values::Value;
use hipe_base::Memory;

/// A part of a text that is still to be written.
#[derive(Clone, Copy)]
pub enum Piece<'a> {
    /// A value.
    Value(Value<'a>),
    /// What comes behind an element of a list, where this is the rest of the list.
    Rest(Value<'a>),
    /// The elements of a tuple behind its first.
    Elements(&'a [Value<'a>]),
    /// The end of a list.
    ListEnd,
    /// The end of a tuple.
    TupleEnd,
}

/// Puts a piece behind the others. An error where there is no memory for it.
pub fn push<'a>(pieces: &mut Vec<Piece<'a>>, piece: Piece<'a>) -> Result<(), Memory>
    ensures { OnOk result (pieces.new.items ≡ pieces.old.items ++ piece.entry ∷ []) }
{
    match pieces.push(piece) {
        Ok(()) => Ok(()),
        Err(_) => Err(Memory),
    }
}
