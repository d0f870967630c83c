// What holds of the tokens of every text.

ghost use Rattle.core_token.specs.Laws.{TokensAreUnique, TokensAreRead, TokensStand, TokensAreLongest, ValuesAreRead};

/// A text has exactly one list of tokens or exactly one first fault.
pub fn tokens_are_unique()
    ensures { TokensAreUnique }
{}

/// The tokens that are read of a text are those that it has, and so is its first fault.
pub fn tokens_are_read()
    ensures { TokensAreRead }
{}

/// Each token of a text stands in it, in the order of the text, and has the value of its sort: an integer its number, which
/// is in the range, a character its code point, an atom and a text their code points, those of an atom at most `ATOM_LIMIT`.
pub fn tokens_stand()
    ensures { TokensStand }
{}

/// A token is the longest that begins where it stands.
pub fn tokens_are_longest()
    ensures { TokensAreLongest }
{}

/// The values that `integer_of`, `character_of` and `code_points_of` read of a token's bytes are those that are spelled there.
pub fn values_are_read()
    ensures { ValuesAreRead }
{}
