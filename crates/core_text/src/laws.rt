// What is read at the beginning of a text is what is spelled there, and what is spelled there is read.

ghost use Rattle.core_text.specs.Laws.{EscapesAreRead, CodePointsAreRead, QuotesAreRead, FractionsAreRead, Utf8IsRead, PlacesGoByCodePoints};

/// An escape is read if and only if one is spelled, whole and as its code point.
pub fn escapes_are_read()
    ensures { EscapesAreRead }
{}

/// A code point is read if and only if one is spelled, as a character or by an escape.
pub fn code_points_are_read()
    ensures { CodePointsAreRead }
{}

/// What stands between quotes is read if and only if it is spelled, with the number of its code points; and these are read of
/// it.
pub fn quotes_are_read()
    ensures { QuotesAreRead }
{}

/// A fraction is read if and only if one is spelled, with its exponent.
pub fn fractions_are_read()
    ensures { FractionsAreRead }
{}

/// A text has no first byte that isn't UTF-8 if and only if it is UTF-8, and else has that one.
pub fn utf8_is_read()
    ensures { Utf8IsRead }
{}

/// A line feed ends a line, and each other code point is one column, however many bytes it has.
pub fn places_go_by_code_points()
    ensures { PlacesGoByCodePoints }
{}
