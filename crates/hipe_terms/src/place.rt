// Places in a text.

/// A place in a text. Lines and columns are counted from 1; a line ends behind each line feed (code point 10), and each
/// other code point is one column.
#[derive(Clone, Copy, Debug, PartialEq, Eq, PartialOrd, Ord)]
pub struct Place {
    pub line: u64,
    pub col: u64,
}
