// What a terminal did to the parser.

/// What the symbols want that are to come.
#[derive(Clone, Copy, Debug, PartialEq, Eq)]
pub enum Wanted {
    /// Something that may be an integer.
    Integer,
    /// Something that is no integer.
    Other,
}

/// What a terminal did.
#[derive(Clone, Copy, Debug)]
pub enum Moved {
    /// It was taken.
    Plain,
    /// It was taken, and begins a part of this level.
    Begins(u32),
    /// It begins the argument of this number, and a part of this level.
    Argument(u32, u32),
    /// It is a variable as the module or the name of a `call`.
    Operand,
    /// It wasn't taken, and what is wanted in its place.
    Stuck(Wanted),
}
