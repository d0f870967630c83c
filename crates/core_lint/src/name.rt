// Names, and where they are bound.

use core_ast::Place;

/// The name of a variable, with the arity 0, or that of a function. Variables and functions are kept apart elsewhere.
#[derive(Clone, Copy, Debug, PartialEq, Eq, PartialOrd, Ord)]
pub struct Name<'a> {
    pub text: &'a str,
    pub arity: u64,
}

/// A name where it is bound.
#[derive(Clone, Copy, Debug)]
pub struct Bound<'a> {
    pub name: Name<'a>,
    pub at: Place,
}
