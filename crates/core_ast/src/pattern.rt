// Variables and patterns.

use crate::variable::VariableName;
use hipe_terms::{Atom, Place};
use sqlite_items::{Boxed, Items};

/// A variable where it is bound.
#[derive(Debug, Drop)]
pub struct Var {
    pub name: VariableName,
    /// Where it stands. Lines and code points are counted from 1.
    pub at: Place,
}

/// A pattern.
#[cycle(pattern)]
#[derive(Drop)]
pub struct Pattern {
    pub node: PatNode,
    /// Where it begins. Lines and code points are counted from 1.
    pub at: Place,
}

/// What a pattern is. A list in the tail of a list is one list with it.
#[cycle(pattern)]
#[derive(Drop)]
pub enum PatNode {
    /// A variable, which matches every term and is bound to it.
    Var(VariableName),
    /// An integer, from `LEAST_INTEGER` to `GREATEST_INTEGER`. A character is one too.
    Int(i64),
    /// An atom.
    Atom(Atom),
    /// The empty list.
    Nil,
    /// A tuple of patterns.
    Tuple(Items<Pattern>),
    /// The patterns of the first elements, and that of the list behind them.
    List(Items<Pattern>, Boxed<Pattern>),
    /// A variable that is bound to what the pattern behind it matches.
    Alias(Var, Boxed<Pattern>),
}
