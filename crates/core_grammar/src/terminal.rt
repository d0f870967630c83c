// The terminals of the grammar: tokens with their values.

use core_ast::VariableName;
use hipe_terms::{Atom, Place};
use sqlite_items::Items;

/// A keyword or a sign of the language: a token with one spelling.
#[derive(Clone, Copy, Debug, PartialEq, Eq)]
pub enum Mark {
    /// `after`
    After,
    /// `apply`
    Apply,
    /// `attributes`
    Attributes,
    /// `call`
    Call,
    /// `case`
    Case,
    /// `catch`
    Catch,
    /// `do`
    Do,
    /// `end`
    End,
    /// `fun`
    Fun,
    /// `in`
    In,
    /// `let`
    Let,
    /// `letrec`
    Letrec,
    /// `module`
    Module,
    /// `of`
    Of,
    /// `primop`
    Primop,
    /// `receive`
    Receive,
    /// `timeout`
    Timeout,
    /// `try`
    Try,
    /// `when`
    When,
    /// `(`
    OpenRound,
    /// `)`
    CloseRound,
    /// `{`
    OpenBrace,
    /// `}`
    CloseBrace,
    /// `[`
    OpenSquare,
    /// `]`
    CloseSquare,
    /// `<`
    Less,
    /// `>`
    Greater,
    /// `,`
    Comma,
    /// `=`
    Equals,
    /// `/`
    Slash,
    /// `:`
    Colon,
    /// `|`
    Bar,
    /// `#`
    Hash,
    /// `~`
    Tilde,
    /// `->`
    Arrow,
    /// `-|`
    Dash,
}

/// What a terminal is, with its value.
#[derive(Debug, Drop)]
pub enum Kind {
    /// An atom.
    Atom(Atom),
    /// A variable.
    Variable(VariableName),
    /// An integer without a sign.
    Natural(u64),
    /// An integer with a sign, or a character.
    Integer(i64),
    /// A float, whose value nobody asks for, or a keyword or sign that the profile hasn't.
    Float,
    /// A text, as its code points.
    Text(Items<u32>),
    /// A keyword or a sign.
    Mark(Mark),
}

/// A terminal, and where it begins.
#[derive(Debug, Drop)]
pub struct Terminal {
    /// What it is.
    pub kind: Kind,
    /// Where its first character stands.
    pub at: Place,
}
