// Tokens, lists of tokens, and faults of tokens.

ghost use Rattle.std.specs.Prelude.{◌≡◌, [], ◌∷◌, ◌++◌, OnErr, OnOk};

use hipe_base::Memory;
use hipe_terms::Place;
use std::alloc::Global;
use std::marker::Model;

/// What a token is.
#[derive(Clone, Copy, Debug, PartialEq, Eq)]
pub enum Sort {
    /// Characters and escapes in single quotes: at most `ATOM_LIMIT` code points.
    Atom,
    /// An upper-case letter or `_`, then letters, digits, `_` and `@`.
    Variable,
    /// Decimal digits, with a sign directly before them or without.
    Integer,
    /// An integer, a point and digits, with an exponent or without.
    Float,
    /// `$` and one code point or escape.
    Character,
    /// Characters and escapes in double quotes.
    Text,
    /// A keyword, such as `let`.
    Word,
    /// A sign, such as `->`.
    Sign,
}

/// A token: what it is, where its first character stands, and its bytes.
#[derive(Clone, Copy, Debug, PartialEq, Eq)]
pub struct Token {
    /// What it is.
    pub sort: Sort,
    /// The place of its first character.
    pub at: Place,
    /// Its first byte, counted from 0.
    pub start: u32,
    /// The byte behind its last one.
    pub end: u32,
}

/// The tokens of a text, in the order of the text. Contracts see a list of tokens.
#[derive(Debug, Drop)]
pub struct Tokens {
    tokens: Vec<Token>,
}

impl Model for Tokens {
    ghost use Rattle.std.specs.Prelude.{List};
    ghost use Rattle.core_token.specs.declared.token.Token.{Token as AToken};

    ghost Value = { List AToken };

    ghost view = { λ s. s.tokens.items };
}

impl Tokens {
    /// No tokens.
    pub fn new(alloc: Global) -> Tokens
        ensures { result ≡ [] }
    {
        Tokens {
            tokens: Vec::new(alloc),
        }
    }

    /// Puts a token at the end. The error is that memory ran out; the list is then as before.
    pub fn push(&mut self, token: Token) -> Result<(), Memory>
        ensures ok { OnOk result (self.new ≡ self.old ++ token ∷ []) }
        ensures err { OnErr result (self.new ≡ self.old) }
    {
        self.tokens.push(token)?;
        Ok(())
    }

    /// The tokens as a slice.
    pub fn list(&self) -> &[Token]
        ensures { result.now ≡ self.now }
    {
        self.tokens.as_slice()
    }
}

/// Why there is no token at a place.
#[derive(Clone, Copy, Debug, PartialEq, Eq)]
pub enum TokenKind {
    /// No token is there.
    Token,
    /// An integer that isn't from `LEAST_INTEGER` to `GREATEST_INTEGER`.
    WideInteger,
    /// An atom of more than `ATOM_LIMIT` code points.
    LongAtom,
}

/// Why a text has no list of tokens.
#[derive(Clone, Copy, Debug, PartialEq, Eq)]
pub enum TokenFault {
    /// The first fault of the text, and the place where it stands.
    Refused {
        /// What is wrong.
        kind: TokenKind,
        /// The place of the first character of what should be a token, or of the first byte that isn't UTF-8.
        at: Place,
    },
    /// Memory ran out.
    Memory,
}

impl From<Memory> for TokenFault {
    ghost use Rattle.core_token.specs.declared.token.TokenFault.TheVariants.{Memory};
    ghost use Rattle.std.specs.Prelude.{◌≡◌};

    ghost from_gives = { λ _ fault. fault ≡ Memory };

    fn from(_error: Memory) -> TokenFault {
        TokenFault::Memory
    }
}
