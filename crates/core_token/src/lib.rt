// The tokens of a text of Core Erlang.
//
// Promises: `tokens` cuts a text into its tokens: atoms, variables, integers, floats, characters, texts, keywords and signs, each with
// its place and its bytes. It answers the one list of tokens that the text has, or the first fault with its kind and place, or that
// memory ran out. A text that isn't UTF-8 is refused at its first ill-formed byte, before anything else.
//
// The rules are specs/Spelling.antt, what each sort of token is spelled like, and specs/Text.antt, which list of tokens and which
// first fault a text has. They cite no function that reads: that what is read is what they say, and that there is one answer, is
// proved. What stands below tokens, as characters, escapes and places, is in core_text.
//
// May touch: memory alone, for the list and for code points.
//
// Files:
//   token.rt      tokens, lists of tokens, and faults
//   number.rt     integers and floats
//   lexeme.rt     the token at the beginning of a text
//   scan.rt       the tokens of a whole text
//   value.rt      what tokens mean: numbers and code points
//   laws.rt       what holds of the tokens of every text
#![tactic(auto)]

mod laws;
mod lexeme;
mod number;
mod scan;
mod token;
mod value;

pub use laws::{
    tokens_are_longest, tokens_are_read, tokens_are_unique, tokens_stand, values_are_read,
};
pub use scan::tokens;
pub use token::{Sort, Token, TokenFault, TokenKind, Tokens};
pub use value::{character_of, code_points_of, integer_of};
