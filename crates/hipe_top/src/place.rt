// The place of a module in its text.
ghost use Rattle.std.specs.Prelude.{◌≡◌, ◌<◌, ◌≤◌, ◌^◌, length, All, IfOk, bytes_eq, codes};
ghost use Rattle.core_ast.specs.declared.tree.Module.{Module};
ghost use Rattle.core_token.specs.Text.{StandsIn};
ghost use Rattle.core_reader.specs.Language.{Reads};
ghost use Rattle.hipe_top.specs.Texts.{BeginsAt};
ghost use Rattle.hipe_top.specs.Finding.{is_module_keyword, first_keyword, ReadsSome};

use core_ast::Place;
use core_token::{Sort, Token, TokenFault, tokens};
use hipe_base::Memory;
use std::alloc::Global;

// Whether bytes are the keyword `module`.
fn is_module(bytes: &[u8]) -> bool
    ensures { result ≡ bytes_eq bytes.now (codes "module") }
{
    bytes == b"module".as_slice()
}

// Whether a token is the keyword `module`.
fn is_module_keyword(text: &[u8], token: Token) -> bool
    requires some { token.start < token.end }
    requires within { token.end ≤ length text.now }
    ensures { result ≡ is_module_keyword text.now token }
{
    token.sort == Sort::Word && is_module(&text[token.start as usize..token.end as usize])
}

// The place of the first keyword `module` among these tokens.
fn first_keyword(text: &[u8], tokens: &[Token]) -> Option<Place>
    requires { All (StandsIn text.now) tokens.now }
    ensures { result ≡ first_keyword text.now tokens.now }
{
    for token in tokens {
        if is_module_keyword(text, *token) {
            return Some(token.at);
        }
    }
    None
}

/// The place of the keyword `module` in a text that reads as a module. An error where there is no memory for the text's tokens.
pub fn module_place(alloc: Global, text: &[u8]) -> Result<Place, Memory>
    requires short { length text.now < 2 ^ 32 }
    requires reads { ReadsSome text.now }
    ensures { IfOk result (λ p. BeginsAt text.now p) }
{
    let list = match tokens(alloc, text) {
        Ok(list) => list,
        Err(TokenFault::Refused { .. }) => unreachable!(),
        Err(TokenFault::Memory) => return Err(Memory),
    };
    match first_keyword(text, list.list()) {
        Some(at) => Ok(at),
        None => unreachable!(),
    }
}
