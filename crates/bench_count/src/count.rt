// What is counted.
ghost use Rattle.std.specs.Prelude.{◌≤◌, length};

use core_reader::read_module;
use core_token::tokens;
use hipe_base::limits::TEXT_LIMIT;
use std::alloc::Global;

// The number of tokens of a text.
fn token_count(alloc: Global, text: &[u8]) -> Option<usize>
    requires { length text.now ≤ TEXT_LIMIT }
{
    match tokens(alloc, text) {
        Ok(tokens) => Some(tokens.list().len()),
        Err(_) => None,
    }
}

// The number of definitions of a module.
fn definition_count(alloc: Global, text: &[u8]) -> Option<usize>
    requires { length text.now ≤ TEXT_LIMIT }
{
    match read_module(alloc, text) {
        Ok(module) => Some(module.defs.len()),
        Err(_) => None,
    }
}

/// The number of `tokens` of a text, or of `definitions` of a module. None where the text is refused, where there is no memory, and
/// for another argument.
pub fn count_of(alloc: Global, what: &str, text: &[u8]) -> Option<usize>
    requires { length text.now ≤ TEXT_LIMIT }
{
    if what == "tokens" {
        token_count(alloc, text)
    } else if what == "definitions" {
        definition_count(alloc, text)
    } else {
        None
    }
}
