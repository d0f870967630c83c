// The words of a program and of a call.

ghost use Rattle.std.specs.Prelude.{◌≡◌, ◌≤◌, IfOk, get_or, length, map, nat_le, sum};
ghost use Rattle.hipe_base.specs.declared.limits.TheConstants.{ARITY_LIMIT};
ghost use Rattle.hipe_terms.specs.Words.{words_of};
ghost use Rattle.image_load.specs.Loading.{table_of, with_call, first_four};
ghost use Rattle.image_load.specs.Room.{left};

use hipe_base::Memory;
use hipe_terms::Constant;
use image_link::Function;
use region_memory::Region;
use region_memory::layout::CODE_BEGIN;
use std::alloc::Global;

// The function table: for each function the address of its closure entry, and its arity.
pub(crate) fn table_of(alloc: Global, functions: &[Function]) -> Result<Vec<u64>, Memory>
    ensures { IfOk result (λ table. table.items ≡ table_of functions.now) }
{
    let mut table = Vec::new(alloc);
    for function in functions {
        table.push(CODE_BEGIN + function.closure_entry as u64)?;
        table.push(function.arity as u64)?;
    }
    Ok(table)
}

// What is left of so many words behind those of a constant. `None` exactly where they aren't enough.
#[cycle(room)]
#[tactic(auto, using(crate::proofs::Levels::levels))]
fn left_by(room: u64, c: &Constant) -> Option<u64>
    ensures { result ≡ left room (words_of c.now) }
{
    match c {
        Constant::Int(_) => Some(room),
        Constant::Atom(_) => Some(room),
        Constant::Nil => Some(room),
        Constant::List(parts, tail) => {
            let room = left_by_each(room, parts.as_slice())?;
            let room = left_by(room, tail.get())?;
            let room = room.checked_sub(parts.len() as u64)?;
            room.checked_sub(parts.len() as u64)
        }
        Constant::Tuple(parts) => {
            let room = left_by_each(room, parts.as_slice())?;
            let room = room.checked_sub(parts.len() as u64)?;
            room.checked_sub(1)
        }
    }
}

#[cycle(room)]
#[tactic(auto, using(crate::proofs::Levels::levels))]
fn left_by_each(mut room: u64, parts: &[Constant]) -> Option<u64>
    ensures { result ≡ left room (sum (map words_of parts.now)) }
{
    for part in parts {
        room = left_by(room, part)?;
    }
    Some(room)
}

// Whether constants fit so many words. It goes no further than these words.
pub(crate) fn fit(room: usize, constants: &[Constant]) -> bool
    ensures { result ≡ nat_le (sum (map words_of constants.now)) room }
{
    left_by_each(room as u64, constants).is_some()
}

// The word at an index, or 0.
fn word_at(words: &[u64], index: usize) -> u64
    ensures { result ≡ get_or words.now index 0 }
{
    if index < words.len() { words[index] } else { 0 }
}

// The words of the first four arguments.
pub(crate) fn first_four(words: &[u64]) -> [u64; 4]
    ensures { result ≡ first_four words.now }
{
    [
        word_at(words, 0),
        word_at(words, 1),
        word_at(words, 2),
        word_at(words, 3),
    ]
}

// Puts a call into memory: the words that its constants were built with, the words of its arguments, and the exit part's address.
pub(crate) fn put_call(region: &mut Region, arguments: &[u64], words: &[u64])
    requires few { length arguments.now ≤ ARITY_LIMIT }
    requires fits { length words.now ≤ length region.old.heap }
    ensures { region.new ≡ with_call (arguments.now, words.now) region.old }
{
    if arguments.len() > 4 {
        region.fill_arguments(&arguments[4..]);
    }
    region.fill_heap(words);
    region.set_stack_last(CODE_BEGIN);
}
