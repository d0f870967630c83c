// The words of constants.

ghost use Rattle.std.specs.Prelude.{◌≡◌, ◌≤◌, ◌<◌, ◌^◌, ◌+◌, ◌*◌, ◌++◌, ◌∷◌, true, length, IfOk, OnOk, map, sum};
ghost use Rattle.hipe_terms.specs.Constants.{IsConstant, AreConstants};
ghost use Rattle.hipe_terms.specs.Range.{is_in_range};
ghost use Rattle.hipe_terms.specs.Words.{words_of};
ghost use Rattle.heap_terms.specs.Building.{built, all_built, cells_built, tuple_built, number_of, atom_word, IsPrefixOf};
ghost use Rattle.heap_terms.specs.Integers.{word_of};

use crate::numbers::AtomNumbers;
use crate::tags::{
    ATOM_SCALE, ATOM_TAG, CONS_TAG, HEADER_SCALE, INTEGER_SCALE, INTEGER_TAG, NIL_WORD, OBJECT_TAG,
};
use hipe_base::Memory;
use hipe_terms::{Atom, Constant};
use std::alloc::Global;

/// Puts the words of a constant behind those that a heap has so far, and answers the word that stands for it. `begin` is the
/// address of the heap's first word. An error where there is no memory for the words, also where there are 2^58 atoms or elements
/// of a tuple, whose number no word could hold. Then some of the constant's words may stand behind those that were there, which
/// stay.
#[cycle(build)]
#[tactic(auto, using(crate::proofs::Building::building))]
pub fn build<N: AtomNumbers>(
    alloc: Global,
    begin: u64,
    numbers: &N,
    c: &Constant,
    used: &mut Vec<u64>,
) -> Result<u64, Memory>
    requires good { IsConstant c.now }
    requires fits { begin + 8 * (length used.old.items + words_of c.now) < 2 ^ 63 }
    ensures built { IfOk result (λ word. (word, used.new.items) ≡ built c.now begin (N.atoms numbers.now) used.old.items) }
    ensures words { OnOk result (length used.new.items ≡ length used.old.items + words_of c.now) }
    ensures prefix { IsPrefixOf used.old.items used.new.items }
{
    match c {
        Constant::Int(n) => Ok(word_of(*n)),
        Constant::Atom(a) => atom_word(numbers, a),
        Constant::Nil => Ok(NIL_WORD),
        Constant::List(parts, tail) => {
            let words = build_each(alloc, begin, numbers, parts.as_slice(), used)?;
            let rest = build(alloc, begin, numbers, tail.get(), used)?;
            build_cells(begin, words.as_slice(), rest, used)
        }
        Constant::Tuple(parts) => {
            let words = build_each(alloc, begin, numbers, parts.as_slice(), used)?;
            build_tuple(begin, words.as_slice(), used)
        }
    }
}

/// Puts the words of constants behind those that a heap has so far, from left to right, and answers the words that stand for them.
/// `begin` is the address of the heap's first word. An error where there is no memory for the words. Then some of the words may
/// stand behind those that were there, which stay.
#[cycle(build)]
#[tactic(auto, using(crate::proofs::Building::building))]
pub fn build_each<N: AtomNumbers>(
    alloc: Global,
    begin: u64,
    numbers: &N,
    parts: &[Constant],
    used: &mut Vec<u64>,
) -> Result<Vec<u64>, Memory>
    requires good { AreConstants parts.now }
    requires fits { begin + 8 * (length used.old.items + sum (map words_of parts.now)) < 2 ^ 63 }
    ensures built { IfOk result (λ words. (words.items, used.new.items) ≡ all_built (map built parts.now) begin (N.atoms numbers.now) used.old.items) }
    ensures words { OnOk result (length used.new.items ≡ length used.old.items + sum (map words_of parts.now)) }
    ensures count { IfOk result (λ words. length words.items ≡ length parts.now) }
    ensures prefix { IsPrefixOf used.old.items used.new.items }
{
    let mut words = Vec::new(alloc);
    for part in parts {
        let word = build(alloc, begin, numbers, part, used)?;
        words.push(word)?;
    }
    Ok(words)
}

// Puts the cells of a list with these elements before its rest behind the others, the last cell first.
#[tactic(auto, using(crate::proofs::Building::cells))]
fn build_cells(begin: u64, elements: &[u64], rest: u64, used: &mut Vec<u64>) -> Result<u64, Memory>
    requires { begin + 8 * (length used.old.items + 2 * length elements.now) < 2 ^ 63 }
    ensures built { IfOk result (λ word. (word, used.new.items) ≡ cells_built begin elements.now (rest, used.old.items)) }
    ensures words { OnOk result (length used.new.items ≡ length used.old.items + 2 * length elements.now) }
    ensures prefix { IsPrefixOf used.old.items used.new.items }
{
    let mut list = rest;
    let mut left = elements.len();
    while left > 0 {
        left -= 1;
        let cell = begin + 8 * used.len() as u64 + CONS_TAG;
        used.push(elements[left])?;
        used.push(list)?;
        list = cell;
    }
    Ok(list)
}

// Puts a tuple with these elements behind the others.
#[tactic(auto, using(crate::proofs::Building::prefixes))]
fn build_tuple(begin: u64, elements: &[u64], used: &mut Vec<u64>) -> Result<u64, Memory>
    requires { begin + 8 * (length used.old.items + length elements.now + 1) < 2 ^ 63 }
    ensures built { IfOk result (λ word. (word, used.new.items) ≡ tuple_built begin (elements.now, used.old.items)) }
    ensures words { OnOk result (length used.new.items ≡ length used.old.items + length elements.now + 1) }
    ensures prefix { IsPrefixOf used.old.items used.new.items }
{
    let word = begin + 8 * used.len() as u64 + OBJECT_TAG;
    let header = (elements.len() as u64)
        .checked_mul(HEADER_SCALE)
        .ok_or(Memory)?;
    used.push(header)?;
    used.extend_from_slice(elements)?;
    Ok(word)
}

// The word of an integer.
fn word_of(n: i64) -> u64
    requires { is_in_range n ≡ true }
    ensures { result ≡ word_of n }
{
    if n < 0 {
        u64::MAX - INTEGER_SCALE * (-1 - n) as u64
    } else {
        INTEGER_SCALE * n as u64 + INTEGER_TAG
    }
}

// The word of an atom. An error where its number is too large for a word.
fn atom_word<N: AtomNumbers>(numbers: &N, atom: &Atom) -> Result<u64, Memory>
    ensures { IfOk result (λ word. word ≡ atom_word (number_of (N.atoms numbers.now) atom.now)) }
{
    let number = numbers.number(atom) as u64;
    number
        .checked_mul(ATOM_SCALE)
        .ok_or(Memory)?
        .checked_add(ATOM_TAG)
        .ok_or(Memory)
}
