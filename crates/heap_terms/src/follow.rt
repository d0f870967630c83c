// Whether a word stands for a term.

ghost use Rattle.std.specs.Prelude.{◌≡◌, ◌≤◌, ◌++◌, true, [], ◌∷◌, length, IfOk, OnOk};
ghost use Rattle.region_memory.specs.declared.layout.TheConstants.{HEAP_LIMIT};
ghost use Rattle.heap_terms.specs.Terms.{term_at, term_below, is_some};
ghost use Rattle.heap_terms.specs.Parts.{size_below};
ghost use Rattle.heap_terms.specs.Following.{words_stand, words_size, pending_stands, pending_size, stand_last, StandsOn, IsLess, IsAtMost};
ghost use Rattle.heap_terms.specs.Seen.{symbols_of, reference_of};

use crate::shape::{Reference, Shape, shape_at};
use crate::symbols::Symbols;
use hipe_base::Memory;
use std::alloc::Global;

/// Words that are still to be followed.
#[derive(Clone, Copy)]
enum Pending<'a> {
    /// One word.
    One(Reference),
    /// The words of an object's parts, which refer below it.
    Each { below: usize, words: &'a [u64] },
}

/// Whether a word outside the heap stands for a term. It follows the whole term. An error where there is no memory for what is
/// still to be followed.
#[tactic(auto, using(crate::proofs::Following::following))]
pub fn stands(alloc: Global, symbols: &Symbols, heap: &[u64], word: u64) -> Result<bool, Memory>
    requires { length heap.now ≤ HEAP_LIMIT }
    ensures { IfOk result (λ yes. yes ≡ is_some (term_at (symbols_of symbols.now) heap.now word)) }
{
    let below = heap.len();
    let mut pending = Vec::new(alloc);
    push(&mut pending, Pending::One(Reference { below, word }))?;
    follow_all(symbols, heap, pending)
}

/// Whether each of the words of an object's parts, which refer below it, stands for a term. An error where there is no memory for
/// what is still to be followed.
#[tactic(auto, using(crate::proofs::Following::following))]
pub fn words_stand(
    alloc: Global,
    symbols: &Symbols,
    heap: &[u64],
    below: usize,
    words: &[u64],
) -> Result<bool, Memory>
    requires { length heap.now ≤ HEAP_LIMIT }
    ensures { IfOk result (λ yes. yes ≡ words_stand (symbols_of symbols.now) heap.now below words.now) }
{
    let mut pending = Vec::new(alloc);
    push(&mut pending, Pending::Each { below, words })?;
    follow_all(symbols, heap, pending)
}

// Follows all that is left to follow. Answers whether each word that it comes to has a shape.
#[tactic(auto, using(crate::proofs::Following::following))]
fn follow_all<'a>(
    symbols: &'a Symbols,
    heap: &'a [u64],
    mut pending: Vec<Pending<'a>>,
) -> Result<bool, Memory>
    requires { length heap.now ≤ HEAP_LIMIT }
    ensures { IfOk result (λ yes. yes ≡ stand_last (symbols_of symbols.now) heap.now pending.entry.items) }
{
    while let Some(next) = pending.pop() {
        if !follow(symbols, heap, next, &mut pending)? {
            return Ok(false);
        }
    }
    Ok(true)
}

// Follows the next word, and puts what is left to follow behind the others. Answers whether the word has a shape.
#[tactic(auto, using(crate::proofs::Following::following))]
fn follow<'a>(
    symbols: &'a Symbols,
    heap: &'a [u64],
    next: Pending<'a>,
    pending: &mut Vec<Pending<'a>>,
) -> Result<bool, Memory>
    requires { length heap.now ≤ HEAP_LIMIT }
    ensures stands { IfOk result (λ yes. StandsOn (symbols_of symbols.now) heap.now yes pending.new.items
        (pending_stands (symbols_of symbols.now) heap.now next.entry) pending.old.items) }
    ensures less { OnOk result (IsLess (symbols_of symbols.now) heap.now pending.new.items
        (pending_size (symbols_of symbols.now) heap.now next.entry) pending.old.items) }
{
    match next {
        Pending::One(at) => follow_one(symbols, heap, at, pending),
        Pending::Each { below, words } => match words.split_first() {
            None => Ok(true),
            Some((word, others)) => {
                push_words(symbols, heap, below, others, pending)?;
                follow_one(symbols, heap, Reference { below, word: *word }, pending)
            }
        },
    }
}

// Follows a word to its shape, and puts the words of its parts behind the others.
#[tactic(auto, using(crate::proofs::Following::following))]
fn follow_one<'a>(
    symbols: &'a Symbols,
    heap: &'a [u64],
    at: Reference,
    pending: &mut Vec<Pending<'a>>,
) -> Result<bool, Memory>
    requires { length heap.now ≤ HEAP_LIMIT }
    ensures stands { IfOk result (λ yes. StandsOn (symbols_of symbols.now) heap.now yes pending.new.items
        (is_some (term_below (symbols_of symbols.now) heap.now (reference_of at))) pending.old.items) }
    ensures less { OnOk result (IsLess (symbols_of symbols.now) heap.now pending.new.items
        (size_below (symbols_of symbols.now) heap.now (reference_of at)) pending.old.items) }
{
    match shape_at(symbols, heap, at) {
        None => return Ok(false),
        Some(Shape::Integer(_)) | Some(Shape::Atom(_)) | Some(Shape::Nil) => {}
        Some(Shape::Cons(head, tail)) => {
            push(pending, Pending::One(tail))?;
            push(pending, Pending::One(head))?;
        }
        Some(Shape::Tuple { below, elements }) => {
            push_words(symbols, heap, below, elements, pending)?;
        }
        Some(
            Shape::Fun {
                number: _,
                below,
                captured,
            },
        ) => {
            push_words(symbols, heap, below, captured, pending)?;
        }
    }
    Ok(true)
}

// Puts words behind the others, if there are any.
#[tactic(auto, using(crate::proofs::Following::following))]
fn push_words<'a>(
    symbols: &Symbols,
    heap: &[u64],
    below: usize,
    words: &'a [u64],
    pending: &mut Vec<Pending<'a>>,
) -> Result<(), Memory>
    ensures stands { OnOk result (StandsOn (symbols_of symbols.now) heap.now true pending.new.items
        (words_stand (symbols_of symbols.now) heap.now below words.now) pending.old.items) }
    ensures size { OnOk result (IsAtMost (symbols_of symbols.now) heap.now pending.new.items
        (words_size (symbols_of symbols.now) heap.now below words.now) pending.old.items) }
{
    if words.is_empty() {
        return Ok(());
    }
    push(pending, Pending::Each { below, words })
}

// Puts words behind the others.
#[tactic(auto, using(crate::proofs::Following::following))]
fn push<'a>(pending: &mut Vec<Pending<'a>>, next: Pending<'a>) -> Result<(), Memory>
    ensures { OnOk result (pending.new.items ≡ pending.old.items ++ next.entry ∷ []) }
{
    match pending.push(next) {
        Ok(()) => Ok(()),
        Err(_) => Err(Memory),
    }
}
