// What a word is.

ghost use Rattle.std.specs.Prelude.{◌≡◌, ◌≤◌, ◌<◌, ◌^◌, length, slice_get, option_map, IsTrue};
ghost use Rattle.region_memory.specs.declared.layout.TheConstants.{HEAP_LIMIT};
ghost use Rattle.heap_terms.specs.Integers.{integer_in};
ghost use Rattle.heap_terms.specs.Shapes.{shape_at, lower, words_from, atom_shape, cons_at, object_at, object_shape, tuple_shape, fun_shape};
ghost use Rattle.heap_terms.specs.Seen.{symbols_of, reference_of, shape_seen};

use crate::symbols::Symbols;
use crate::tags::{
    ATOM_SCALE, ATOM_TAG, CONS_TAG, FUN_HEADER, HEADER_SCALE, INTEGER_SCALE, INTEGER_TAG, NIL_WORD,
    OBJECT_TAG, POINTER_SCALE, TUPLE_HEADER,
};
use hipe_terms::Atom;
use region_memory::layout::HEAP_END;

/// A word, and how far into the heap it may refer.
#[derive(Clone, Copy, Debug, PartialEq, Eq)]
pub struct Reference {
    /// The number of the heap's word, from 0 on, below which an object must begin for the word to refer to it.
    pub below: usize,
    /// The word, whose low bits say what it is.
    pub word: u64,
}

/// What a word is: one level of its term.
#[derive(Clone, Copy)]
pub enum Shape<'a> {
    /// An integer, from `LEAST_INTEGER` to `GREATEST_INTEGER`.
    Integer(i64),
    /// An atom.
    Atom(&'a Atom),
    /// The empty list.
    Nil,
    /// The first element of a list, and the rest.
    Cons(Reference, Reference),
    /// The words of a tuple's elements, which refer below the tuple.
    Tuple {
        below: usize,
        elements: &'a [u64],
    },
    /// The number of a fun's function, and the words of its captured values, which refer below the fun.
    Fun {
        number: u64,
        below: usize,
        captured: &'a [u64],
    },
}

/// What a word is, where it is one: none of another form, none whose object doesn't begin in the heap below the reference's
/// limit or doesn't lie in the heap, and no atom or function that the program hasn't. The parts aren't looked at.
#[tactic(auto, unfolding(crate::specs::Shapes::shape_at))]
pub fn shape_at<'a>(symbols: &'a Symbols, heap: &'a [u64], at: Reference) -> Option<Shape<'a>>
    requires { length heap.now ≤ HEAP_LIMIT }
    ensures { shape_seen result ≡ shape_at (symbols_of symbols.now) heap.now (reference_of at) }
{
    let Reference { below, word } = at;
    if word % INTEGER_SCALE == INTEGER_TAG {
        Some(Shape::Integer(integer_in(word)))
    } else if word % ATOM_SCALE == ATOM_TAG {
        atom_at(symbols, (word / ATOM_SCALE) as usize)
    } else if word == NIL_WORD {
        Some(Shape::Nil)
    } else if word % POINTER_SCALE == CONS_TAG {
        cons_at(heap, lower(heap, below, word - CONS_TAG))
    } else if word % POINTER_SCALE == OBJECT_TAG {
        object_at(symbols, heap, lower(heap, below, word - OBJECT_TAG))
    } else {
        None
    }
}

// The integer in a word with the tag of one: the other bits are the integer in two's complement.
fn integer_in(word: u64) -> i64
    ensures { result ≡ integer_in word }
{
    if word < 1 << 63 {
        (word / INTEGER_SCALE) as i64
    } else {
        -1 - ((u64::MAX - word) / INTEGER_SCALE) as i64
    }
}

// The heap's word at an address, by number, where it is lower than the limit.
fn lower(heap: &[u64], below: usize, address: u64) -> Option<usize>
    requires { length heap.now ≤ HEAP_LIMIT }
    ensures { result ≡ lower heap.now below address }
{
    let begin = HEAP_END - 8 * heap.len() as u64;
    if address < begin {
        return None;
    }
    let i = ((address - begin) / 8) as usize;
    if i < below { Some(i) } else { None }
}

// So many words of the heap from this one on, if it has as many.
fn words_from(heap: &[u64], i: usize, n: usize) -> Option<&[u64]>
    ensures { option_map (λ w. w.now) result ≡ words_from heap.now i n }
{
    if i <= heap.len() && n <= heap.len() - i {
        Some(&heap[i..i + n])
    } else {
        None
    }
}

// The atom with this number.
fn atom_at<'a>(symbols: &'a Symbols, number: usize) -> Option<Shape<'a>>
    ensures { shape_seen result ≡ atom_shape (slice_get symbols.now.atoms.items number) }
{
    match symbols.atoms.get(number) {
        Some(name) => Some(Shape::Atom(name)),
        None => None,
    }
}

// Two words of the heap, which are the first element and the rest of a list.
fn cons_at<'a>(heap: &'a [u64], at: Option<usize>) -> Option<Shape<'a>>
    ensures { shape_seen result ≡ cons_at heap.now at }
{
    let below = at?;
    match words_from(heap, below, 2) {
        Some([head, tail]) => Some(Shape::Cons(
            Reference { below, word: *head },
            Reference { below, word: *tail },
        )),
        _ => None,
    }
}

// An object, whose header stands here.
fn object_at<'a>(symbols: &Symbols, heap: &'a [u64], at: Option<usize>) -> Option<Shape<'a>>
    requires { length heap.now ≤ HEAP_LIMIT }
    ensures { shape_seen result ≡ object_at (symbols_of symbols.now) heap.now at }
{
    let below = at?;
    match heap.get(below) {
        Some(header) => object_shape(symbols, heap, below, *header),
        None => None,
    }
}

// An object by its header, which has the number of a tuple's elements or of a fun's captured values above its low bits.
fn object_shape<'a>(
    symbols: &Symbols,
    heap: &'a [u64],
    below: usize,
    header: u64,
) -> Option<Shape<'a>>
    requires heap { length heap.now ≤ HEAP_LIMIT }
    requires within { below < length heap.now }
    ensures { shape_seen result ≡ object_shape (symbols_of symbols.now) heap.now below (Some header) }
{
    let parts = (header / HEADER_SCALE) as usize;
    if header % HEADER_SCALE == TUPLE_HEADER {
        tuple_shape(below, words_from(heap, below + 1, parts))
    } else if header % HEADER_SCALE == FUN_HEADER {
        fun_shape(
            symbols.functions,
            below,
            words_from(heap, below + 1, parts + 1),
        )
    } else {
        None
    }
}

fn tuple_shape(below: usize, words: Option<&[u64]>) -> Option<Shape<'_>>
    ensures { shape_seen result ≡ tuple_shape below (option_map (λ w. w.now) words.entry) }
{
    let elements = words?;
    Some(Shape::Tuple { below, elements })
}

// The first word of a fun behind its header is the integer of its function's number.
fn fun_shape(functions: u64, below: usize, words: Option<&[u64]>) -> Option<Shape<'_>>
    ensures { shape_seen result ≡ fun_shape functions below (option_map (λ w. w.now) words.entry) }
{
    let (first, captured) = words?.split_first()?;
    let number = *first / INTEGER_SCALE;
    if *first % INTEGER_SCALE == INTEGER_TAG && number < functions {
        Some(Shape::Fun {
            number,
            below,
            captured,
        })
    } else {
        None
    }
}
