// Lists and tuples: length, `++`, copy.

ghost use Rattle.std.specs.Prelude.{◌≡◌, ◌≤◌, ◌<◌, ◌+◌, ◌*◌, ◌^◌, ◌++◌, take, drop, ℕ, List, true, length, ◌∷◌, None, IfOk, IfSome, MatchOption};
ghost use Rattle.region_memory.specs.declared.layout.TheConstants.{HEAP_LIMIT};
ghost use Rattle.heap_terms.specs.Seen.{symbols_of, reference_of};
ghost use Rattle.heap_terms.specs.declared.tags.TheConstants.{HEADER_SCALE};
ghost use Rattle.heap_terms.specs.Shapes.{from_outside, shape_at};
ghost use Rattle.machine_services.specs.Lists.{spine_at, spine_below, cells_from};
ghost use Rattle.machine_services.specs.Services.{free_index};
ghost use Rattle.machine_services.specs.declared.list.Spine.TheVariants.{Proper};
ghost use Rattle.machine_services.specs.Ends.{stands_below, spine_elements, IsProper, spine_seen, IsWithin, link_of, link_spine, FallsBelow, list_word, elements_of, StandAt, room_of};

use heap_terms::tags::{CONS_TAG, HEADER_SCALE};
use heap_terms::{Reference, Shape, Symbols, shape_at};
use hipe_base::Memory;
use region_memory::layout::HEAP_END;
use std::alloc::Global;

/// How a list ends.
#[derive(Clone, Copy, Debug, PartialEq, Eq)]
pub enum Spine {
    /// A word on the way is no term.
    NoTerm,
    /// Otherwise than in nil.
    Improper,
    /// In nil, behind so many elements.
    Proper(usize),
}

/// What a list's word leads to.
#[derive(Clone, Copy)]
pub enum Link {
    /// No term.
    NoTerm,
    /// A term that is no list.
    Improper,
    /// Nil.
    End,
    /// A cell: the word of its element, and the rest.
    Cell(u64, Reference),
}

/// A word outside the heap, which may refer to every object.
pub fn from_outside(heap: &[u64], word: u64) -> Reference
    ensures { reference_of result ≡ from_outside heap.now word }
{
    Reference {
        below: heap.len(),
        word,
    }
}

/// What a list's word leads to.
pub fn link_at(symbols: &Symbols, heap: &[u64], at: Reference) -> Link
    requires { length heap.now ≤ HEAP_LIMIT }
    ensures link { result ≡ link_of (shape_at (symbols_of symbols.now) heap.now (reference_of at)) }
    ensures level { spine_below (symbols_of symbols.now) heap.now (reference_of at) ≡ link_spine (spine_below (symbols_of symbols.now) heap.now) result }
    ensures falls { FallsBelow at.below result }
{
    match shape_at(symbols, heap, at) {
        None => Link::NoTerm,
        Some(shape) => match shape {
            Shape::Nil => Link::End,
            Shape::Cons(head, tail) => Link::Cell(head.word, tail),
            Shape::Integer(_) | Shape::Atom(_) => Link::Improper,
            Shape::Tuple { .. } | Shape::Fun { .. } => Link::Improper,
        },
    }
}

/// Follows a list to its end. Its elements aren't looked at.
pub fn follow(symbols: &Symbols, heap: &[u64], word: u64) -> Spine
    requires { length heap.now ≤ HEAP_LIMIT }
    ensures ends { result ≡ spine_seen (spine_at (symbols_of symbols.now) heap.now word) }
    ensures within { IsWithin (length heap.now) result }
{
    let mut rest = from_outside(heap, word);
    let mut elements = 0;
    'cells: loop {
        match link_at(symbols, heap, rest) {
            Link::NoTerm => return Spine::NoTerm,
            Link::Improper => return Spine::Improper,
            Link::End => return Spine::Proper(elements),
            Link::Cell(_, tail) => {
                elements += 1;
                rest = tail;
            }
        }
    }
}

/// The words of a proper list's elements. An error where there is no memory for them.
pub fn elements(
    alloc: Global,
    symbols: &Symbols,
    heap: &[u64],
    word: u64,
) -> Result<Vec<u64>, Memory>
    requires limit { length heap.now ≤ HEAP_LIMIT }
    requires proper { IsProper (spine_at (symbols_of symbols.now) heap.now word) }
    ensures { IfOk result (λ found. found.items ≡ spine_elements (spine_at (symbols_of symbols.now) heap.now word)) }
{
    let mut found = Vec::new(alloc);
    let mut rest = from_outside(heap, word);
    while let Link::Cell(head, tail) = link_at(symbols, heap, rest) {
        found.push(head)?;
        rest = tail;
    }
    Ok(found)
}

// The word of a list of so many cells that stand from an address on, the last first, before a tail.
fn list_word(free: u64, cells: usize, tail: u64) -> u64
    requires { free + 16 * cells < 2 ^ 63 }
    ensures { result ≡ list_word free cells tail }
{
    if cells == 0 {
        tail
    } else {
        free + 16 * (cells as u64 - 1) + CONS_TAG
    }
}

/// Whether the cell to which a list's word leads, if there is one, begins below the heap's word with this number.
pub fn stands_below(link: Link, at: usize) -> bool
    ensures { result ≡ stands_below at link }
{
    match link {
        Link::Cell(_, rest) => rest.below < at,
        Link::NoTerm | Link::Improper | Link::End => true,
    }
}

/// Puts the cells of a proper list of so many elements before a tail into the heap as `put_cells` does, and reads its elements as it
/// goes. Its first cell begins below, so each of the others lies below, and none is written over before it is read.
pub fn copy_cells(
    symbols: &Symbols,
    heap: &mut [u64],
    list: Link,
    count: usize,
    at: usize,
    free: u64,
    tail: u64,
) -> u64
    requires limit { length heap.old ≤ HEAP_LIMIT }
    requires list { spine_seen (link_spine (spine_below (symbols_of symbols.now) heap.old) list) ≡ Proper count }
    requires below { stands_below at list ≡ true }
    requires room { at + 2 * count ≤ length heap.old }
    requires fits { free + 16 * count < 2 ^ 63 }
    ensures word { result ≡ list_word free count tail }
    ensures cells { heap.new ≡ take at heap.old ++ (cells_from free (spine_elements (link_spine (spine_below (symbols_of symbols.now) heap.old) list)) tail).1
        ++ drop (at + 2 * count) heap.old }
{
    let mut link = list;
    let mut left = count;
    while let Link::Cell(head, rest) = link {
        left -= 1;
        link = link_at(symbols, heap, rest);
        heap[at + 2 * left] = head;
        heap[at + 2 * left + 1] = list_word(free, left, tail);
    }
    list_word(free, count, tail)
}

/// Puts the cells of a list with these elements before a tail into the heap, from the word with this number and address on, and
/// gives the list's word.
pub fn put_cells(heap: &mut [u64], at: usize, free: u64, elements: &[u64], tail: u64) -> u64
    requires room { at + 2 * length elements.now ≤ length heap.old }
    requires fits { free + 16 * length elements.now < 2 ^ 63 }
    ensures word { result ≡ (cells_from free elements.now tail).0 }
    ensures cells { heap.new ≡ take at heap.old ++ (cells_from free elements.now tail).1 ++ drop (at + 2 * length elements.now) heap.old }
{
    let mut cells = elements.len();
    for element in elements {
        cells -= 1;
        heap[at + 2 * cells] = *element;
        heap[at + 2 * cells + 1] = list_word(free, cells, tail);
    }
    list_word(free, elements.len(), tail)
}

/// Whether there is room for words at the heap pointer.
#[derive(Clone, Copy, Debug, PartialEq, Eq)]
pub enum Room {
    /// It is no place of the heap, nor its end.
    Outside,
    /// The heap ends before.
    Full,
    /// There is, from the word with this number on.
    At(usize),
}

/// Whether there is room for so many words from an address on.
pub fn room_at(heap: &[u64], free: u64, words: usize) -> Room
    requires { length heap.now ≤ HEAP_LIMIT }
    ensures { result ≡ room_of heap.now (free_index heap.now free) words }
{
    match free_index(heap, free) {
        None => Room::Outside,
        Some(i) => {
            if words <= heap.len() - i {
                Room::At(i)
            } else {
                Room::Full
            }
        }
    }
}

// The number of the heap's word at the heap pointer, which may be the end of the heap.
fn free_index(heap: &[u64], free: u64) -> Option<usize>
    requires { length heap.now ≤ HEAP_LIMIT }
    ensures number { result ≡ free_index heap.now free }
    ensures within { IfSome result (λ i. i ≤ length heap.now) }
{
    let begin = HEAP_END - 8 * heap.len() as u64;
    if free % 8 == 0 && begin <= free && free <= HEAP_END {
        Some(((free - begin) / 8) as usize)
    } else {
        None
    }
}

/// Words of the heap, one behind the other.
#[derive(Clone, Copy, Debug)]
pub struct Span {
    /// The number of the first, from 0 at the heap's lowest address on.
    pub at: usize,
    /// How many they are.
    pub words: usize,
}

/// Where the words of a tuple's elements stand, where a word outside the heap is a tuple's.
pub fn elements_at(symbols: &Symbols, heap: &[u64], word: u64) -> Option<Span>
    requires { length heap.now ≤ HEAP_LIMIT }
    ensures { MatchOption result (elements_of (shape_at (symbols_of symbols.now) heap.now (from_outside heap.now word)) ≡ None)
        (λ p. StandAt heap.now p (elements_of (shape_at (symbols_of symbols.now) heap.now (from_outside heap.now word)))) }
{
    match shape_at(symbols, heap, from_outside(heap, word)) {
        None => None,
        Some(shape) => match shape {
            Shape::Tuple { below, elements } => {
                if elements.is_empty() {
                    // What a tuple without elements refers below doesn't matter.
                    return Some(Span { at: 0, words: 0 });
                }
                Some(Span {
                    at: below + 1,
                    words: elements.len(),
                })
            }
            Shape::Integer(_) | Shape::Atom(_) | Shape::Nil => None,
            Shape::Cons(_, _) | Shape::Fun { .. } => None,
        },
    }
}

/// Puts a tuple into the heap, from the word with this number on, whose elements' words stand somewhere in it.
pub fn put_tuple(heap: &mut [u64], at: usize, elements: Span)
    requires limit { length heap.old ≤ HEAP_LIMIT }
    requires within { elements.at + elements.words ≤ length heap.old }
    requires room { at + 1 + elements.words ≤ length heap.old }
    ensures { heap.new ≡ take at heap.old ++ ((HEADER_SCALE * elements.words) ∷ take elements.words (drop elements.at heap.old)) ++ drop (at + 1 + elements.words) heap.old }
{
    heap.copy_within(elements.at..elements.at + elements.words, at + 1);
    heap[at] = HEADER_SCALE * elements.words as u64;
}
