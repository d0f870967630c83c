// The services by number.

ghost use Rattle.std.specs.Prelude.{◌≡◌, ◌≤◌, ◌+◌, ◌*◌, length, Some, IfOk, OnErr};
ghost use Rattle.hipe_terms.specs.Classes.{class_numbered};
ghost use Rattle.region_memory.specs.declared.layout.TheConstants.{HEAP_LIMIT};
ghost use Rattle.heap_terms.specs.Seen.{symbols_of};
ghost use Rattle.heap_terms.specs.Shapes.{shape_at, from_outside};
ghost use Rattle.heap_terms.specs.Terms.{term_at};
ghost use Rattle.machine_services.specs.Comparing.{compared};
ghost use Rattle.machine_services.specs.Lists.{spine_at, cells_from};
ghost use Rattle.machine_services.specs.Services.{service, does, returned, raised, displayed, by_order, length_word, placed_list, appended, copied, free_index};
ghost use Rattle.machine_services.specs.declared.list.Spine.TheVariants.{Proper};
ghost use Rattle.machine_services.specs.Ends.{spine_seen, spine_elements};
ghost use Rattle.machine_services.specs.Served.{IsServed};

use crate::compare::compare;
use crate::list::{
    Room, Spine, copy_cells, elements, elements_at, follow, from_outside, link_at, put_cells,
    put_tuple, room_at, stands_below,
};
use crate::service::Service;
use heap_terms::tags::OBJECT_TAG;
use heap_terms::{Symbols, show_word, stands};
use hipe_base::Memory;
use hipe_terms::Class;
use std::alloc::Global;
use std::cmp::Ordering;

/// The plain number -1 in a word.
const MINUS_ONE: u64 = u64::MAX;

// The words that a service answers by the order of two others.
#[derive(Clone, Copy)]
struct OrderWords {
    less: u64,
    equal: u64,
    greater: u64,
}

// 1 where two words stand for equal terms, else 0.
const EQUALITY: OrderWords = OrderWords {
    less: 0,
    equal: 1,
    greater: 0,
};

// -1, 0 or 1 by the order of two words.
const ORDER: OrderWords = OrderWords {
    less: MINUS_ONE,
    equal: 0,
    greater: 1,
};

/// A call of a service: what stands in the registers rax, rdi, rsi and r15.
#[derive(Clone, Copy, Debug)]
pub struct ServiceCall {
    /// The number of the service.
    pub number: u64,
    /// The word in rdi: the first argument.
    pub first: u64,
    /// The word in rsi: the second argument, or the number of the class of what is raised.
    pub second: u64,
    /// The heap pointer: the address of the heap's first unused word.
    pub free: u64,
}

/// What a service did.
#[derive(Debug, Drop)]
pub enum Served {
    /// There is no next state.
    NoNext,
    /// The run returned the value in rdi.
    Returned,
    /// The run raised the reason in rdi.
    Raised(Class),
    /// The heap has no room for the words.
    HeapFull,
    /// The stack has no room.
    StackFull,
    /// It goes on with this word in rax.
    Answered(u64),
    /// It goes on with the word of `'true'` in rax, once this line is written: the text of a term and a newline.
    Displayed(String),
    /// It goes on with the result in rax; so many words were put into the heap from the heap pointer on.
    Built {
        /// The word of what was built.
        result: u64,
        /// How many words were put into the heap.
        words: usize,
    },
}

/// Does the service over the heap. Its number is in rax, its arguments are in rdi and rsi, and the heap pointer is in r15.
///
/// | rax | what it does | rdi | rsi | what it answers |
/// |---|---|---|---|---|
/// | 0 | ends a run that returned | the value | | `Returned` |
/// | 1 | ends a run that raised | the reason | the class: 1 error, 2 exit, 3 throw | `Raised` |
/// | 2 | ends a run whose heap is full | | | `HeapFull` |
/// | 3 | ends a run whose stack is full | | | `StackFull` |
/// | 4 | displays a term | the term | | `Displayed` with the term's text and a newline |
/// | 5 | tells whether two terms are equal | the one | the other | `Answered`: 1 where they are equal, else 0 |
/// | 6 | compares two terms | the one | the other | `Answered`: -1, 0 or 1 where the one is less than, equal to or greater than the other |
/// | 7 | counts the elements of a list | the list | | `Answered`: the length of a proper list, else -1 |
/// | 8 | puts a list before a word | the list | the word | `Built` with its cells, or `Answered`: the word where the list is nil, 0 where it is no proper list |
/// | 9 | copies a tuple | the tuple | | `Built` with the copy |
///
/// What `Answered` gives is a plain number, -1 as 2^64 - 1. 0, 1 and 4 follow their term whole, 5 and 6 both from the left as far as
/// the answer needs, 7 and 8 the cells of the list in rdi, and 9 the header of its tuple.
///
/// The answer is `NoNext` where a word that is followed stands for no term, or that of 9 for no tuple; at any other number or class;
/// and where 8 or 9 would build and r15 isn't the address of a word of the heap or of its end. Where the words of 8 or 9 don't fit
/// at the heap pointer, it is `HeapFull`. The heap changes where the answer is `Built`, from the heap pointer on alone.
///
/// # Errors
///
/// `Memory` where there is no memory for what is still to be followed, for a line, or for the elements of a list that stands
/// at or above the heap pointer where it is copied: the heap stays as it was.
#[tactic(auto, unfolding(crate::specs::Services::service))]
pub fn serve(
    alloc: Global,
    symbols: &Symbols,
    heap: &mut [u64],
    call: ServiceCall,
) -> Result<Served, Memory>
    requires { length heap.old ≤ HEAP_LIMIT }
    ensures served { IfOk result (λ s. IsServed (symbols_of symbols.now).definitions heap.old call.free
        (service (symbols_of symbols.now) heap.old call.number call.first call.second call.free) s heap.new) }
    ensures memory { OnErr result (heap.new ≡ heap.old) }
{
    match Service::from_number(call.number) {
        Some(service) => serve_by(alloc, symbols, heap, service, call),
        None => Ok(Served::NoNext),
    }
}

// Does this service over the heap.
fn serve_by(
    alloc: Global,
    symbols: &Symbols,
    heap: &mut [u64],
    service: Service,
    call: ServiceCall,
) -> Result<Served, Memory>
    requires { length heap.old ≤ HEAP_LIMIT }
    ensures served { IfOk result (λ s. IsServed (symbols_of symbols.now).definitions heap.old call.free
        (does (symbols_of symbols.now) heap.old service call.first call.second call.free) s heap.new) }
    ensures memory { OnErr result (heap.new ≡ heap.old) }
{
    match service {
        Service::Return => returned(alloc, symbols, heap, call),
        Service::Raise => raised(alloc, symbols, heap, call),
        Service::HeapFull => Ok(Served::HeapFull),
        Service::StackFull => Ok(Served::StackFull),
        Service::Display => displayed(alloc, symbols, heap, call),
        Service::Equal => by_order(alloc, symbols, heap, call, EQUALITY),
        Service::Compare => by_order(alloc, symbols, heap, call, ORDER),
        Service::Length => Ok(length_word(symbols, heap, call)),
        Service::Append => appended(alloc, symbols, heap, call),
        Service::CopyTuple => Ok(copied(symbols, heap, call)),
    }
}

// The end of a run that returned.
fn returned(
    alloc: Global,
    symbols: &Symbols,
    heap: &[u64],
    call: ServiceCall,
) -> Result<Served, Memory>
    requires { length heap.now ≤ HEAP_LIMIT }
    ensures { IfOk result (λ s. IsServed (symbols_of symbols.now).definitions heap.now call.free
        (returned (term_at (symbols_of symbols.now) heap.now call.first)) s heap.now) }
{
    if stands(alloc, symbols, heap, call.first)? {
        Ok(Served::Returned)
    } else {
        Ok(Served::NoNext)
    }
}

// The end of a run that raised.
fn raised(
    alloc: Global,
    symbols: &Symbols,
    heap: &[u64],
    call: ServiceCall,
) -> Result<Served, Memory>
    requires { length heap.now ≤ HEAP_LIMIT }
    ensures { IfOk result (λ s. IsServed (symbols_of symbols.now).definitions heap.now call.free
        (raised (class_numbered call.second) (term_at (symbols_of symbols.now) heap.now call.first)) s heap.now) }
{
    match Class::from_number(call.second) {
        None => Ok(Served::NoNext),
        Some(class) => {
            if stands(alloc, symbols, heap, call.first)? {
                Ok(Served::Raised(class))
            } else {
                Ok(Served::NoNext)
            }
        }
    }
}

// The line of a term.
fn displayed(
    alloc: Global,
    symbols: &Symbols,
    heap: &[u64],
    call: ServiceCall,
) -> Result<Served, Memory>
    requires { length heap.now ≤ HEAP_LIMIT }
    ensures { IfOk result (λ s. IsServed (symbols_of symbols.now).definitions heap.now call.free
        (displayed (term_at (symbols_of symbols.now) heap.now call.first)) s heap.now) }
{
    let mut text = String::new(alloc);
    if show_word(alloc, symbols, heap, call.first, &mut text)? {
        text.push_str("\n")?;
        Ok(Served::Displayed(text))
    } else {
        Ok(Served::NoNext)
    }
}

// One of three words by the order of two others.
fn by_order(
    alloc: Global,
    symbols: &Symbols,
    heap: &[u64],
    call: ServiceCall,
    words: OrderWords,
) -> Result<Served, Memory>
    requires { length heap.now ≤ HEAP_LIMIT }
    ensures { IfOk result (λ s. IsServed (symbols_of symbols.now).definitions heap.now call.free
        (by_order words.less words.equal words.greater (compared (symbols_of symbols.now) heap.now call.first call.second)) s heap.now) }
{
    match compare(alloc, symbols, heap, call.first, call.second)? {
        None => Ok(Served::NoNext),
        Some(order) => match order {
            Ordering::Less => Ok(Served::Answered(words.less)),
            Ordering::Equal => Ok(Served::Answered(words.equal)),
            Ordering::Greater => Ok(Served::Answered(words.greater)),
        },
    }
}

// The length of a proper list, else -1.
fn length_word(symbols: &Symbols, heap: &[u64], call: ServiceCall) -> Served
    requires { length heap.now ≤ HEAP_LIMIT }
    ensures { IsServed (symbols_of symbols.now).definitions heap.now call.free
        (length_word (spine_at (symbols_of symbols.now) heap.now call.first)) result heap.now }
{
    match follow(symbols, heap, call.first) {
        Spine::NoTerm => Served::NoNext,
        Spine::Improper => Served::Answered(MINUS_ONE),
        Spine::Proper(n) => Served::Answered(n as u64),
    }
}

// A list before another: 0 where it is no proper list.
fn appended(
    alloc: Global,
    symbols: &Symbols,
    heap: &mut [u64],
    call: ServiceCall,
) -> Result<Served, Memory>
    requires { length heap.old ≤ HEAP_LIMIT }
    ensures served { IfOk result (λ s. IsServed (symbols_of symbols.now).definitions heap.old call.free
        (appended heap.old call.free (spine_at (symbols_of symbols.now) heap.old call.first) call.second) s heap.new) }
    ensures memory { OnErr result (heap.new ≡ heap.old) }
{
    match follow(symbols, heap, call.first) {
        Spine::NoTerm => Ok(Served::NoNext),
        Spine::Improper => Ok(Served::Answered(0)),
        // Nothing is built, so the heap pointer doesn't matter.
        Spine::Proper(0) => Ok(Served::Answered(call.second)),
        Spine::Proper(n) => match room_at(heap, call.free, 2 * n) {
            Room::Outside => Ok(Served::NoNext),
            Room::Full => Ok(Served::HeapFull),
            Room::At(i) => built(alloc, symbols, heap, call, n, i),
        },
    }
}

// A list of so many elements before another, from the word with this number on.
fn built(
    alloc: Global,
    symbols: &Symbols,
    heap: &mut [u64],
    call: ServiceCall,
    count: usize,
    at: usize,
) -> Result<Served, Memory>
    requires limit { length heap.old ≤ HEAP_LIMIT }
    requires list { spine_seen (spine_at (symbols_of symbols.now) heap.old call.first) ≡ Proper count }
    requires index { free_index heap.old call.free ≡ Some at }
    requires room { at + 2 * count ≤ length heap.old }
    ensures served { IfOk result (λ s. IsServed (symbols_of symbols.now).definitions heap.old call.free
        (placed_list heap.old call.free (cells_from call.free (spine_elements (spine_at (symbols_of symbols.now) heap.old call.first)) call.second)) s heap.new) }
    ensures memory { OnErr result (heap.new ≡ heap.old) }
{
    let words = 2 * count;
    let list = link_at(symbols, heap, from_outside(heap, call.first));
    if stands_below(list, at) {
        let result = copy_cells(symbols, heap, list, count, at, call.free, call.second);
        return Ok(Served::Built { result, words });
    }
    // Words of the list stand where its copy goes, so they are taken first.
    let found = elements(alloc, symbols, heap, call.first)?;
    let result = put_cells(heap, at, call.free, found.as_slice(), call.second);
    Ok(Served::Built { result, words })
}

// A copy of a tuple.
fn copied(symbols: &Symbols, heap: &mut [u64], call: ServiceCall) -> Served
    requires { length heap.old ≤ HEAP_LIMIT }
    ensures { IsServed (symbols_of symbols.now).definitions heap.old call.free
        (copied heap.old call.free (shape_at (symbols_of symbols.now) heap.old (from_outside heap.old call.first))) result heap.new }
{
    match elements_at(symbols, heap, call.first) {
        None => Served::NoNext,
        Some(elements) => match room_at(heap, call.free, 1 + elements.words) {
            Room::Outside => Served::NoNext,
            Room::Full => Served::HeapFull,
            Room::At(i) => {
                put_tuple(heap, i, elements);
                Served::Built {
                    result: call.free + OBJECT_TAG,
                    words: 1 + elements.words,
                }
            }
        },
    }
}
