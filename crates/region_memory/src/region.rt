// The five regions of memory, with reads and writes of words by address.
ghost use Rattle.std.specs.Prelude.{[], ◌≡◌, ◌+◌, ◌-◌, ◌*◌, ◌%◌, ◌<◌, ◌≤◌, length, IfOk, IfSome, is_some, slice_set, take, drop, ◌++◌};
ghost use Rattle.std.specs.Option.{unwrap_or, option_map};
ghost use Rattle.std.specs.Int.{w64, from_le_bytes};
ghost use Rattle.hipe_base.specs.declared.limits.TheConstants.{CODE_LIMIT};
ghost use Rattle.region_memory.specs.Regions.{IsWithinLimits, opened, zeros, heap_begin, byte_in, word_in, spot, word_at, with_word};
ghost use Rattle.region_memory.specs.Laws.{LiesIn};
ghost use Rattle.region_memory.specs.Seen.{spot_of};

use super::layout::{
    ARGUMENT_WORDS, ARGUMENTS_BEGIN, CODE_BEGIN, HEAP_END, HEAP_LIMIT, STACK_BEGIN, STACK_LEAST,
    STACK_LIMIT, TABLE_BEGIN, TABLE_LIMIT,
};
use hipe_base::Memory;
use std::alloc::Global;
use std::marker::Model;

/// The memory of one run: code, function table, argument area, stack and heap. Contracts see it as `Regions`, the
/// lists of its bytes and words.
#[derive(Drop)]
pub struct Region {
    code: Vec<u8>,
    table: Vec<u64>,
    arguments: Vec<u64>,
    stack: Vec<u64>,
    heap: Vec<u64>,
}

impl Model for Region {
    ghost use Rattle.region_memory.specs.Regions.{Regions, IsWithinLimits};

    ghost Value = { Regions };

    ghost view = { λ r. record { code = r.code.items; table = r.table.items; arguments = r.arguments.items; stack = r.stack.items; heap = r.heap.items } };

    ghost invariant = { λ r. IsWithinLimits (record { code = r.code.items; table = r.table.items; arguments = r.arguments.items; stack = r.stack.items; heap = r.heap.items }) };
}

// Bits 32 and up of every address of a region.
const CODE_HIGH: u64 = CODE_BEGIN >> 32;

const TABLE_HIGH: u64 = TABLE_BEGIN >> 32;

const ARGUMENTS_HIGH: u64 = ARGUMENTS_BEGIN >> 32;

const STACK_HIGH: u64 = STACK_BEGIN >> 32;

const HEAP_HIGH: u64 = (HEAP_END - 1) >> 32;

// Eight bytes of memory: from this byte of the code on, or this word of another region.
#[derive(Clone, Copy)]
pub(crate) enum Place {
    Code(usize),
    Table(usize),
    Arguments(usize),
    Stack(usize),
    Heap(usize),
}

// So many words that are 0.
#[tactic(auto, unfolding(crate::specs::Regions::zeros))]
fn zero_words(alloc: Global, count: usize) -> Result<Vec<u64>, Memory>
    ensures { IfOk result (λ words. words.items ≡ zeros count) }
{
    vec![in alloc; 0u64; count]
}

// The word of a region of so many words in which the address is, if there is one.
fn word_in(begin: u64, words: usize, address: u64) -> Option<usize>
    requires { begin ≤ address }
    ensures value { result ≡ word_in begin words address }
    ensures within { IfSome result (λ word. word < words) }
{
    let word = ((address - begin) / 8) as usize;
    if word < words { Some(word) } else { None }
}

// The word of a heap of so many words that a multiple of eight is the address of, if there is one.
fn word_in_heap(words: usize, address: u64) -> Option<usize>
    requires aligned { address % 8 ≡ 0 }
    requires below_end { address < HEAP_END }
    requires heap { words ≤ HEAP_LIMIT }
    ensures value { result ≡ word_in (HEAP_END - 8 * words) words address }
    ensures within { IfSome result (λ word. word < words) }
{
    let words_from_end = ((HEAP_END - address) / 8) as usize;
    if words_from_end <= words {
        Some(words - words_from_end)
    } else {
        None
    }
}

// How far behind the code's beginning eight bytes of so many lie, if they all lie in the code.
fn byte_in_code(bytes: usize, address: u64) -> Option<usize>
    requires from { CODE_BEGIN ≤ address }
    requires below_table { address < TABLE_BEGIN }
    ensures value { result ≡ byte_in CODE_BEGIN bytes address }
    ensures within { IfSome result (λ byte. byte + 8 ≤ bytes) }
{
    let byte = (address - CODE_BEGIN) as usize;
    if byte + 8 <= bytes { Some(byte) } else { None }
}

// The eight bytes from this byte of the code on, the lowest first.
fn word_of_code(code: &[u8], byte: usize) -> u64
    requires { byte + 8 ≤ length code.now }
    ensures { result ≡ from_le_bytes w64 (take 8 (drop byte code.now)) }
{
    let mut bytes = [0u8; 8];
    bytes.copy_from_slice(&code[byte..byte + 8]);
    u64::from_le_bytes(bytes)
}

// Writes words in the place of the first ones of a list.
fn begin_with(list: &mut [u64], words: &[u64])
    requires { length words.now ≤ length list.old }
    ensures { list.new ≡ words.now ++ drop (length words.now) list.old }
{
    let (first, _) = list.split_at_mut(words.len());
    first.copy_from_slice(words);
}

impl Region {
    /// Regions of `heap` words of heap and `stack` words of stack, with no code and no function table. All words are
    /// 0. It takes memory for the heap, the stack and the argument area.
    ///
    /// # Errors
    ///
    /// `Memory` where there was no memory for them.
    pub fn open(alloc: Global, heap: u32, stack: u32) -> Result<Region, Memory>
        requires heap { heap ≤ HEAP_LIMIT }
        requires stack_least { STACK_LEAST ≤ stack }
        requires stack { stack ≤ STACK_LIMIT }
        ensures { IfOk result (λ region. region ≡ opened heap stack) }
    {
        Ok(Region {
            code: Vec::new(alloc),
            table: Vec::new(alloc),
            arguments: zero_words(alloc, ARGUMENT_WORDS)?,
            stack: zero_words(alloc, stack as usize)?,
            heap: zero_words(alloc, heap as usize)?,
        })
    }

    /// The same regions with this code, and with this function table: two words for each function, the address of
    /// its closure entry and its arity. What was there before is dropped. It takes no memory.
    pub fn with_program(self, code: Vec<u8>, table: Vec<u64>) -> Region
        requires code { length code.items ≤ CODE_LIMIT }
        requires table { length table.items ≤ 2 * TABLE_LIMIT }
        ensures { result ≡ record self { code = code.items; table = table.items } }
    {
        Region {
            code,
            table,
            ..self
        }
    }

    /// The word at the address. `None` exactly where there is none: the address is no multiple of 8, or the eight
    /// bytes from it on aren't all in one region. The lowest byte of a word of code is the first one.
    pub fn read(&self, address: u64) -> Option<u64>
        ensures { result ≡ word_at self.now address }
    {
        match self.place(address)? {
            Place::Stack(word) => Some(self.stack[word]),
            Place::Heap(word) => Some(self.heap[word]),
            Place::Arguments(word) => Some(self.arguments[word]),
            Place::Table(word) => Some(self.table[word]),
            Place::Code(byte) => Some(word_of_code(&self.code, byte)),
        }
    }

    /// Writes the word at the address, and answers whether it could: exactly at a multiple of 8 in the argument area,
    /// the stack or the heap. Else nothing changes.
    pub fn write(&mut self, address: u64, word: u64) -> bool
        ensures answer { result ≡ is_some (with_word self.old address word) }
        ensures regions { self.new ≡ unwrap_or (with_word self.old address word) self.old }
    {
        match self.place(address) {
            Some(Place::Stack(at)) => {
                self.stack[at] = word;
                true
            }
            Some(Place::Heap(at)) => {
                self.heap[at] = word;
                true
            }
            Some(Place::Arguments(at)) => {
                self.arguments[at] = word;
                true
            }
            Some(Place::Table(_)) => false,
            Some(Place::Code(_)) => false,
            None => false,
        }
    }

    /// The bytes of the code.
    pub fn code(&self) -> &[u8]
        ensures { result.now ≡ self.now.code }
    {
        &self.code
    }

    /// The words of the heap, from the lowest address on.
    pub fn heap(&self) -> &[u64]
        ensures { result.now ≡ self.now.heap }
    {
        &self.heap
    }

    /// The words of the heap, which has none from then on: so they can be lent, and put back by `put_heap`. It takes no memory.
    pub fn take_heap(&mut self, alloc: Global) -> Vec<u64>
        ensures heap { result.items ≡ self.old.heap }
        ensures others { self.new ≡ record self.old { heap = [] } }
    {
        std::mem::replace(&mut self.heap, Vec::new(alloc))
    }

    /// Puts words into the place of the heap's, which are dropped.
    pub fn put_heap(&mut self, heap: Vec<u64>)
        requires { length heap.items ≤ HEAP_LIMIT }
        ensures { self.new ≡ record self.old { heap = heap.items } }
    {
        self.heap = heap;
    }

    /// Writes words in the place of the first ones of the heap.
    pub fn fill_heap(&mut self, words: &[u64])
        requires { length words.now ≤ length self.old.heap }
        ensures { self.new ≡ record self.old { heap = words.now ++ drop (length words.now) self.old.heap } }
    {
        begin_with(&mut self.heap, words);
    }

    /// Writes words in the place of the first ones of the argument area.
    pub fn fill_arguments(&mut self, words: &[u64])
        requires { length words.now ≤ ARGUMENT_WORDS }
        ensures { self.new ≡ record self.old { arguments = words.now ++ drop (length words.now) self.old.arguments } }
    {
        begin_with(&mut self.arguments, words);
    }

    /// Writes the last word of the stack, the one with the highest address, which an empty stack takes first.
    pub fn set_stack_last(&mut self, word: u64)
        ensures { self.new ≡ record self.old { stack = slice_set self.old.stack (length self.old.stack - 1) word } }
    {
        let last = self.stack.len() - 1;
        self.stack[last] = word;
    }

    /// The address of the lowest word of the heap, or `HEAP_END` where the heap has no words.
    pub fn heap_begin(&self) -> u64
        ensures { result ≡ heap_begin self.now }
    {
        HEAP_END - 8 * self.heap.len() as u64
    }

    /// The address behind the last word of the stack, where an empty stack begins to grow.
    pub fn stack_end(&self) -> u64
        ensures { result ≡ STACK_BEGIN + 8 * length self.now.stack }
    {
        STACK_BEGIN + 8 * self.stack.len() as u64
    }

    // Where an access at the address goes, if there is such a place.
    fn place(&self, address: u64) -> Option<Place>
        ensures spot { option_map spot_of result ≡ spot self.now address }
        ensures lies { IfSome result (λ place. LiesIn self.now (spot_of place)) }
    {
        if address % 8 != 0 {
            return None;
        }
        let high = address >> 32;
        if high == STACK_HIGH {
            Some(Place::Stack(word_in(STACK_BEGIN, self.stack.len(), address)?))
        } else if high == HEAP_HIGH {
            Some(Place::Heap(word_in_heap(self.heap.len(), address)?))
        } else if high == ARGUMENTS_HIGH {
            Some(Place::Arguments(word_in(ARGUMENTS_BEGIN, self.arguments.len(), address)?))
        } else if high == TABLE_HIGH {
            Some(Place::Table(word_in(TABLE_BEGIN, self.table.len(), address)?))
        } else if high == CODE_HIGH {
            Some(Place::Code(byte_in_code(self.code.len(), address)?))
        } else {
            None
        }
    }

    /// Says that the regions keep the limits, as those of each `Region` do. It does nothing.
    pub fn limits(&self)
        ensures { IsWithinLimits self.now }
    {
        let _ = &self.heap;
    }
}
