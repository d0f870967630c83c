// The tags of words: what a word has in its low bits, by which its form is told, and what stands above them.

/// The tag of an integer: the low four bits are 1111. As signed numbers, words of integers are in the order of the integers,
/// and a sum of two words less the tag is the word of the sum.
pub const INTEGER_TAG: u64 = 15;

/// An integer stands above the four bits of its tag: 60 bits are left for it.
pub const INTEGER_SCALE: u64 = 16;

/// The tag of an atom: the low six bits are 001011.
pub const ATOM_TAG: u64 = 11;

/// An atom's number stands above the six bits of its tag.
pub const ATOM_SCALE: u64 = 64;

/// The word of the atom `'true'`, which is the first atom of every program, and so has the number 0.
pub const TRUE_WORD: u64 = ATOM_TAG;

/// The word of nil. Its low six bits, 111011, are those of no other form.
pub const NIL_WORD: u64 = 59;

/// The tag of a list with elements: it is added to the address of the cell.
pub const CONS_TAG: u64 = 1;

/// The tag of an object, which is a tuple or a fun: it is added to the address of the header.
pub const OBJECT_TAG: u64 = 2;

/// Cells and headers stand at multiples of 8 bytes, so the low three bits of an address are free for a tag.
pub const POINTER_SCALE: u64 = 8;

/// The low bits of a tuple's header.
pub const TUPLE_HEADER: u64 = 0;

/// The low bits of a fun's header: 010100, which are those of no tuple's.
pub const FUN_HEADER: u64 = 20;

/// How many elements or captured values an object has stands above the low six bits of its header.
pub const HEADER_SCALE: u64 = 64;
