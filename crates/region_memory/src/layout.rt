// Where the regions lie, and how large they may be. Each begins at a multiple of 2^32 and is smaller than 2^32 bytes,
// or, as the heap, ends at such a multiple. So no two of them meet, and bits 32 and up of an address tell its region.

/// The address of the code's first byte. No region begins lower, so that 0 and small numbers are no addresses.
pub const CODE_BEGIN: u64 = 0x1_0000_0000;

/// The address of the first word of the function table. Function number f has the words 2f, the address of its
/// closure entry, and 2f + 1, its arity.
pub const TABLE_BEGIN: u64 = 0x2_0000_0000;

/// The address of the first word of the argument area, in which a call passes the arguments that have no register.
pub const ARGUMENTS_BEGIN: u64 = 0x3_0000_0000;

/// The address of the lowest word of the stack, which grows towards it.
pub const STACK_BEGIN: u64 = 0x4_0000_0000;

/// The address behind the last word of the heap. That its end is fixed lets compiled code test for room against a
/// constant.
pub const HEAP_END: u64 = 0x6_0000_0000;

/// How many words the argument area has: 255 arguments and 65,535 captured values are the most that a function takes,
/// four of them are in registers, and the rest is 65,786 words. It is rounded up to a multiple of 64.
pub const ARGUMENT_WORDS: usize = 65_792;

/// The largest heap, in words: 1 GiB, so that it begins at 0x5_C000_0000 at the lowest.
pub const HEAP_LIMIT: u32 = 134_217_728;

/// The smallest stack, in words: the first activation and the calls of services have room in it.
pub const STACK_LEAST: u32 = 1_024;

/// The largest stack, in words: 128 MiB, so that it ends at 0x4_0800_0000 at the highest.
pub const STACK_LIMIT: u32 = 16_777_216;

/// The most functions of a table: 2 GiB of words, two for each function. An image, which takes 16 bytes for a
/// function and has at most 1,140,850,688 bytes, has fewer.
pub const TABLE_LIMIT: usize = 134_217_728;
