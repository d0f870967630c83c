// The limits of texts, modules and code, each by name with its reason.

/// The most bytes of a text: 16 MiB, so that places and slices of a text fit their types, and memory stays within a few GiB.
pub const TEXT_LIMIT: u32 = 16_777_216;

/// The deepest level of a part of a text. A tree of so many levels is walked and let go within the stack of a thread.
pub const LEVEL_LIMIT: u32 = 1_000;

/// The least integer: a word of 64 bits has 60 for the integer beside its tag.
pub const LEAST_INTEGER: i64 = -576_460_752_303_423_488;

/// The greatest integer: a word of 64 bits has 60 for the integer beside its tag.
pub const GREATEST_INTEGER: i64 = 576_460_752_303_423_487;

/// The most code points of an atom, as in Erlang.
pub const ATOM_LIMIT: usize = 255;

/// The most parameters of a function and the most arguments of a call, as in Erlang.
pub const ARITY_LIMIT: u64 = 255;

/// The most nodes of a function of the module: each part of a function then has a number of 16 bits.
pub const NODE_LIMIT: u32 = 65_535;

/// The most functions of a module, with the funs in them and the functions of each `letrec`: each then has a number of 16
/// bits.
pub const FUNCTION_LIMIT: u32 = 65_535;

/// The most bytes of code: 1 GiB, so that the code lies within the 4 GiB from its first address on, and each displacement fits 32
/// bits.
pub const CODE_LIMIT: u64 = 1_073_741_824;
