// The error of a call that finds no memory.

/// Out of memory: the error of each call that allocates and fails in no other way. It holds nothing, and `?` passes it on.
pub use std::alloc::AllocError as Memory;
