// The memory of the machine: words of eight bytes at addresses, in five regions.
//
// The code and the function table are only read. The argument area, the stack and the heap are read and written. An
// access is of eight bytes at a multiple of eight, and lies wholly in one region; else there is none.
//
// The definition stands in specs/: `spot` says which place an address is, `word_at` which word is read there, and
// `with_word` what the regions are after a word was written there. It tests one region after another. The code goes
// by the upper half of the address, which is the same within the limits of `layout.rt`.
//
// Promises: `read` and `write` give exactly what the definition says, and take no memory. A `Region` always
// keeps the limits. The laws: regions are apart, an address has at most one place, what was written is read again
// and all other addresses read as before, and exactly the aligned addresses of the argument area, the stack and the
// heap can be written.
//
// May touch: memory alone.
//
// Files:
//   layout.rt     where the regions lie, and how large they may be
//   region.rt     `Region`: the five regions, with their reads and writes
//   laws.rt       what holds of the definition
//   tests.rt      the tests
#![tactic(auto)]

pub mod laws;
pub mod layout;
pub mod region;
#[cfg(test)]
mod tests;

pub use laws::{
    opened_is_within_limits, opened_words_are_zero, others_stay, regions_are_apart,
    spots_are_exact, writable_places, writes_keep_sizes, written_is_read,
};
pub use region::Region;
