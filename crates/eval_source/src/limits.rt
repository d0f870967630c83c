// The limits, each with its reason.

/// The fuel of a run where the arguments give none: the applications that it may make. It lets a run of a few lines end, and stops
/// one that does not end within a moment.
pub const DEFAULT_FUEL: u64 = 10_000;

/// The most decimal digits of a number among the arguments: those of the greatest number of 64 bits.
pub const MOST_DIGITS: usize = 20;

/// The pages of 4 KiB of the stack that are written before anything else. A text of the deepest level takes 88 of them; a deep value
/// that a run has made and lets go takes more.
pub const STACK_PAGES: u32 = 256;
