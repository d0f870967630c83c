// The limits, each with its reason.

/// The pages of 4 KiB of the stack that are written before anything else. A text of the deepest level takes 88 of them, in each mode,
/// and the others are spare.
pub const STACK_PAGES: u32 = 128;
