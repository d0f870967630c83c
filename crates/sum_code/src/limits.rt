// The limits of a run, each with its reason.

/// How many words of eight bytes the heap has: 8 MiB.
pub const HEAP_WORDS: u32 = 1_048_576;

/// How many words of eight bytes the stack has: 8 MiB, which is what a process has by default on Linux.
pub const STACK_WORDS: u32 = 1_048_576;

/// The most instructions of a run: far more than the code of any sum has, few enough to end within seconds.
pub const STEPS: u64 = 100_000_000;
