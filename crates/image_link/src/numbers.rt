// The numbers of the format.

/// How many bytes the exit part has.
pub const EXIT_SIZE: u64 = 19;

/// The version of the format.
pub const VERSION: u32 = 1;

/// What stands in the place of the name of a fun: more than the number of every atom.
pub const NO_NAME: u32 = 0xFFFF_FFFF;

/// The most values that a fun captures: they have numbers of 16 bits.
pub const CAPTURED_LIMIT: u64 = 65_535;
