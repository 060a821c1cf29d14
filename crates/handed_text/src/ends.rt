//! The numbers by which C is told how a call ended.

/// Done.
pub const DONE: u32 = 0;

/// Done, and the verdict is no.
pub const NO: u32 = 1;

/// The input is refused.
pub const REFUSED: u32 = 2;

/// The allocator refused memory.
pub const OUT_OF_MEMORY: u32 = 3;

/// An option is out of its range.
pub const BAD_OPTION: u32 = 4;

/// The call is not as its contract wants it. Nothing was done.
pub const MISUSE: u32 = 5;
