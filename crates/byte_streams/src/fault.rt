//! Why an input was not read to its end.
ghost use Rattle.std.specs.Prelude.{◌≡◌};
ghost use Rattle.byte_streams.specs.declared.fault.ReadError.TheVariants.{OutOfMemory};

use std::alloc::AllocError;

/// Why the reading loop did not reach the end of an input.
#[derive(Debug, Clone, Copy, PartialEq, Eq)]
pub enum ReadError {
    /// The allocator refused memory.
    OutOfMemory,
    /// There are more bytes than an input may have.
    TooLong,
    /// A read failed.
    Failed,
}

impl From<AllocError> for ReadError {
    ghost from_gives = { λ _ error. error ≡ OutOfMemory };

    fn from(_error: AllocError) -> ReadError {
        ReadError::OutOfMemory
    }
}
