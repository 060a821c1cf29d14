use thiserror::Error;

/// Why a request gets no slot, in the order of the tests. Each is shown as its code and name.
#[derive(Debug, Clone, Copy, PartialEq, Eq, Error)]
pub enum NullCause {
    /// The request is larger than any that a class serves.
    #[error("60 Large")]
    Large,
    /// No class of the table serves the request.
    #[error("61 NoClass")]
    NoClass,
    /// The class has no fresh slot, and no freed slot outside the quarantine.
    #[error("62 Exhausted")]
    Exhausted,
}

/// Why a pointer is not freed, in the order of the tests. Each is shown as its code and name.
#[derive(Debug, Clone, Copy, PartialEq, Eq, Error)]
pub enum FreeError {
    /// Bits 63 to 60 of the pointer are not 0, or its place is not the first payload byte of a slot.
    #[error("63 Misplaced")]
    Misplaced,
    /// The slot is not live.
    #[error("64 NotLive")]
    NotLive,
    /// The pointer's tag is not that of the slot's chunk.
    #[error("65 WrongTag")]
    WrongTag,
}

/// Why a chunk is not resized. Each is shown as its code and name.
#[derive(Debug, Clone, Copy, PartialEq, Eq, Error)]
pub enum ReallocError {
    /// The pointer names no live chunk.
    #[error(transparent)]
    Refused(FreeError),
    /// The new size gets no slot.
    #[error(transparent)]
    Null(NullCause),
}
