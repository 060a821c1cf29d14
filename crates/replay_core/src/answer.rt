use heap_theory::{FreeError, NullCause, PlaceKind};

/// The result of an event, which says by itself whether the event is a request. A buffer beside it holds the bytes of a load.
#[derive(Clone, Copy)]
pub(crate) enum Answer {
    /// The report has no line for the event, which is no request.
    Silent,
    /// A request was served. Its chunk leaves these bytes of its block unused. The report has no line for it.
    Served {
        loss: u32,
    },
    /// The first `len` bytes of the buffer were loaded.
    Loaded {
        len: u8,
    },
    /// An access was not mapped.
    NotMapped,
    /// An access touches a granule whose tag differs from its pointer's.
    TagFault {
        granule: u32,
        memory_tag: u8,
        pointer_tag: u8,
        kind: PlaceKind,
    },
    /// A request was refused: it is too large, or no slot serves it.
    NoPointer(NullCause),
    /// A free was refused: its pointer names no live chunk.
    NotFreed(FreeError),
    /// A realloc was refused: its pointer names no live chunk.
    NotResized(FreeError),
}
