//! Sources and sinks over memory.

use mte_engine::{History, MemorySink, MemorySource};
use std::alloc::{AllocError, Global};

/// A source over memory that gives all it has at once.
pub fn source(input: &[u8]) -> MemorySource<'_> {
    MemorySource {
        rest: input,
        reads: History::new(),
        most: usize::MAX,
        until_failure: None,
    }
}

/// A sink over memory that takes all at once, with room for the short texts of the tests.
pub fn sink(alloc: Global) -> Result<MemorySink, AllocError> {
    sink_with_room(alloc, 4096)
}

/// A sink over memory that takes all at once, with room for a text of so many bytes.
pub fn sink_with_room(alloc: Global, room: usize) -> Result<MemorySink, AllocError> {
    Ok(MemorySink {
        text: Vec::with_capacity(alloc, room)?,
        writes: History::new(),
        most: usize::MAX,
        until_failure: None,
    })
}
