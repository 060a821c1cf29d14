//! What a handle leads to.

use tagged_heap::Heap;

/// A heap in memory.
#[derive(Drop)]
pub struct HeldHeap {
    /// The heap that the calls on the handle change.
    pub heap: Heap,
}
