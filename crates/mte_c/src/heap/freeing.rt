//! The calls that count frees. A heap takes 2^48 of them.
ghost use Rattle.std.specs.Prelude.{◌≡◌};
ghost use Rattle.mte_c.specs.Heap.Calls.{IsFree, IsRealloc};

use crate::heap::outcome::Outcome;
use handed_text::MISUSE;
use tagged_heap::Heap;

/// The most frees of a heap.
const MOST_FREES: u64 = 281_474_976_710_656;

/// Resizes the chunk at an address.
pub(crate) fn realloc(heap: &mut Heap, address: u64, n: u32) -> Outcome
    ensures { IsRealloc address n result heap.old heap.new }
{
    if heap.frees() >= MOST_FREES {
        return Outcome::plain(MISUSE);
    }
    Outcome::of_resized(heap.realloc(address, n))
}

/// Frees the chunk at an address.
pub(crate) fn free(heap: &mut Heap, address: u64) -> Outcome
    ensures { IsFree address result heap.old heap.new }
{
    if heap.frees() >= MOST_FREES {
        return Outcome::plain(MISUSE);
    }
    Outcome::of_freed(heap.free(address))
}
