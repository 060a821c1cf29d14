//! The heap.
ghost use Rattle.std.specs.Prelude.{◌≡◌, None};
ghost use Rattle.mte_c.specs.Heap.Calls.{IsAddg, IsCalloc, IsFree, IsGranule, IsLoad, IsMalloc, IsRealloc, IsStore, Makes, Performs, config_of};
ghost use Rattle.mte_c.specs.Heap.Held.{heap_of};

use crate::heap::{HandedHeap, Outcome, Settings};
use std::alloc::Global;

/// Makes a heap over the table of these classes, in granules.
#[unsafe(no_mangle)]
pub extern "C" fn mte_heap_new(
    alloc: Global,
    settings: Settings,
    classes: &[u16],
    heap: &mut HandedHeap,
) -> Outcome
    ensures { Makes (config_of settings) classes.now (heap_of heap.old) (heap_of heap.new) result }
{
    crate::heap::new(alloc, settings, classes, heap)
}

/// Gives out a chunk of `n` bytes.
#[unsafe(no_mangle)]
pub extern "C" fn mte_heap_malloc(alloc: Global, heap: &mut HandedHeap, n: u32) -> Outcome
    ensures { Performs (heap_of heap.old) (heap_of heap.new) result (IsMalloc n result) }
{
    crate::heap::malloc(alloc, heap, n)
}

/// As `mte_heap_malloc`, with all bytes of the chunk's granules set to 0.
#[unsafe(no_mangle)]
pub extern "C" fn mte_heap_calloc(alloc: Global, heap: &mut HandedHeap, n: u32) -> Outcome
    ensures { Performs (heap_of heap.old) (heap_of heap.new) result (IsCalloc n result) }
{
    crate::heap::calloc(alloc, heap, n)
}

/// Changes the size of the chunk at an address to `n` bytes.
#[unsafe(no_mangle)]
pub extern "C" fn mte_heap_realloc(
    alloc: Global,
    heap: &mut HandedHeap,
    address: u64,
    n: u32,
) -> Outcome
    ensures { Performs (heap_of heap.old) (heap_of heap.new) result (IsRealloc address n result) }
{
    crate::heap::realloc(alloc, heap, address, n)
}

/// Frees the chunk at an address.
#[unsafe(no_mangle)]
pub extern "C" fn mte_heap_free(alloc: Global, heap: &mut HandedHeap, address: u64) -> Outcome
    ensures { Performs (heap_of heap.old) (heap_of heap.new) result (IsFree address result) }
{
    crate::heap::free(alloc, heap, address)
}

/// Loads from an address on, as many bytes as the room has.
#[unsafe(no_mangle)]
pub extern "C" fn mte_heap_load(
    alloc: Global,
    heap: &mut HandedHeap,
    address: u64,
    room: &mut [u8],
) -> Outcome
    ensures { Performs (heap_of heap.old) (heap_of heap.new) result (IsLoad address room.old room.new result) }
{
    crate::heap::load(alloc, heap, address, room)
}

/// Stores these bytes from an address on.
#[unsafe(no_mangle)]
pub extern "C" fn mte_heap_store(
    alloc: Global,
    heap: &mut HandedHeap,
    address: u64,
    bytes: &[u8],
) -> Outcome
    ensures { Performs (heap_of heap.old) (heap_of heap.new) result (IsStore address bytes.now result) }
{
    crate::heap::store(alloc, heap, address, bytes)
}

/// What a granule is, counted from the region's start.
#[unsafe(no_mangle)]
pub extern "C" fn mte_heap_granule(alloc: Global, heap: &mut HandedHeap, granule: u32) -> Outcome
    ensures { Performs (heap_of heap.old) (heap_of heap.new) result (IsGranule granule result) }
{
    crate::heap::granule(alloc, heap, granule)
}

/// ADDG: the address `u6` granules (0 to 63) further up, under the tag that the offset `u4` (0 to 15) chooses.
#[unsafe(no_mangle)]
pub extern "C" fn mte_heap_addg(
    alloc: Global,
    heap: &mut HandedHeap,
    address: u64,
    u6: u8,
    u4: u8,
) -> Outcome
    ensures { Performs (heap_of heap.old) (heap_of heap.new) result (IsAddg address u6 u4 result) }
{
    crate::heap::addg(alloc, heap, address, u6, u4)
}

/// Frees the heap. The empty handle is left.
#[unsafe(no_mangle)]
pub extern "C" fn mte_heap_close(alloc: Global, heap: &mut HandedHeap)
    ensures { heap_of heap.new ≡ None }
{
    crate::heap::close(alloc, heap);
}
