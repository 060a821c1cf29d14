//! The calls on the heap of a handle.
ghost use Rattle.std.specs.Prelude.{◌≡◌, None};
ghost use Rattle.mte_c.specs.Heap.Calls.{IsAddg, IsCalloc, IsFree, IsGranule, IsLoad, IsMalloc, IsRealloc, IsStore, Makes, Performs, config_of};
ghost use Rattle.mte_c.specs.Heap.Held.{heap_of};

use crate::heap::handed_heap::HandedHeap;
use crate::heap::held_heap::HeldHeap;
use crate::heap::outcome::Outcome;
use crate::heap::settings::{Settings, config};
use crate::heap::{access, freeing, granules};
use class_table::ClassTable;
use handed_text::{BAD_OPTION, DONE, MISUSE, OUT_OF_MEMORY};
use machine_theory::{FARTHEST_MOVE, LARGEST_TAG_STEP};
use std::alloc::Global;
use tagged_heap::Heap;

/// Makes a heap over the table of these classes, in granules.
pub fn new(alloc: Global, settings: Settings, classes: &[u16], heap: &mut HandedHeap) -> Outcome
    ensures { Makes (config_of settings) classes.now (heap_of heap.old) (heap_of heap.new) result }
{
    if heap.is_live() {
        return Outcome::plain(MISUSE);
    }
    let config = config(settings);
    if !config.is_valid() {
        return Outcome::plain(BAD_OPTION);
    }
    let table = match ClassTable::from_classes(classes) {
        Ok(table) => table,
        Err(fault) => return Outcome::of_table(fault),
    };
    let Ok(made) = Heap::new(alloc, &table, config) else {
        return Outcome::plain(OUT_OF_MEMORY);
    };
    match Box::new(alloc, HeldHeap { heap: made }) {
        Ok(held) => {
            heap.close(held);
            Outcome::plain(DONE)
        }
        Err(_) => Outcome::plain(OUT_OF_MEMORY),
    }
}

/// Gives out a chunk of `n` bytes.
pub fn malloc(alloc: Global, heap: &mut HandedHeap, n: u32) -> Outcome
    ensures { Performs (heap_of heap.old) (heap_of heap.new) result (IsMalloc n result) }
{
    if !heap.is_live() {
        return Outcome::plain(MISUSE);
    }
    let mut held = heap.open(alloc);
    let outcome = Outcome::of_pointer(held.heap.malloc(n));
    heap.close(held);
    outcome
}

/// As `malloc`, with all bytes of the chunk's granules set to 0.
pub fn calloc(alloc: Global, heap: &mut HandedHeap, n: u32) -> Outcome
    ensures { Performs (heap_of heap.old) (heap_of heap.new) result (IsCalloc n result) }
{
    if !heap.is_live() {
        return Outcome::plain(MISUSE);
    }
    let mut held = heap.open(alloc);
    let outcome = Outcome::of_pointer(held.heap.calloc(n));
    heap.close(held);
    outcome
}

/// Changes the size of the chunk at an address to `n` bytes.
pub fn realloc(alloc: Global, heap: &mut HandedHeap, address: u64, n: u32) -> Outcome
    ensures { Performs (heap_of heap.old) (heap_of heap.new) result (IsRealloc address n result) }
{
    if !heap.is_live() {
        return Outcome::plain(MISUSE);
    }
    let mut held = heap.open(alloc);
    let outcome = freeing::realloc(&mut held.heap, address, n);
    heap.close(held);
    outcome
}

/// Frees the chunk at an address.
pub fn free(alloc: Global, heap: &mut HandedHeap, address: u64) -> Outcome
    ensures { Performs (heap_of heap.old) (heap_of heap.new) result (IsFree address result) }
{
    if !heap.is_live() {
        return Outcome::plain(MISUSE);
    }
    let mut held = heap.open(alloc);
    let outcome = freeing::free(&mut held.heap, address);
    heap.close(held);
    outcome
}

/// Loads from an address on, as many bytes as the room has.
pub fn load(alloc: Global, heap: &mut HandedHeap, address: u64, room: &mut [u8]) -> Outcome
    ensures { Performs (heap_of heap.old) (heap_of heap.new) result (IsLoad address room.old room.new result) }
{
    if !heap.is_live() {
        return Outcome::plain(MISUSE);
    }
    let held = heap.open(alloc);
    let outcome = access::load(&held.heap, address, room);
    heap.close(held);
    outcome
}

/// Stores these bytes from an address on.
pub fn store(alloc: Global, heap: &mut HandedHeap, address: u64, bytes: &[u8]) -> Outcome
    ensures { Performs (heap_of heap.old) (heap_of heap.new) result (IsStore address bytes.now result) }
{
    if !heap.is_live() {
        return Outcome::plain(MISUSE);
    }
    let mut held = heap.open(alloc);
    let outcome = access::store(&mut held.heap, address, bytes);
    heap.close(held);
    outcome
}

/// What a granule is, counted from the region's start.
pub fn granule(alloc: Global, heap: &mut HandedHeap, granule: u32) -> Outcome
    ensures { Performs (heap_of heap.old) (heap_of heap.new) result (IsGranule granule result) }
{
    if !heap.is_live() {
        return Outcome::plain(MISUSE);
    }
    let held = heap.open(alloc);
    let outcome = granules::granule_outcome(&held.heap, granule);
    heap.close(held);
    outcome
}

/// ADDG: the address `u6` granules (0 to 63) further up, under the tag that the offset `u4` (0 to 15) chooses.
pub fn addg(alloc: Global, heap: &mut HandedHeap, address: u64, u6: u8, u4: u8) -> Outcome
    ensures { Performs (heap_of heap.old) (heap_of heap.new) result (IsAddg address u6 u4 result) }
{
    if !heap.is_live() {
        return Outcome::plain(MISUSE);
    }
    if u32::from(u6) > FARTHEST_MOVE || u32::from(u4) > LARGEST_TAG_STEP {
        return Outcome::plain(BAD_OPTION);
    }
    let held = heap.open(alloc);
    let moved = held.heap.addg(address, u6, u4);
    heap.close(held);
    Outcome::with_value(moved)
}

/// Frees the heap. The empty handle is left.
pub fn close(alloc: Global, heap: &mut HandedHeap)
    ensures { heap_of heap.new ≡ None }
{
    if heap.is_live() {
        drop(heap.open(alloc));
    }
}
