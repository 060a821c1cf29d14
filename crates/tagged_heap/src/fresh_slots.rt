//! A new heap's headers and counters.
ghost use Rattle.class_table.specs.Layout.{IsPartition, first_slot, slot_count};
ghost use Rattle.heap_theory.specs.State.{without_headers};
ghost use Rattle.machine_theory.specs.Memory.{IsMemory};
ghost use Rattle.std.specs.List.{range_with_len};
ghost use Rattle.std.specs.Prelude.{◌≡◌, ◌+◌, ◌<◌, length, map};
ghost use Rattle.tagged_heap.specs.Representation.{AreFreshBelow};

use arrayvec::ArrayVec;
use chunk_header::{Header, State, write};
use class_table::{FEWEST_GRANULES, Layout, MOST_CLASSES, Slot};
use granule_memory::Memory;

/// Writes into each slot the header of a slot that was never given out.
pub(crate) fn write_fresh_headers(memory: &mut Memory, layout: &Layout)
    requires region { length memory.old ≡ layout.now.granules }
    requires memory { IsMemory memory.old }
    ensures headers { AreFreshBelow layout.now memory.new (slot_count layout.now) }
    ensures seen { without_headers layout.now memory.new ≡ without_headers layout.now memory.old }
    ensures memory { IsMemory memory.new }
    // What any layout is known to be.
    ensures partition { IsPartition layout.now }
{
    // the contract of `granules` gives the proof that the layout is a partition
    prove!(layout.granules() >= FEWEST_GRANULES);
    for number in 0..layout.classes() {
        write_class_headers(memory, layout, number);
    }
}

// Writes them into the slots of the class of this number, after those of the classes before it. Where the next slot begins is counted up.
fn write_class_headers(memory: &mut Memory, layout: &Layout, number: usize)
    requires number { number < length layout.now.classes }
    requires region { length memory.old ≡ layout.now.granules }
    requires memory { IsMemory memory.old }
    requires partition { IsPartition layout.now }
    requires before { AreFreshBelow layout.now memory.old (first_slot layout.now number) }
    ensures headers { AreFreshBelow layout.now memory.new (first_slot layout.now (number + 1)) }
    ensures seen { without_headers layout.now memory.new ≡ without_headers layout.now memory.old }
    ensures memory { IsMemory memory.new }
    ensures region { length memory.new ≡ layout.now.granules }
{
    let header = Header {
        state: State::Fresh,
        size: 0,
        tag: 0,
        class: number as u8,
        next: 0,
        mark: 0,
    };
    let first = layout.first_slot(number);
    let end = layout.first_slot(number + 1);
    if first >= end {
        return;
    }
    let Slot { start, class } = layout.slot_of_class(number, first);
    let mut next = start;
    for slot in first..end {
        write(memory, next, &header);
        next += class;
    }
}

/// The first slot of each class. These are the counters of a new heap: the next fresh slot of each class.
pub(crate) fn first_slots(layout: &Layout) -> ArrayVec<u32, MOST_CLASSES>
    ensures { result.items ≡ map (first_slot layout.now) (range_with_len 0 (length layout.now.classes)) }
{
    let mut counters = ArrayVec::new();
    for number in 0..layout.classes() {
        counters.push(layout.first_slot(number));
    }
    counters
}
