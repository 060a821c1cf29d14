//! Which slot a class gives out next.
ghost use Rattle.std.specs.Prelude.{◌≡◌, ◌+◌, ◌<◌, ◌≤◌, length, slice_index, slice_set, IfNone, IfSome};
ghost use Rattle.class_table.specs.Layout.{first_slot, slot_of};
ghost use Rattle.machine_theory.specs.Memory.{IsMemory};
ghost use Rattle.tagged_heap.specs.ClassSlots.{HasClass, Takes};
ghost use Rattle.std.specs.Option.{option_map};

use arrayvec::ArrayVec;
use class_lists::ClassLists;
use class_table::{Layout, MOST_CLASSES, Slot};
use granule_memory::Memory;

/// Takes the first slot off a class's list, or the class's next fresh slot if the list is empty, and says where the slot lies. `None` if there
/// is neither.
pub(crate) fn take_slot(
    memory: &mut Memory,
    layout: &Layout,
    lists: &mut ClassLists,
    counters: &mut ArrayVec<u32, MOST_CLASSES>,
    number: usize,
) -> Option<(u32, Slot)>
    requires { HasClass layout.now memory.old lists.old counters.old.items number }
    ensures takes { Takes layout.now memory.old memory.new lists.old lists.new counters.old.items counters.new.items
        number (option_map (λ found. found.0) result) }
    ensures place { IfSome result (λ found.
        (found.1.start ≡ (slot_of layout.now found.0).start) × (found.1.class ≡ (slot_of layout.now found.0).class)) }
    ensures memory { IsMemory memory.new }
{
    if let Some(found) = lists.pop_place(memory, layout, number) {
        return Some(found);
    }
    let slot = next_fresh(counters, layout, number)?;
    Some((slot, layout.slot_of_class(number, slot)))
}

// Takes the next fresh slot of a class by its counter, or none where the class has none left.
fn next_fresh(
    counters: &mut ArrayVec<u32, MOST_CLASSES>,
    layout: &Layout,
    number: usize,
) -> Option<u32>
    requires classes { number < length layout.now.classes }
    requires counters { number < length counters.old.items }
    requires few { slice_index counters.old.items number ≤ first_slot layout.now (number + 1) }
    ensures none { IfNone result (slice_index counters.old.items number ≡ first_slot layout.now (number + 1)) }
    ensures stays { IfNone result (counters.new.items ≡ counters.old.items) }
    ensures some { IfSome result (λ slot. slot ≡ slice_index counters.old.items number) }
    ensures below { IfSome result (λ slot. slot < first_slot layout.now (number + 1)) }
    ensures counted { IfSome result (λ slot. counters.new.items ≡ slice_set counters.old.items number (slot + 1)) }
{
    let slot = counters[number];
    if slot == layout.first_slot(number + 1) {
        return None;
    }
    counters[number] = slot + 1;
    Some(slot)
}
