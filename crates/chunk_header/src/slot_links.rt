//! The links of a layout's slots, in the headers of a memory.
ghost use Rattle.chunk_header.specs.Links.{SetsLink};
ghost use Rattle.class_table.specs.Layout.{slot_count, slot_of};
ghost use Rattle.heap_theory.specs.Region.{next_in, region_of};
ghost use Rattle.std.specs.Prelude.{◌≡◌, ◌<◌, length};

use crate::stored_header::{next, set_next};
use class_table::Layout;
use granule_memory::Memory;

/// The link of a slot of the layout: a slot's number plus one, or 0. The layout must be the memory's.
pub fn link(memory: &Memory, layout: &Layout, slot: u32) -> u32
    requires region { length memory.now ≡ layout.now.granules }
    requires slot { slot < slot_count layout.now }
    ensures { result ≡ next_in (region_of layout.now memory.now) slot }
{
    next(memory, layout.start(slot))
}

/// Sets the link of a slot of the layout to a slot's number plus one, or 0. The layout must be the memory's. Nothing else changes.
pub fn set_link(memory: &mut Memory, layout: &Layout, slot: u32, link: u32)
    requires region { length memory.old ≡ layout.now.granules }
    requires slot { slot < slot_count layout.now }
    ensures { SetsLink layout.now memory.old memory.new slot link }
{
    set_link_at(memory, layout, slot, layout.start(slot), link);
}

/// As `set_link`, without a search for where the slot begins: `start` must be its header granule (`Layout::slot`).
pub fn set_link_at(memory: &mut Memory, layout: &Layout, slot: u32, start: u32, link: u32)
    requires region { length memory.old ≡ layout.now.granules }
    requires slot { slot < slot_count layout.now }
    requires start { start ≡ (slot_of layout.now slot).start }
    ensures { SetsLink layout.now memory.old memory.new slot link }
{
    prove!(memory.granules() == layout.granules());
    set_next(memory, start, link);
}

/// Sets the link of a slot of the layout to 0, and returns the link that it had. The layout must be the memory's, and `start` the slot's
/// header granule (`Layout::slot`). Nothing else changes.
pub fn unlink(memory: &mut Memory, layout: &Layout, slot: u32, start: u32) -> u32
    requires region { length memory.old ≡ layout.now.granules }
    requires slot { slot < slot_count layout.now }
    requires start { start ≡ (slot_of layout.now slot).start }
    ensures was { result ≡ next_in (region_of layout.now memory.old) slot }
    ensures link { SetsLink layout.now memory.old memory.new slot 0 }
{
    prove!(memory.granules() == layout.granules());
    let link = next(memory, start);
    set_link_at(memory, layout, slot, start, 0);
    link
}
