//! The headers of slots.
ghost use Rattle.chunk_header.specs.HeaderView.{seen};
ghost use Rattle.heap_theory.specs.Region.{region_of, header_in};
ghost use Rattle.class_table.specs.Layout.{slot_count, slot_of};
ghost use Rattle.heap_theory.specs.Header.{FitsWords};
ghost use Rattle.std.specs.Prelude.{◌≡◌, ◌<◌, length};

use chunk_header::{Header, class_in, read};
use class_table::{FEWEST_GRANULES, Layout, MOST_CLASSES};
use granule_memory::Memory;

/// The header of a slot, which begins at this granule. The contract alone needs the slot's number.
pub(crate) fn header(memory: &Memory, layout: &Layout, _slot: u32, start: u32) -> Header
    requires slot { _slot < slot_count layout.now }
    requires start { start ≡ (slot_of layout.now _slot).start }
    requires region { length memory.now ≡ layout.now.granules }
    requires class { (header_in (region_of layout.now memory.now) _slot).class < MOST_CLASSES }
    ensures header { seen result ≡ header_in (region_of layout.now memory.now) _slot }
    ensures fits { FitsWords (seen result) }
{
    // the contract of `granules` gives the proof that the layout is a partition
    prove!(layout.granules() >= FEWEST_GRANULES);
    read(memory, start)
}

/// The number of the class of a slot, which begins at this granule, by its header. The contract alone needs the slot's number.
pub(crate) fn class_number(memory: &Memory, layout: &Layout, _slot: u32, start: u32) -> usize
    requires slot { _slot < slot_count layout.now }
    requires start { start ≡ (slot_of layout.now _slot).start }
    requires region { length memory.now ≡ layout.now.granules }
    requires class { (header_in (region_of layout.now memory.now) _slot).class < MOST_CLASSES }
    ensures { result ≡ (header_in (region_of layout.now memory.now) _slot).class }
{
    // the contract of `granules` gives the proof that the layout is a partition
    prove!(layout.granules() >= FEWEST_GRANULES);
    class_in(memory, start)
}
