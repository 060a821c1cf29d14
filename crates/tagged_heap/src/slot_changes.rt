//! The changes of one slot's chunk: it is given out, resized and taken back, with its header and its tags.
ghost use Rattle.class_table.specs.Layout.{slot_of};
ghost use Rattle.heap_theory.specs.Calls.{chunk_tagged};
ghost use Rattle.heap_theory.specs.Header.{with_header};
ghost use Rattle.class_table.specs.Sizes.{chunk_granules};
ghost use Rattle.heap_theory.specs.State.{payload_place, payload_start};
ghost use Rattle.machine_theory.specs.Address.{with_tag};
ghost use Rattle.machine_theory.specs.Memory.{tagged, IsMemory};
ghost use Rattle.machine_theory.specs.Seed.{next_seed};
ghost use Rattle.std.specs.Prelude.{◌≡◌, ◌<◌};
ghost use Rattle.tagged_heap.specs.Chunks.{HasRoom, given_header, retired_header, tag_for};
ghost use Rattle.heap_theory.specs.Region.{region_of, header_in};

use crate::pointers::payload_place;
use crate::read_header::header;
use crate::tags::{chunk_granules, draw, tag_chunk};
use chunk_header::{Header, State, set_quarantined, write};
use class_table::{FEWEST_GRANULES, Layout, Slot};
use tag_machine::Machine;

/// Gives out the slot that lies at `place` for `n` bytes, at most `LARGEST_COUNTED`, for which it must have room. Draws a tag, writes the header and
/// tags the chunk. Returns the address of the payload under that tag.
#[inline(always)]
pub(crate) fn give_out(
    machine: &mut Machine,
    layout: &Layout,
    slot: u32,
    place: Slot,
    n: u32,
) -> u64
    requires room { HasRoom layout.now machine.old.memory slot n }
    requires start { place.start ≡ (slot_of layout.now slot).start }
    requires class { place.class ≡ (slot_of layout.now slot).class }
    ensures address { result
        ≡ with_tag (payload_place (slot_of layout.now slot)) (tag_for layout.now machine.old slot) }
    ensures machine { let tag = tag_for layout.now machine.old slot in
        let header = given_header (header_in (region_of layout.now machine.old.memory) slot) n tag in
        let place = slot_of layout.now slot in
        machine.new ≡ record {
          memory = chunk_tagged place n tag (with_header machine.old.memory place.start header);
          seed = next_seed machine.old.seed;
          tag = tag;
        } }
    ensures memory { IsMemory machine.new.memory }
{
    let before = header(machine.memory(), layout, slot, place.start);
    let payload = payload_place(place.start);
    let (tag, address) = draw(machine, payload, slot, before.tag);
    let after = Header {
        state: State::Live,
        size: n as u16,
        tag,
        class: before.class,
        next: 0,
        mark: 0,
    };
    write(machine.memory_mut(), place.start, &after);
    tag_chunk(machine, place, n, tag);
    address
}

/// Resizes the chunk of the live slot that lies at `place` to `n` bytes, under the tag that it has. The slot must have room for them.
#[inline(always)]
pub(crate) fn resize(machine: &mut Machine, layout: &Layout, slot: u32, place: Slot, n: u32)
    requires room { HasRoom layout.now machine.old.memory slot n }
    requires start { place.start ≡ (slot_of layout.now slot).start }
    requires class { place.class ≡ (slot_of layout.now slot).class }
    ensures machine { let before = header_in (region_of layout.now machine.old.memory) slot in
        let place = slot_of layout.now slot in
        machine.new ≡ record machine.old {
          memory = chunk_tagged place n before.tag
              (with_header machine.old.memory place.start (record before { size = n }));
        } }
    ensures memory { IsMemory machine.new.memory }
{
    let before = header(machine.memory(), layout, slot, place.start);
    let after = Header {
        size: n as u16,
        ..before
    };
    write(machine.memory_mut(), place.start, &after);
    tag_chunk(machine, place, n, before.tag);
}

/// Takes back the chunk of a live slot, whose header is granule `start` and has this size and this tag: draws a tag, writes the header with
/// this mark, and tags the chunk.
#[inline(always)]
pub(crate) fn retire(
    machine: &mut Machine,
    layout: &Layout,
    slot: u32,
    start: u32,
    size: u32,
    tag: u8,
    mark: u64,
)
    requires size { size ≡ (header_in (region_of layout.now machine.old.memory) slot).size }
    requires tag { tag ≡ (header_in (region_of layout.now machine.old.memory) slot).tag }
    requires below { tag < 16 }
    requires room { let before = header_in (region_of layout.now machine.old.memory) slot in
        HasRoom layout.now machine.old.memory slot before.size }
    requires start { start ≡ (slot_of layout.now slot).start }
    ensures machine { let before = header_in (region_of layout.now machine.old.memory) slot in
        let tag = tag_for layout.now machine.old slot in
        let place = slot_of layout.now slot in
        machine.new ≡ record {
          memory = tagged (payload_start place) (chunk_granules before.size) tag
              (with_header machine.old.memory place.start (retired_header before mark));
          seed = next_seed machine.old.seed;
          tag = tag;
        } }
    ensures memory { IsMemory machine.new.memory }
{
    prove!(layout.granules() >= FEWEST_GRANULES);
    let (other, _) = draw(machine, 0, slot, tag);
    let memory = machine.memory_mut();
    set_quarantined(memory, start, mark);
    memory.set_tags(start + 1, chunk_granules(size), other);
}
