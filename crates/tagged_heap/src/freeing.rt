//! The call that takes a chunk back.
ghost use Rattle.class_table.specs.Layout.{slot_count, slot_of, IsPartition};
ghost use Rattle.heap_theory.specs.Calls.{free_step, freed};
ghost use Rattle.heap_theory.specs.Lookups.{chunk_at};
ghost use Rattle.heap_theory.specs.Header.Standing.{Freed};
ghost use Rattle.heap_theory.specs.OwnPointers.{IsNullOrOwn};
ghost use Rattle.heap_theory.specs.Sound.{IsSoundHeap};
ghost use Rattle.heap_theory.specs.State.{without_headers, Heap as TheHeap};
ghost use Rattle.machine_theory.specs.Memory.{IsMemory};
ghost use Rattle.std.specs.Prelude.{◌≡◌, ◌≢◌, ◌↔◌, ◌+◌, ◌^◌, ◌<◌, ◌≤◌, length, slice_index, slice_set, IfErr, IfOk, Ok, OnErr, OnOk};
ghost use Rattle.tagged_heap.specs.Chunks.{IsChunk};
ghost use Rattle.tagged_heap.specs.ClassSlots.{HasFront};
ghost use Rattle.tagged_heap.specs.Representation.{IsKept, IsRewritten, SomeIsKept};
ghost use Rattle.heap_theory.specs.Region.{region_of, header_in};

use crate::heap::Heap;
use crate::pointers::slot_of_pointer;
use crate::read_header::{class_number, header};
use crate::slot_changes::retire;
use chunk_header::{State, set_freed};
use class_lists::ClassLists;
use class_table::Layout;
use granule_memory::Memory;
use heap_theory::FreeError;
use machine_theory::GRANULE_BYTES;
use quarantine_core::Quarantine;
use tag_machine::logical_tag;

/// A live chunk: its slot, the slot's header granule and its class, the number of that class in the table, the number of bytes that were
/// requested, and its tag.
#[derive(Clone, Copy)]
pub(crate) struct Chunk {
    pub(crate) slot: u32,
    pub(crate) start: u32,
    pub(crate) class: u32,
    pub(crate) number: usize,
    pub(crate) size: u32,
    pub(crate) tag: u8,
}

impl Heap {
    /// Frees the chunk at `p`. Its granules get another tag, and its slot is dead. The slot stays in quarantine until the bytes freed from
    /// this free on, those of its own block included, exceed the quarantine's limit; a block above the limit does not stay at all. At null,
    /// 0, nothing happens. Fewer than 2^48 chunks must have been freed before (`frees`).
    ///
    /// Errors, after which nothing has changed: `Misplaced` if `p` is not the address of a slot's first payload byte; otherwise `NotLive`
    /// if no chunk is live in the slot; otherwise `WrongTag` if the live chunk has another tag than `p`. So `free` accepts exactly null and
    /// the pointers that were given out for live chunks.
    #[tactic(auto, unfolding(heap_theory::specs::Calls::free_step))]
    #[inline(never)]
    pub fn free(&mut self, p: u64) -> Result<(), FreeError>
        requires few { self.old.frees < 2 ^ 48 }
        ensures answer { result ≡ (free_step self.old.state p).answer }
        ensures state { self.new.state ≡ (free_step self.old.state p).heap }
        ensures null { p ≡ 0 → self.new ≡ self.old }
        ensures counted { OnOk result (p ≢ 0 → self.new.frees ≡ self.old.frees + 1) }
        ensures refused { OnErr result (self.new ≡ self.old) }
        ensures accepted { (result ≡ Ok tt) ↔ IsNullOrOwn self.old.state p }
    {
        if p == 0 {
            return Ok(());
        }
        let chunk = self.chunk(p)?;
        self.free_chunk(chunk);
        Ok(())
    }

    /// The live chunk at p, or why there is none.
    #[inline(always)]
    pub(crate) fn chunk(&self, p: u64) -> Result<Chunk, FreeError>
        ensures ok { IfOk result
            (λ chunk. chunk_at self.now.state p ≡ Ok (record { slot = chunk.slot; size = chunk.size })) }
        ensures live { IfOk result (λ chunk. IsChunk self.now.state chunk) }
        ensures err { IfErr result (λ error. chunk_at self.now.state p ≡ Err error) }
        ensures sound { IsSoundHeap self.now.state }
    {
        let Some((slot, start)) = slot_of_pointer(&self.layout, p) else {
            return Err(FreeError::Misplaced);
        };
        let header = header(self.machine.memory(), &self.layout, slot, start);
        match header.state {
            State::Live => {}
            State::Fresh | State::Quarantined | State::Freed => return Err(FreeError::NotLive),
        }
        if header.tag != logical_tag(p) {
            return Err(FreeError::WrongTag);
        }
        let number = usize::from(header.class);
        let class = self.layout.class(number);
        Ok(Chunk {
            slot,
            start,
            class,
            number,
            size: u32::from(header.size),
            tag: header.tag,
        })
    }

    /// Takes a live chunk back.
    #[inline(always)]
    pub(crate) fn free_chunk(&mut self, chunk: Chunk)
        requires live { IsChunk self.old.state chunk }
        requires few { self.old.frees < 2 ^ 48 }
        ensures { self.new
            ≡ record { state = freed self.old.state chunk.slot chunk.size; frees = self.old.frees + 1 } }
    {
        let Chunk {
            slot,
            start,
            class,
            size,
            tag,
            ..
        } = chunk;
        // here, apart from `total`: the compiler would add to both as one vector, which takes more instructions
        self.frees += 1;
        retire(
            &mut self.machine,
            &self.layout,
            slot,
            start,
            size,
            tag,
            self.total,
        );
        let bytes = GRANULE_BYTES as u32 * class;
        let memory = self.machine.memory_mut();
        self.quarantine
            .put_at(memory, &self.layout, slot, start, bytes);
        release_oldest(memory, &self.layout, &mut self.quarantine, &mut self.lists);
        self.total += u64::from(bytes);
    }
}

// Releases the oldest slots of the quarantine to their classes' lists while it holds more than its limit.
#[inline(always)]
fn release_oldest(
    memory: &mut Memory,
    layout: &Layout,
    quarantine: &mut Quarantine,
    lists: &mut ClassLists,
)
    requires kept { SomeIsKept layout.now
        (record { memory = memory.old; quarantine = quarantine.old; fronts = lists.old }) }
    ensures kept { (heap : TheHeap) →
        let same = record heap { layout = layout.now } in
        IsKept same (record { memory = memory.old; quarantine = quarantine.old; fronts = lists.old }) →
        IsKept same (record { memory = memory.new; quarantine = quarantine.new; fronts = lists.new }) }
    ensures held { quarantine.new.held ≤ quarantine.new.limit }
{
    while let Some((slot, start)) = quarantine.next_out_at(memory, layout) {
        list_released(memory, layout, lists, slot, start);
    }
}

// Puts a slot that the quarantine let go, whose header is granule `start`, in front of its class's list: writes the first word of its header
// once, link included.
fn list_released(
    memory: &mut Memory,
    layout: &Layout,
    lists: &mut ClassLists,
    slot: u32,
    start: u32,
)
    requires slot { slot < slot_count layout.now }
    requires start { start ≡ (slot_of layout.now slot).start }
    requires region { length memory.old ≡ layout.now.granules }
    requires memory { IsMemory memory.old }
    requires partition { IsPartition layout.now }
    requires class { HasFront lists.old (header_in (region_of layout.now memory.old) slot).class }
    ensures header { let before = header_in (region_of layout.now memory.old) slot in
        let after = record before { standing = Freed; next = slice_index lists.old before.class } in
        IsRewritten layout.now memory.old memory.new slot after (without_headers layout.now memory.old) }
    ensures front { let before = header_in (region_of layout.now memory.old) slot in
        lists.new ≡ slice_set lists.old before.class (slot + 1) }
    ensures memory { IsMemory memory.new }
{
    prove!(slot < layout.slots());
    let number = class_number(memory, layout, slot, start);
    set_freed(memory, start, lists.front(number));
    lists.set_front(number, slot + 1);
}
