//! The calls that give out a chunk.
ghost use Rattle.class_table.specs.Sizes.{largest_counted, chunk_granules};
ghost use Rattle.heap_theory.specs.Calls.{calloc_step, given_out, malloc_step, with_payload};
ghost use Rattle.class_table.specs.Tables.{class_number_for, loss_of_size};
ghost use Rattle.heap_theory.specs.Lookups.{slot_for_request};
ghost use Rattle.heap_theory.specs.Sound.{IsSoundHeap};
ghost use Rattle.heap_theory.specs.State.{pointer_to, slot_in, IsSlot};
ghost use Rattle.tagged_heap.specs.ClassSlots.{IsCauseFor};
ghost use Rattle.std.specs.Result.{result_map_both};
ghost use Rattle.std.specs.Prelude.{◌≡◌, ◌*◌, ◌-◌, ◌<◌, ◌≤◌, length, replicate, IfErr, IfOk, OnErr};

use crate::heap::Heap;
use crate::next_slot::take_slot;
use crate::slot_changes::give_out;
use crate::tags::chunk_granules;
use class_table::{LARGEST_CLASS, LARGEST_COUNTED, Layout};
use heap_theory::NullCause;
use machine_theory::GRANULE_BYTES;

/// The number of the class that serves a request of `n` bytes, or why none does.
pub(crate) fn class_number_for(layout: &Layout, n: u32) -> Result<usize, NullCause>
    ensures ok { IfOk result
        (λ number. (n ≤ largest_counted) × (class_number_for layout.now.classes n ≡ Some number)) }
    ensures within { IfOk result (λ number. number < length layout.now.classes) }
    ensures err { IfErr result (IsCauseFor layout.now.classes n) }
{
    if n > LARGEST_COUNTED {
        return Err(NullCause::Large);
    }
    layout.find(n).ok_or(NullCause::NoClass)
}

/// The bytes that a chunk of `n` bytes leaves unused in a block of this class.
pub(crate) fn unused_bytes(class: u32, n: u32) -> u32
    requires room { chunk_granules n < class }
    requires few { class ≤ LARGEST_CLASS }
    ensures { result ≡ GRANULE_BYTES * class - GRANULE_BYTES - n }
{
    GRANULE_BYTES as u32 * (class - 1) - n
}

/// A chunk that was given out: its slot, the slot's header granule, its address, and the bytes that it leaves unused in its block.
#[derive(Clone, Copy)]
pub(crate) struct GivenChunk {
    pub(crate) slot: u32,
    pub(crate) start: u32,
    pub(crate) address: u64,
    pub(crate) loss: u32,
}

impl Heap {
    /// Gives out a chunk of `n` bytes. Returns the address of its first byte, with the chunk's tag. The bytes of the chunk keep their
    /// values.
    ///
    /// Errors, after which nothing has changed: `Large` if `n` is above `LARGEST_COUNTED`; otherwise `NoClass` if no class serves it; otherwise
    /// `Exhausted` if its class has no slot left.
    #[tactic(auto, unfolding(heap_theory::specs::Calls::malloc_step))]
    pub fn malloc(&mut self, n: u32) -> Result<u64, NullCause>
        ensures answer { result ≡ (malloc_step self.old.state n).answer }
        ensures state { self.new.state ≡ (malloc_step self.old.state n).heap }
        ensures frees { self.new.frees ≡ self.old.frees }
        ensures refused { OnErr result (self.new ≡ self.old) }
    {
        let given = self.allocate(n)?;
        Ok(given.address)
    }

    /// As `malloc`, and returns the bytes that the chunk leaves unused in its block (`loss`), too.
    #[tactic(auto, unfolding(heap_theory::specs::Calls::malloc_step))]
    #[inline(never)]
    pub fn malloc_with_loss(&mut self, n: u32) -> Result<(u64, u32), NullCause>
        ensures answer { result_map_both (λ given. given.0) (λ cause. cause) result
            ≡ (malloc_step self.old.state n).answer }
        ensures loss { IfOk result (λ given. given.1 ≡ loss_of_size self.old.state.layout.classes n) }
        ensures state { self.new.state ≡ (malloc_step self.old.state n).heap }
        ensures frees { self.new.frees ≡ self.old.frees }
        ensures refused { OnErr result (self.new ≡ self.old) }
    {
        let given = self.allocate(n)?;
        Ok((given.address, given.loss))
    }

    /// As `malloc`, with all bytes of the chunk's granules set to 0.
    pub fn calloc(&mut self, n: u32) -> Result<u64, NullCause>
        ensures answer { result ≡ (calloc_step self.old.state n).answer }
        ensures state { self.new.state ≡ (calloc_step self.old.state n).heap }
        ensures frees { self.new.frees ≡ self.old.frees }
        ensures refused { OnErr result (self.new ≡ self.old) }
    {
        let given = self.calloc_with_loss(n)?;
        Ok(given.0)
    }

    /// As `calloc`, and returns the bytes that the chunk leaves unused in its block (`loss`), too.
    #[tactic(auto, unfolding(heap_theory::specs::Calls::calloc_step, heap_theory::specs::Calls::given_out))]
    pub fn calloc_with_loss(&mut self, n: u32) -> Result<(u64, u32), NullCause>
        ensures answer { result_map_both (λ given. given.0) (λ cause. cause) result
            ≡ (calloc_step self.old.state n).answer }
        ensures loss { IfOk result (λ given. given.1 ≡ loss_of_size self.old.state.layout.classes n) }
        ensures state { self.new.state ≡ (calloc_step self.old.state n).heap }
        ensures frees { self.new.frees ≡ self.old.frees }
        ensures refused { OnErr result (self.new ≡ self.old) }
    {
        let chunk = self.allocate(n)?;
        self.zero_chunk(chunk, n);
        Ok((chunk.address, chunk.loss))
    }

    /// Gives out the slot for a request of n bytes, or says why there is none.
    #[inline(always)]
    pub(crate) fn allocate(&mut self, n: u32) -> Result<GivenChunk, NullCause>
        ensures slot { result_map_both (λ given. given.slot) (λ cause. cause) result
            ≡ slot_for_request self.old.state n }
        ensures start { IfOk result (λ given. given.start ≡ (slot_in self.old.state given.slot).start) }
        ensures address { IfOk result
            (λ given. given.address ≡ pointer_to (given_out self.old.state given.slot n) given.slot) }
        ensures loss { IfOk result (λ given. given.loss ≡ loss_of_size self.old.state.layout.classes n) }
        ensures given { IfOk result
            (λ given. self.new ≡ record self.old { state = given_out self.old.state given.slot n }) }
        ensures refused { OnErr result (self.new ≡ self.old) }
        ensures in_range { IfOk result (λ given. IsSlot self.old.state given.slot) }
        ensures sound { IsSoundHeap self.old.state }
    {
        let number = class_number_for(&self.layout, n)?;
        let memory = self.machine.memory_mut();
        let (slot, place) = take_slot(
            memory,
            &self.layout,
            &mut self.lists,
            &mut self.counters,
            number,
        )
        .ok_or(NullCause::Exhausted)?;
        let address = give_out(&mut self.machine, &self.layout, slot, place, n);
        Ok(GivenChunk {
            slot,
            start: place.start,
            address,
            loss: unused_bytes(place.class, n),
        })
    }

    // Sets to 0 all bytes of the chunk granules for n bytes, in a slot that was given out.
    fn zero_chunk(&mut self, given: GivenChunk, n: u32)
        requires slot { IsSlot self.old.state given.slot }
        requires start { given.start ≡ (slot_in self.old.state given.slot).start }
        requires size { n ≤ largest_counted }
        requires room { chunk_granules n < (slot_in self.old.state given.slot).class }
        ensures { self.new
            ≡ record self.old {
              state = with_payload self.old.state given.slot (replicate (GRANULE_BYTES * chunk_granules n) 0);
            } }
    {
        let memory = self.machine.memory_mut();
        memory.zero_granules(given.start + 1, chunk_granules(n));
    }
}
