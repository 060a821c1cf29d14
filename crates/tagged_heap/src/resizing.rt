//! The call that resizes a chunk.
ghost use Rattle.class_table.specs.Sizes.{largest_counted, chunk_granules};
ghost use Rattle.class_table.specs.Tables.{class_for, loss_of_size};
ghost use Rattle.heap_theory.specs.Calls.{given_out, moved, payload_bytes, realloc_step, resized, stays_in_class, with_payload};
ghost use Rattle.heap_theory.specs.Lookups.{slot_for_request};
ghost use Rattle.heap_theory.specs.OwnPointers.{IsNotRefused, IsNullOrOwn};
ghost use Rattle.heap_theory.specs.State.{pointer_to, slot_in, IsSlot};
ghost use Rattle.std.specs.Result.{result_map_both};
ghost use Rattle.std.specs.Prelude.{◌≡◌, ◌↔◌, ◌+◌, ◌*◌, ◌^◌, ◌<◌, ◌≤◌, ◌≢◌, IfErr, IfOk, IsTrue, OnErr, Some, ℕ};
ghost use Rattle.tagged_heap.specs.Chunks.{IsChunk};
ghost use Rattle.tagged_heap.specs.Frees.{frees_of_realloc};

use crate::allocation::{GivenChunk, class_number_for, unused_bytes};
use crate::freeing::Chunk;
use crate::heap::Heap;
use crate::slot_changes::resize;
use class_table::Slot;
use heap_theory::{NullCause, ReallocError};
use machine_theory::GRANULE_BYTES;

impl Heap {
    /// Changes the size of the chunk at `p` to `n` bytes, and returns the chunk's address. The chunk stays in place, under its tag, if `n`
    /// is of its class. Otherwise it moves to a new slot: `realloc` copies its bytes up to the smaller of the two sizes, and frees the old
    /// chunk. If `p` is null (0), `realloc` does what `malloc` does. Fewer than 2^48 chunks must have been freed before (`frees`).
    ///
    /// Errors, after which nothing has changed: `Refused` if `free` would refuse `p`; otherwise `Null` with `Large` or `NoClass` if `n` has
    /// no class; otherwise `Null` with `Exhausted` if the chunk has to move and the other class has no slot left. So `realloc` accepts
    /// exactly null and the pointers that were given out for live chunks.
    pub fn realloc(&mut self, p: u64, n: u32) -> Result<u64, ReallocError>
        requires few { self.old.frees < 2 ^ 48 }
        ensures answer { result ≡ (realloc_step self.old.state p n).answer }
        ensures state { self.new.state ≡ (realloc_step self.old.state p n).heap }
        ensures counted { self.new.frees ≡ self.old.frees + frees_of_realloc self.old.state p n }
        ensures at_most_one { self.new.frees ≤ self.old.frees + 1 }
        ensures refused { OnErr result (self.new ≡ self.old) }
        ensures accepted { IsNotRefused result ↔ IsNullOrOwn self.old.state p }
    {
        let given = self.realloc_with_loss(p, n)?;
        Ok(given.0)
    }

    /// As `realloc`, and returns the bytes that the chunk leaves unused in its block (`loss`), too.
    #[tactic(auto, unfolding(heap_theory::specs::Calls::realloc_step, crate::specs::Frees::frees_of_realloc))]
    pub fn realloc_with_loss(&mut self, p: u64, n: u32) -> Result<(u64, u32), ReallocError>
        requires few { self.old.frees < 2 ^ 48 }
        ensures answer { result_map_both (λ given. given.0) (λ error. error) result
            ≡ (realloc_step self.old.state p n).answer }
        ensures loss { IfOk result (λ given. given.1 ≡ loss_of_size self.old.state.layout.classes n) }
        ensures state { self.new.state ≡ (realloc_step self.old.state p n).heap }
        ensures counted { self.new.frees ≡ self.old.frees + frees_of_realloc self.old.state p n }
        ensures at_most_one { self.new.frees ≤ self.old.frees + 1 }
        ensures refused { OnErr result (self.new ≡ self.old) }
        ensures accepted { IsNotRefused (result_map_both (λ given. given.0) (λ error. error) result)
            ↔ IsNullOrOwn self.old.state p }
    {
        if p == 0 {
            return self.malloc_with_loss(n).map_err(ReallocError::Null);
        }
        let chunk = self.chunk(p).map_err(ReallocError::Refused)?;
        if self.stays_in_class(chunk, n) {
            self.resize(chunk, n);
            return Ok((p, unused_bytes(chunk.class, n)));
        }
        self.move_chunk(chunk, n).map_err(ReallocError::Null)
    }

    // Moves the chunk of a live slot to the slot for a request of n bytes, and returns its new address, and the bytes that it leaves unused
    // in its block. The error says why there is no such slot.
    #[tactic(auto, unfolding(heap_theory::specs::Calls::given_out, heap_theory::specs::Calls::with_payload))]
    fn move_chunk(&mut self, chunk: Chunk, n: u32) -> Result<(u64, u32), NullCause>
        requires live { IsChunk self.old.state chunk }
        requires few { self.old.frees < 2 ^ 48 }
        ensures ok { IfOk result (λ given. (s : ℕ) × (slot_for_request self.old.state n ≡ Ok s)
            × (given.0 ≡ pointer_to (given_out self.old.state s n) s)
            × (self.new ≡ record {
              state = moved self.old.state (record { slot = chunk.slot; size = chunk.size }) s n;
              frees = self.old.frees + 1;
            })) }
        ensures loss { IfOk result (λ given. given.1 ≡ loss_of_size self.old.state.layout.classes n) }
        ensures err { IfErr result (λ cause. slot_for_request self.old.state n ≡ Err cause) }
        ensures refused { OnErr result (self.new ≡ self.old) }
    {
        let given = self.allocate(n)?;
        self.copy_payload(chunk, given, chunk.size.min(n));
        self.free_chunk(chunk);
        Ok((given.address, given.loss))
    }

    // Whether n bytes are of the class that a chunk's slot has.
    fn stays_in_class(&self, chunk: Chunk, n: u32) -> bool
        requires { IsChunk self.now.state chunk }
        ensures test { result ≡ stays_in_class self.now.state (record { slot = chunk.slot; size = chunk.size }) n }
        ensures size { IsTrue result → n ≤ largest_counted }
        ensures room { IsTrue result → chunk_granules n < (slot_in self.now.state chunk.slot).class }
        ensures class { IsTrue result
            → class_for self.now.state.layout.classes n ≡ Some (slot_in self.now.state chunk.slot).class }
    {
        class_number_for(&self.layout, n) == Ok(chunk.number)
    }

    // Gives a live chunk n bytes, for which its slot has room.
    fn resize(&mut self, chunk: Chunk, n: u32)
        requires live { IsChunk self.old.state chunk }
        requires size { n ≤ largest_counted }
        requires room { chunk_granules n < (slot_in self.old.state chunk.slot).class }
        ensures { self.new ≡ record self.old { state = resized self.old.state chunk.slot n } }
    {
        let Chunk {
            slot,
            start,
            class,
            ..
        } = chunk;
        let place = Slot { start, class };
        resize(&mut self.machine, &self.layout, slot, place, n);
    }

    // Copies the first bytes of a chunk's payload to that of a slot that was given out.
    fn copy_payload(&mut self, from: Chunk, to: GivenChunk, count: u32)
        requires from { IsChunk self.old.state from }
        requires to { IsSlot self.old.state to.slot }
        requires start { to.start ≡ (slot_in self.old.state to.slot).start }
        requires apart { from.slot ≢ to.slot }
        requires source { count + GRANULE_BYTES ≤ GRANULE_BYTES * (slot_in self.old.state from.slot).class }
        requires target { count + GRANULE_BYTES ≤ GRANULE_BYTES * (slot_in self.old.state to.slot).class }
        ensures { let bytes = payload_bytes self.old.state from.slot count in
            self.new ≡ record self.old { state = with_payload self.old.state to.slot bytes } }
    {
        let source = GRANULE_BYTES as usize * (from.start as usize + 1);
        let target = GRANULE_BYTES as usize * (to.start as usize + 1);
        let memory = self.machine.memory_mut();
        memory.copy_bytes(source, target, count as usize);
    }
}
