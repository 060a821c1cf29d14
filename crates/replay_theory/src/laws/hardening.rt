//! The hardening laws, over every run of events. An access is of 1 to 64 bytes, at most 2^20 bytes before or after a variable (`IsAccess`).
ghost use Rattle.replay_theory.specs.Hardening.{BookkeepingOutOfReach, ChunkTagsDiffer, ChunkTagsNotZero, FreedFaults, InsideSucceeds, LivesOn, NeighboursFault, NullOrTagged, PointersAreCopied, ReuseIsDelayed, LiveVariablesAreAccepted};
ghost use Rattle.trace_event.specs.declared.event.Event.TheVariants.{Addg, Subg};
ghost use Rattle.heap_theory.specs.Calls.{free_step, freed};
ghost use Rattle.heap_theory.specs.Lookups.{chunk_at};
ghost use Rattle.heap_theory.specs.OwnPointers.{FreeAccepts, GivesOwnPointers, IsNullOrOwn, IsOwnPointer, ReallocAccepts, StaysOwnPointer};
ghost use Rattle.replay_theory.specs.Run.{AfterEveryRun, AtEveryEvent};
ghost use Rattle.heap_theory.specs.Sound.{IsSoundHeap};
ghost use Rattle.heap_theory.specs.State.State.{Live};
ghost use Rattle.heap_theory.specs.State.{Heap, IsSlot, pointer_to, state_at};
ghost use Rattle.std.specs.Prelude.{◌≡◌, ◌↔◌, Ok, ℕ};

/// No chunk granule has tag 0. A chunk granule of an even slot and one of an odd slot never have the same tag.
pub fn law_chunk_tags()
    ensures not_zero { AfterEveryRun ChunkTagsNotZero }
    ensures differ { AfterEveryRun ChunkTagsDiffer }
{}

/// An access through any variable that touches slack, a header or a tail is a fault.
pub fn law_bookkeeping()
    ensures variables { AfterEveryRun NullOrTagged }
    ensures faults { AfterEveryRun BookkeepingOutOfReach }
{}

/// Through a variable whose generation is live, an access of bytes of its chunk succeeds.
pub fn law_inside()
    ensures { AfterEveryRun InsideSucceeds }
{}

/// `free` and `realloc` accept the pointer that was given out for a live chunk, and act on that chunk. They accept no other pointer but
/// null. Malloc, calloc and realloc give out such a pointer, and it remains one until a free or a realloc of it. So a variable whose
/// generation is live has one.
#[tactic(auto, using(heap_theory::proofs::OwnPointers::own_pointers))]
pub fn law_own_pointer()
    ensures free { (heap : Heap) (p : ℕ) → IsSoundHeap heap → FreeAccepts heap p ↔ IsNullOrOwn heap p }
    ensures realloc { (heap : Heap) (p n : ℕ) → IsSoundHeap heap → ReallocAccepts heap p n ↔ IsNullOrOwn heap p }
    ensures named { (heap : Heap) (s n tag : ℕ) → IsSoundHeap heap → IsSlot heap s → state_at heap s ≡ Live n tag →
        chunk_at heap (pointer_to heap s) ≡ Ok (record { slot = s; size = n }) }
    ensures freed { (heap : Heap) (s n tag : ℕ) → IsSoundHeap heap → IsSlot heap s → state_at heap s ≡ Live n tag →
        free_step heap (pointer_to heap s) ≡ record { heap = freed heap s n; answer = Ok tt } }
    ensures given { (heap : Heap) → IsSoundHeap heap → GivesOwnPointers heap }
    ensures stays { (heap : Heap) (s p : ℕ) → IsSoundHeap heap → IsOwnPointer heap s p → StaysOwnPointer heap s p }
    ensures variables { AfterEveryRun LiveVariablesAreAccepted }
{}

/// Through a variable with a generation of a slot, an access that touches the payload of a slot of the other parity is a fault.
pub fn law_neighbours()
    ensures { AfterEveryRun NeighboursFault }
{}

/// Through a variable whose generation was freed, an access that touches its slot is a fault, until the next generation was freed too.
pub fn law_freed()
    ensures { AfterEveryRun FreedFaults }
{}

/// ADDG and SUBG by 0 and 0 copy a pointer that was given out: the copy is the same pointer, of the same generation. So all laws on
/// generations hold for it, until it is set again, whatever becomes of the variable that it was copied from.
pub fn law_copied_pointer()
    ensures addg { AfterEveryRun (PointersAreCopied (λ v w. Addg v w 0 0)) }
    ensures subg { AfterEveryRun (PointersAreCopied (λ v w. Subg v w 0 0)) }
{}

/// A dead slot is given out only after the bytes freed from its free on, those of its own block included, exceed the quarantine's limit.
pub fn law_delay()
    ensures { AtEveryEvent ReuseIsDelayed }
{}

/// In an event each slot stays fresh, stays dead with its size, tag and mark, or stays live (a realloc in place may change its size); or it
/// is freed; or it is given out.
pub fn law_life()
    ensures { AtEveryEvent (λ quarantine. LivesOn) }
{}
