//! Loads and stores through a variable.
ghost use Rattle.heap_theory.specs.HeapTags.{IsTaggedOrUnmapped};
ghost use Rattle.replay_theory.specs.Replay.{fault_answer, load_answer, store_answer};
ghost use Rattle.heap_theory.specs.Calls.{store_step};
ghost use Rattle.machine_theory.specs.Address.{moved_by};
ghost use Rattle.replay_core.specs.TheoryValues.{FitsBuffer, TellsRequest, shown};
ghost use Rattle.std.specs.Prelude.{◌≡◌, ◌≤◌, List, None, replicate, ℕ};

use crate::answer::Answer;
use tag_machine::Fault;
use tagged_heap::Heap;
use trace_event::Event;

/// The most bytes of an access.
pub(crate) const LONGEST_ACCESS: usize = Event::LONGEST_ACCESS as usize;

/// The address `off` bytes after another one, modulo 2^64.
pub(crate) fn move_address(address: u64, off: i32) -> u64
    ensures { result ≡ moved_by address off }
{
    address.wrapping_add_signed(i64::from(off))
}

/// Loads `len` bytes into the first bytes of `bytes`. The address must have a tag other than 0, or the access must not be mapped.
pub(crate) fn load(heap: &Heap, address: u64, len: u8, bytes: &mut [u8; LONGEST_ACCESS]) -> Answer
    requires len { (1 ≤ len) × (len ≤ LONGEST_ACCESS) }
    requires tagged { IsTaggedOrUnmapped heap.now.state address len }
    ensures answer { shown bytes.new result ≡ load_answer heap.now.state address len }
    ensures filled { FitsBuffer result }
    ensures tells { (classes : List ℕ) → TellsRequest classes None result }
{
    match heap.load_into(address, usize::from(len), bytes) {
        Ok(()) => Answer::Loaded { len },
        Err(fault) => fault_answer(heap, fault),
    }
}

/// Stores `len` bytes of this value. The address must have a tag other than 0, or the access must not be mapped.
#[tactic(auto, unfolding(heap_theory::specs::Calls::store_step))]
pub(crate) fn store(heap: &mut Heap, address: u64, len: u8, byte: u8) -> Answer
    requires len { (1 ≤ len) × (len ≤ LONGEST_ACCESS) }
    requires tagged { IsTaggedOrUnmapped heap.old.state address len }
    ensures answer { (bytes : List ℕ) → shown bytes result ≡ store_answer heap.old.state address len }
    ensures filled { FitsBuffer result }
    ensures state { heap.new.state ≡ store_step heap.old.state address (replicate len byte) }
    ensures frees { heap.new.frees ≡ heap.old.frees }
    ensures tells { (classes : List ℕ) → TellsRequest classes None result }
{
    match heap.store_run(address, usize::from(len), byte) {
        Ok(()) => Answer::Silent,
        Err(fault) => fault_answer(heap, fault),
    }
}

// The answer of a fault. An access meets no Alignment fault.
fn fault_answer(heap: &Heap, fault: Fault) -> Answer
    ensures answer { (bytes : List ℕ) → shown bytes result ≡ fault_answer heap.now.state fault }
    ensures filled { FitsBuffer result }
    ensures tells { (classes : List ℕ) → TellsRequest classes None result }
{
    match fault {
        Fault::Unmapped | Fault::Alignment => Answer::NotMapped,
        Fault::TagCheck {
            granule,
            memory_tag,
            pointer_tag,
        } => Answer::TagFault {
            granule,
            memory_tag,
            pointer_tag,
            kind: heap.place_kind(granule),
        },
    }
}
