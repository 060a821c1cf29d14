//! Loads and stores.
ghost use Rattle.std.specs.Prelude.{◌≡◌, if◌then◌else◌, length};
ghost use Rattle.machine_theory.specs.Access.{loaded};
ghost use Rattle.mte_c.specs.Heap.Outcomes.{access_outcome, is_done, with_stored};

use crate::heap::outcome::Outcome;
use handed_text::{BAD_OPTION, DONE, MISUSE};
use machine_theory::LONGEST_ACCESS;
use tag_machine::logical_tag;
use tagged_heap::Heap;

/// Reads from an address on, as many bytes as the room has.
#[tactic(auto, unfolding(crate::specs::Heap::Outcomes::access_outcome))]
pub(crate) fn load(heap: &Heap, address: u64, room: &mut [u8]) -> Outcome
    ensures outcome { result ≡ access_outcome heap.now.state address (length room.old) }
    ensures room { room.new
        ≡ (if is_done result then loaded heap.now.state.memory address (length room.old) else room.old) }
{
    if room.is_empty() || room.len() > LONGEST_ACCESS as usize {
        return Outcome::plain(BAD_OPTION);
    }
    if logical_tag(address) == 0 && heap.mapped(address, room.len()) {
        return Outcome::plain(MISUSE);
    }
    match heap.load(address, room) {
        Ok(()) => Outcome::plain(DONE),
        Err(fault) => Outcome::of_fault(heap, fault),
    }
}

/// Writes these bytes from an address on.
#[tactic(auto, unfolding(crate::specs::Heap::Outcomes::access_outcome))]
pub(crate) fn store(heap: &mut Heap, address: u64, bytes: &[u8]) -> Outcome
    ensures outcome { result ≡ access_outcome heap.old.state address (length bytes.now) }
    ensures heap { heap.new ≡ (if is_done result then with_stored heap.old address bytes.now else heap.old) }
{
    if bytes.is_empty() || bytes.len() > LONGEST_ACCESS as usize {
        return Outcome::plain(BAD_OPTION);
    }
    if logical_tag(address) == 0 && heap.mapped(address, bytes.len()) {
        return Outcome::plain(MISUSE);
    }
    match heap.store(address, bytes) {
        Ok(()) => Outcome::plain(DONE),
        Err(fault) => Outcome::of_fault(heap, fault),
    }
}
