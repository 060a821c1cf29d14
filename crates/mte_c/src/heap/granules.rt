//! What a granule is.
ghost use Rattle.std.specs.Prelude.{◌≡◌, ◌<◌, length, nat_lt};
ghost use Rattle.machine_theory.specs.Memory.{tag_at};
ghost use Rattle.mte_c.specs.Heap.Outcomes.{granule_outcome};

use crate::heap::outcome::Outcome;
use handed_text::{BAD_OPTION, DONE};
use tagged_heap::Heap;

/// The kind and the tag of a granule, and the slot over it.
#[tactic(auto, unfolding(crate::specs::Heap::Outcomes::granule_outcome))]
pub(crate) fn granule_outcome(heap: &Heap, granule: u32) -> Outcome
    ensures { result ≡ granule_outcome heap.now.state granule }
{
    if !is_inside(heap, granule) {
        return Outcome::plain(BAD_OPTION);
    }
    let outcome = Outcome {
        memory_tag: tag(heap, granule),
        granule_kind: heap.place_kind(granule).number(),
        ..Outcome::plain(DONE)
    };
    match heap.slot_facts(granule) {
        Some(slot) => Outcome {
            value: u64::from(slot.number),
            granule: slot.start,
            ..outcome
        },
        None => outcome,
    }
}

#[tactic(auto, using(crate::proofs::HeapLemmas::LentMemory::lent_long))]
fn is_inside(heap: &Heap, granule: u32) -> bool
    ensures { result ≡ nat_lt granule (length heap.now.state.memory) }
{
    granule < heap.memory().granules()
}

#[tactic(auto, using(crate::proofs::HeapLemmas::LentMemory::lent_long, crate::proofs::HeapLemmas::LentMemory::lent_tag))]
fn tag(heap: &Heap, granule: u32) -> u8
    requires { granule < length heap.now.state.memory }
    ensures { result ≡ tag_at heap.now.state.memory granule }
{
    heap.memory().tag(granule)
}
