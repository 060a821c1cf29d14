//! What holds for every heap. Each law is the contract of a call that does nothing. The laws of whole runs are in `replay_theory`.
ghost use Rattle.heap_theory.specs.HeapTags.{ChunksAreTagged, ParitiesDiffer};
ghost use Rattle.heap_theory.specs.Sound.{IsSoundHeap};

use crate::heap::Heap;
pub use heap_theory::laws::headers::law_header_words;

impl Heap {
    /// Headers, slack and tails have tag 0. The chunk granules of a slot share one tag: the slot's tag while it is live, and after its free
    /// another tag that the slot may take.
    pub fn law_sound(&self)
        ensures { IsSoundHeap self.now.state }
    {
        // the use of a field gives the proof the invariant of the type
        let _ = &self.layout;
    }

    /// No granule of a chunk has tag 0. A chunk of a slot with an even number and one of a slot with an odd number never have the same tag.
    #[tactic(auto, using(heap_theory::proofs::GranuleTags::chunks_tagged, heap_theory::proofs::GranuleTags::parities_differ))]
    pub fn law_tags(&self)
        ensures tagged { ChunksAreTagged self.now.state }
        ensures differ { ParitiesDiffer self.now.state }
    {
        // the use of a field gives the proof the invariant of the type
        let _ = &self.layout;
    }
}
