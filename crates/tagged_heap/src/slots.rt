//! What is told of a slot.
ghost use Rattle.std.specs.Prelude.{◌≡◌};
ghost use Rattle.std.specs.Option.{option_map};
ghost use Rattle.chunk_header.specs.HeaderView.{standing_seen};
ghost use Rattle.class_table.specs.Layout.{slot_over};
ghost use Rattle.heap_theory.specs.Header.{code_of};
ghost use Rattle.tagged_heap.specs.Slots.{facts_of};

use crate::heap::Heap;
use crate::read_header::header;
use chunk_header::State;

/// A slot: where it lies, how it stands, and its last request.
#[repr(C)]
#[derive(Clone, Copy, Debug, PartialEq, Eq)]
pub struct SlotFacts {
    /// Its number, counted from 0 in the order of addresses.
    pub number: u32,
    /// Its first granule, which has its header.
    pub start: u32,
    /// The granules of its block, the header's among them: its class, 2 to 1024.
    pub granules: u32,
    /// How it stands: 0 never given out, 1 live, 2 dead and in the quarantine, 3 dead and released.
    pub state: u32,
    /// The bytes that were last requested for it; 0 if it was never given out.
    pub size: u32,
    /// The tag that it was last given out with, 1 to 15; 0 if it was never given out.
    pub tag: u32,
}

impl Heap {
    /// The slot over a granule. `None` if the granule is slack or past the region.
    pub fn slot_facts(&self, granule: u32) -> Option<SlotFacts>
        ensures { result ≡ option_map (facts_of self.now.state) (slot_over self.now.state.layout granule) }
    {
        let number = self.layout.slot_at(granule)?;
        let slot = self.layout.slot(number);
        let header = header(self.machine.memory(), &self.layout, number, slot.start);
        Some(SlotFacts {
            number,
            start: slot.start,
            granules: slot.class,
            state: state_number(header.state),
            size: u32::from(header.size),
            tag: u32::from(header.tag),
        })
    }
}

// the number by which a state is told
fn state_number(state: State) -> u32
    ensures { result ≡ code_of (standing_seen state) }
{
    match state {
        State::Fresh => 0,
        State::Live => 1,
        State::Quarantined => 2,
        State::Freed => 3,
    }
}
