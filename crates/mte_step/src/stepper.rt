//! A replay that goes on event by event.
ghost use Rattle.std.specs.Prelude.{◌≡◌, ◌<◌, ◌≤◌, ◌+◌, ◌^◌, length, drop, slice_get, IfOk, IsTrue, false, true};
ghost use Rattle.replay_theory.specs.Replay.{Replay as Replayed, first_replay, replay_of, variable};
ghost use Rattle.trace_event.specs.declared.event.TheConstants.Event.{LAST_VARIABLE};
ghost use Rattle.heap_theory.specs.Config.{IsConfig, layout_for};
ghost use Rattle.mte_step.specs.Picture.{AreFewEvents, IsDrawn};
ghost use Rattle.trace_reader.specs.TraceLine.{most_events};

use crate::drawing::draw;
use arrayvec::ArrayVec;
use class_table::ClassTable;
use replay_core::{Config, LINE_ROOM, Replay};
use std::alloc::{AllocError, Global};
use tagged_heap::Heap;
use trace_reader::TraceReader;

/// A replay of the events in a reader.
#[derive(Drop)]
pub struct Stepper {
    pub(crate) replay: Replay,
    pub(crate) reader: TraceReader,
    ghost few: { AreFewEvents replay reader.events },
}

impl Stepper {
    ghost use Rattle.mte_step.specs.Pictured.{goes_on};

    /// Before the first event.
    #[tactic(auto, unfolding(replay_core::specs::ReplayState::first_stored))]
    pub fn new(
        alloc: Global,
        table: &ClassTable,
        config: Config,
        reader: TraceReader,
    ) -> Result<Stepper, AllocError>
        requires config { IsConfig config }
        requires few { length reader.events ≤ most_events }
        ensures replay { IfOk result (λ s. s.replay.replay
            ≡ first_replay (layout_for config table.now) config.seed config.quarantine) }
        ensures events { IfOk result (λ s. s.reader.events ≡ reader.events) }
    {
        let replay = Replay::new(alloc, table, config)?;
        Ok(Stepper { replay, reader })
    }

    /// Performs the next event. Returns whether there was one.
    #[tactic(auto, unfolding(replay_core::specs::ReplayState::stored_after, replay_theory::specs::Totals::totals_after))]
    pub fn step(&mut self) -> bool
        ensures { goes_on self.old self.new result }
    {
        let Some(event) = self.reader.next_event() else {
            return false;
        };
        let mut line = ArrayVec::new();
        self.replay.step(&event, &mut line);
        true
    }

    /// The heap.
    pub fn heap(&self) -> &Heap
        ensures { result.now.state ≡ self.now.replay.replay.heap }
    {
        self.replay.heap()
    }

    /// The value of a variable, 0 to 1,023: an address, or 0, which is null.
    pub fn variable(&self, v: u16) -> u64
        requires { v ≤ LAST_VARIABLE }
        ensures { result ≡ variable self.now.replay.replay v }
    {
        self.replay.variable(v)
    }

    /// The granules of the heap.
    #[tactic(auto, using(crate::proofs::Seen::lent_long))]
    pub fn granules(&self) -> u32
        ensures { result ≡ length self.now.replay.replay.heap.memory }
    {
        self.replay.heap().memory().granules()
    }

    /// Draws the heap.
    pub fn draw(&self, tags: &mut [u8], kinds: &mut [u8])
        requires tags { length tags.old ≡ length self.now.replay.replay.heap.memory }
        requires kinds { length kinds.old ≡ length self.now.replay.replay.heap.memory }
        ensures { IsDrawn self.now.replay.replay.heap tags.new kinds.new }
    {
        draw(self.replay.heap(), tags, kinds);
    }
}
