//! The events that wait in a reader.
ghost use Rattle.std.specs.Prelude.{◌≡◌, ◌≤◌, [], ◌∷◌, ◌++◌, drop, length, map, slice_get, OnErr, OnOk};
ghost use Rattle.trace_event.specs.Ranges.{IsInRange};
ghost use Rattle.trace_reader.specs.Kept.{event_of};

use crate::events::Events;
use crate::kept_event::KeptEvent;
use std::alloc::{AllocError, Global};
use std::marker::Model;
use trace_event::Event;

/// Events that wait, in order. Those that were taken out keep their room until `pop` finds no event: so adding an event and taking one out
/// each cost one test.
#[derive(Debug, Drop)]
pub(crate) struct EventQueue {
    events: Vec<KeptEvent>,
    // how many of them were taken out
    taken: usize,
}

impl Model for EventQueue {
    ghost use Rattle.std.specs.Prelude.{◌≤◌, List, drop, length, map};
    ghost use Rattle.trace_event.specs.declared.event.Event.{Event as EventView};
    ghost use Rattle.trace_reader.specs.Kept.{event_of};

    ghost Value = { List EventView };

    ghost view = { λ q. map event_of (drop q.taken q.events.items) };

    ghost invariant = { λ q. q.taken ≤ length q.events.items };
}

impl EventQueue {
    /// No events; it takes no memory yet.
    pub(crate) fn new(alloc: Global) -> EventQueue
        ensures { result ≡ [] }
    {
        EventQueue {
            events: Vec::new(alloc),
            taken: 0,
        }
    }

    /// The events that wait.
    pub(crate) fn events(&self) -> Events<'_>
        ensures { result ≡ self.now }
    {
        Events {
            kept: &self.events[self.taken..],
        }
    }

    /// Adds an event at the end.
    #[inline(always)]
    pub(crate) fn push(&mut self, event: Event) -> Result<(), AllocError>
        requires { IsInRange event }
        ensures ok { OnOk result (self.new ≡ self.old ++ event ∷ []) }
        ensures err { OnErr result (self.new ≡ self.old) }
    {
        if self.events.capacity() <= self.events.len() {
            self.events.reserve(1)?;
        }
        self.events.push_reserved(KeptEvent::of(event));
        Ok(())
    }

    /// Adds events at the end.
    pub(crate) fn extend(&mut self, events: &[KeptEvent]) -> Result<(), AllocError>
        ensures ok { OnOk result (self.new ≡ self.old ++ map event_of events.now) }
        ensures err { OnErr result (self.new ≡ self.old) }
    {
        self.events.extend_from_slice(events)
    }

    /// Takes out the first event.
    #[inline(always)]
    pub(crate) fn pop(&mut self) -> Option<Event>
        ensures event { result ≡ slice_get self.old 0 }
        ensures rest { self.new ≡ drop 1 self.old }
    {
        if self.taken == self.events.len() {
            self.events.clear();
            self.taken = 0;
            return None;
        }
        let event = self.events[self.taken];
        self.taken += 1;
        Some(event.event())
    }

    /// Takes out the first `n` events.
    pub(crate) fn skip(&mut self, n: usize)
        requires { n ≤ length self.old }
        ensures { self.new ≡ drop n self.old }
    {
        self.taken += n;
    }
}
