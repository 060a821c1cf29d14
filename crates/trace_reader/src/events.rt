ghost use Rattle.std.specs.Prelude.{◌≡◌, ◌↔◌, ◌<◌, [], IsTrue, Some, length, slice_get};

use crate::kept_event::KeptEvent;
use std::marker::Model;
use trace_event::Event;

/// Events that wait in a reader, in order. Contracts see them as the list of these events.
#[derive(Debug, Drop)]
pub struct Events<'a> {
    pub(crate) kept: &'a [KeptEvent],
}

impl<'a> Model for Events<'a> {
    ghost use Rattle.std.specs.Prelude.{List, map};
    ghost use Rattle.trace_event.specs.declared.event.Event.{Event as EventView};
    ghost use Rattle.trace_reader.specs.Kept.{event_of};

    ghost Value = { List EventView };

    ghost view = { λ e. map event_of e.kept.now };
}

impl<'a> Events<'a> {
    /// How many they are.
    pub fn len(&self) -> usize
        ensures { result ≡ length self.now }
    {
        self.kept.len()
    }

    /// Whether there is none.
    pub fn is_empty(&self) -> bool
        ensures { IsTrue result ↔ (self.now ≡ []) }
    {
        self.kept.is_empty()
    }

    /// The event at a place, counted from 0, which must be below `len()`.
    #[inline(always)]
    pub fn at(&self, place: usize) -> Event
        requires { place < length self.now }
        ensures { slice_get self.now place ≡ Some result }
    {
        let kept = self.kept;
        kept[place].event()
    }
}
