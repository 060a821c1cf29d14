//! Who sees the events of a trace while it is read.
ghost use Rattle.std.specs.Prelude.{◌++◌, ◌∷◌, [], List, ⊤};
ghost use Rattle.trace_event.specs.declared.event.Event.{Event as EventView};

use trace_event::Event;

/// Sees the events of a trace, in order, each while it is read and before it is kept (`TraceReader::feed_observed`).
pub trait Observer {
    // These are the events that it saw.
    ghost has_seen: { Self → List EventView → Type 0 };

    /// Sees the next event.
    fn see(&mut self, event: &Event)
        ensures { (events : List EventView) → has_seen self.old events → has_seen self.new (events ++ event.now ∷ []) };
}

/// Looks at no event.
#[derive(Debug, Drop)]
pub struct NoObserver;

impl Observer for NoObserver {
    ghost has_seen = { λ _ _. ⊤ };

    #[inline(always)]
    fn see(&mut self, _event: &Event) {}
}
