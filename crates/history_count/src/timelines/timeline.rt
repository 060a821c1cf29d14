//! The events of a timeline.
ghost use Rattle.std.specs.Prelude.{◌≡◌, List};
ghost use Rattle.history_count.specs.Timelines.Runs.{IsRun};
ghost use Rattle.tuner_theory.specs.Timelines.{IsTimeline};

use std::marker::Model;
use tuner_theory::SizeEvent;

/// The requests and frees of a run in their order, by size, at most 1,000,000,000. Each free finds a live block of its size. All sizes above
/// `LARGEST_COUNTED` go by the next one.
#[derive(Debug, Drop)]
pub struct Timeline {
    events: Vec<SizeEvent>,
}

impl Model for Timeline {
    ghost use Rattle.std.specs.Prelude.{List};
    ghost use Rattle.history_count.specs.Timelines.Runs.{IsRun};
    ghost use Rattle.tuner_theory.specs.declared.size_event.SizeEvent.{SizeEvent};

    ghost Value = { List SizeEvent };

    ghost view = { λ t. t.events.items };

    ghost invariant = { λ t. IsRun t.events.items };
}

impl Timeline {
    /// The timeline of these events.
    pub(crate) fn new(events: Vec<SizeEvent>) -> Timeline
        requires { IsRun events.items }
        ensures { result ≡ events.items }
    {
        Timeline { events }
    }

    /// The events.
    pub fn events(&self) -> &[SizeEvent]
        ensures events { result.now ≡ self.now }
        ensures timeline { IsTimeline self.now }
    {
        &self.events
    }
}
