//! The largest of a timeline's requests.
ghost use Rattle.std.specs.Prelude.{◌+◌, ◌<◌, length};
ghost use Rattle.history_count.specs.Timelines.Requests.{IsLargestSoFar};
ghost use Rattle.tuner_theory.specs.Timelines.{IsTimeline};

use crate::timelines::line::LARGE_SIZE;
use crate::timelines::live::event_size;
use tuner_theory::SizeEvent;

/// The largest requested size so far.
#[derive(Clone, Copy, Debug)]
pub(crate) struct Largest {
    /// The size after it, or 0 if there is none.
    pub(crate) above: u16,
    /// The first moment at which it is live.
    pub(crate) moment: usize,
}

/// No requested size.
pub(crate) const NO_LARGEST: Largest = Largest {
    above: 0,
    moment: 0,
};

/// The largest size after one event more.
#[inline(always)]
pub(crate) fn with_event(events: &[SizeEvent], k: usize, found: Largest) -> Largest
    requires timeline { IsTimeline events.now }
    requires event { k < length events.now }
    requires found { IsLargestSoFar events.now k found.above found.moment }
    ensures { IsLargestSoFar events.now (k + 1) result.above result.moment }
{
    // what is freed was requested, so it is below
    let n = event_size(events[k]);
    if n < found.above {
        return found;
    }
    if n >= LARGE_SIZE {
        return found;
    }
    Largest {
        above: n + 1,
        moment: k + 1,
    }
}
