//! Which sizes of a timeline are requested.
ghost use Rattle.std.specs.Prelude.{◌≡◌, ◌+◌, ◌<◌, ◌≤◌, IfOk, OnOk, length};
ghost use Rattle.class_table.specs.Sizes.{largest_counted};
ghost use Rattle.history_count.specs.Timelines.Requests.{IsLargestSoFar};
ghost use Rattle.history_count.specs.Timelines.Stretches.{AreLinesBelow, AreRequested, AreSeen};
ghost use Rattle.tuner_theory.specs.Timelines.{IsTimeline};

use crate::timelines::counting::{SIZES, marks};
use crate::timelines::largest::{Largest, NO_LARGEST, with_event};
use crate::timelines::line::LARGE_SIZE;
use crate::timelines::live::event_size;
use std::alloc::{AllocError, Global};
use tuner_theory::SizeEvent;

// a line for each size up to the largest that is counted
const LINES: usize = LARGE_SIZE as usize;

/// The requested sizes that are counted.
#[derive(Debug, Drop)]
pub(crate) struct RequestedSizes {
    /// The sizes, ascending, in bytes.
    pub(crate) sizes: Vec<u32>,
    /// The line of each size: its place among them, if it is one of them.
    pub(crate) lines: Vec<u16>,
    /// The largest of them.
    pub(crate) largest: Largest,
}

/// The requested sizes of a timeline. It goes over the events once. The only error is that the allocator refuses memory.
#[inline(never)]
pub(crate) fn find_requested_sizes(
    alloc: Global,
    events: &[SizeEvent],
) -> Result<RequestedSizes, AllocError>
    requires { IsTimeline events.now }
    ensures { IfOk result (λ requested. AreRequested events.now requested) }
{
    let mut seen = marks(alloc, 0, SIZES)?;
    let mut largest = NO_LARGEST;
    for k in 0..events.len() {
        largest = see_event(&mut seen, events, k, largest);
    }
    let mut requested = RequestedSizes {
        sizes: Vec::new(alloc),
        lines: vec![in alloc; 0u16; LINES]?,
        largest,
    };
    for n in 0..LARGE_SIZE {
        add_size(&seen, n, &mut requested)?;
    }
    Ok(requested)
}

// notes the size of an event, and gives the largest one: where the size was seen before, that stays
#[inline(always)]
fn see_event(seen: &mut [u8], events: &[SizeEvent], k: usize, largest: Largest) -> Largest
    requires timeline { IsTimeline events.now }
    requires event { k < length events.now }
    requires seen { AreSeen events.now k seen.old }
    requires largest { IsLargestSoFar events.now k largest.above largest.moment }
    ensures seen { AreSeen events.now (k + 1) seen.new }
    ensures largest { IsLargestSoFar events.now (k + 1) result.above result.moment }
{
    let n = event_size(events[k]) as usize;
    if seen[n] > 0 {
        return largest;
    }
    seen[n] = 1;
    with_event(events, k, largest)
}

// adds a size, if it was seen
fn add_size(seen: &[u8], n: u16, requested: &mut RequestedSizes) -> Result<(), AllocError>
    requires seen { largest_counted < length seen.now }
    requires size { n ≤ largest_counted }
    requires below { AreLinesBelow seen.now n requested.old.sizes.items requested.old.lines.items }
    ensures below { OnOk result (AreLinesBelow seen.now (n + 1) requested.new.sizes.items requested.new.lines.items) }
    ensures largest { requested.new.largest ≡ requested.old.largest }
{
    if seen[n as usize] > 0 {
        requested.lines[n as usize] = requested.sizes.len() as u16;
        requested.sizes.push(n as u32)?;
    }
    Ok(())
}
