//! How many blocks of each size are live while a timeline is read.
ghost use Rattle.std.specs.Prelude.{◌≡◌, ◌≤◌, ◌++◌, [], ◌∷◌, ℕ, ◌<◌, length, IfOk, IfSome};
ghost use Rattle.std.specs.Bool.{OnTrue};
ghost use Rattle.history_count.specs.Timelines.Runs.{AreLiveCounts, after_event, large_size, lowered, may_come, raised, size_of};
ghost use Rattle.history_count.specs.Timelines.TimelineText.{finds_live, may_follow};

use crate::timelines::fault::TimelineFault;
use crate::timelines::line::LARGE_SIZE;
use tuner_theory::{GREATEST_COUNT, SizeEvent};

/// How many sizes are counted while a timeline is read: one for all larger ones.
pub(crate) const SIZES: usize = LARGE_SIZE as usize + 1;

/// The size of an event.
#[inline(always)]
pub(crate) fn event_size(event: SizeEvent) -> u16
    ensures { result ≡ size_of event }
{
    match event {
        SizeEvent::Request { n } => n,
        SizeEvent::Free { n } => n,
    }
}

/// A count after an event of its size. No jump depends on the kind of the event, which a processor cannot foresee.
#[inline(always)]
pub(crate) fn count_after(count: u32, event: SizeEvent) -> u32
    requires few { count ≤ GREATEST_COUNT }
    requires live { may_come event count }
    ensures { result ≡ after_event event count }
{
    match event {
        SizeEvent::Request { .. } => count + 1,
        SizeEvent::Free { .. } => count - 1,
    }
}

// a count before a free, and one that a request raises
#[inline(always)]
fn raise_count(event: SizeEvent, count: u32) -> u32
    requires { count ≤ GREATEST_COUNT }
    ensures { result ≡ raised event count }
{
    match event {
        SizeEvent::Request { .. } => count + 1,
        SizeEvent::Free { .. } => count,
    }
}

// the same count after the event
#[inline(always)]
fn lower_count(event: SizeEvent, count: u32) -> u32
    requires { 0 < count }
    ensures { result ≡ lowered event count }
{
    match event {
        SizeEvent::Request { .. } => count,
        SizeEvent::Free { .. } => count - 1,
    }
}

/// What a line's event, or that it spells none, adds to the events before it. `live` has the counts after these, and then after the event too.
pub(crate) fn admit_event(
    events: &[SizeEvent],
    live: &mut [u32],
    spelled: Option<SizeEvent>,
) -> Result<SizeEvent, TimelineFault>
    requires live { AreLiveCounts events.now live.old }
    requires size { IfSome spelled (λ event. size_of event ≤ large_size) }
    ensures event { result ≡ may_follow events.now spelled }
    ensures live { IfOk result (λ event. AreLiveCounts (events.now ++ event ∷ []) live.new) }
{
    let Some(event) = spelled else {
        return Err(TimelineFault::BadTimeline);
    };
    if events.len() >= GREATEST_COUNT as usize {
        return Err(TimelineFault::BadTimeline);
    }
    if !count(events, live, event) {
        return Err(TimelineFault::NotLive);
    }
    Ok(event)
}

/// Counts an event; false if it frees a block of a size of which none is live.
#[inline(always)]
pub(crate) fn count(events: &[SizeEvent], live: &mut [u32], event: SizeEvent) -> bool
    requires live { AreLiveCounts events.now live.old }
    requires size { size_of event ≤ large_size }
    requires few { length events.now < GREATEST_COUNT }
    ensures found { result ≡ finds_live events.now event }
    ensures live { OnTrue result (AreLiveCounts (events.now ++ event ∷ []) live.new) }
{
    let n = event_size(event) as usize;
    let most = raise_count(event, live[n]);
    if most == 0 {
        return false;
    }
    live[n] = lower_count(event, most);
    true
}
