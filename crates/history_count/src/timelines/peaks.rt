//! The most blocks of some sizes that are live at a moment of a timeline. Only those stretches of it are walked in which more may be live
//! than so far.
ghost use Rattle.std.specs.Prelude.{◌≡◌, ◌<◌, ◌≤◌, ◌+◌, ◌⊎◌, if◌then◌else◌, nat_lt, max, length, slice_index, MatchBool};
ghost use Rattle.history_count.specs.Histories.{blocks_from};
ghost use Rattle.history_count.specs.Timelines.LiveBlocks.{IsFirst};
ghost use Rattle.history_count.specs.Timelines.Stretches.{AreInOrder, AreRequested, AreStretches, IsPeakAfter, IsSpan};
ghost use Rattle.tuner_theory.specs.Histories.{most};
ghost use Rattle.tuner_theory.specs.Timelines.{IsTimeline, moments, snapshot_at};

use crate::footprint::{blocks_between, most_between};
use crate::timelines::requested_sizes::RequestedSizes;
use crate::timelines::stretches::Stretches;
use tuner_theory::SizeEvent;

/// Some sizes, from one up to the one before another, and their lines among the requested ones.
#[derive(Clone, Copy)]
pub(crate) struct Span {
    /// The first size, in bytes,
    pub(crate) low: u32,
    /// and the one after the last.
    pub(crate) end: u32,
    /// The first line,
    pub(crate) start: usize,
    /// and the one after the last.
    pub(crate) stop: usize,
}

/// The most blocks that are live at a moment, and the first such moment.
#[derive(Clone, Copy)]
pub(crate) struct Peak {
    /// The most blocks.
    pub(crate) most: u64,
    /// Of how many events the moment comes after.
    pub(crate) first: usize,
}

/// The most blocks of some sizes that are live at a moment.
pub(crate) fn span_peak(
    events: &[SizeEvent],
    requested: &RequestedSizes,
    stretches: &Stretches,
    span: Span,
) -> Peak
    requires timeline { IsTimeline events.now }
    requires requested { AreRequested events.now requested.now }
    requires stretches { AreStretches events.now requested.now.sizes.items stretches.now }
    requires span { IsSpan requested.now.sizes.items span }
    ensures most { result.most ≡ most (blocks_from span.low span.end) (moments events.now) }
    ensures first { IsFirst (blocks_from span.low span.end) events.now (length events.now) result.most result.first }
{
    // Where a stretch begins some blocks are live, so the peak is no less. Any stretch with a moment of so many is walked.
    let reached = most_between(&stretches.before, span.start, span.stop);
    let mut peak = Peak {
        most: reached.saturating_sub(1),
        first: 0,
    };
    for b in 0..stretches.most.len() {
        peak = peak_to_next(events, requested, stretches, b, span, peak);
    }
    peak
}

// the peak up to the end of a stretch
fn peak_to_next(
    events: &[SizeEvent],
    requested: &RequestedSizes,
    stretches: &Stretches,
    b: usize,
    span: Span,
    peak: Peak,
) -> Peak
    requires timeline { IsTimeline events.now }
    requires requested { AreRequested events.now requested.now }
    requires stretches { AreStretches events.now requested.now.sizes.items stretches.now }
    requires stretch { b < length stretches.now.most.items }
    requires span { IsSpan requested.now.sizes.items span }
    ensures { IsPeakAfter (blocks_from span.low span.end) events.now
        (slice_index stretches.now.starts.items b) (slice_index stretches.now.starts.items (b + 1)) peak result }
{
    if blocks_between(&stretches.most[b], span.start, span.stop) <= peak.most {
        return peak;
    }
    let live = blocks_between(&stretches.before[b], span.start, span.stop);
    peak_between(
        events,
        stretches.starts[b],
        stretches.starts[b + 1],
        span,
        live,
        peak,
    )
}

// the peak up to a moment, after that up to an earlier one, at which so many blocks are live
fn peak_between(
    events: &[SizeEvent],
    from: usize,
    to: usize,
    span: Span,
    live: u64,
    peak: Peak,
) -> Peak
    requires timeline { IsTimeline events.now }
    requires order { from ≤ to }
    requires within { to ≤ length events.now }
    requires sizes { AreInOrder span.low span.end }
    requires live { live ≡ blocks_from span.low span.end (snapshot_at events.now from) }
    ensures { IsPeakAfter (blocks_from span.low span.end) events.now from to peak result }
{
    let mut live = live;
    let mut peak = peak;
    for k in from..to {
        live = live_after(events, k, span, live);
        peak = higher(peak, live, k + 1);
    }
    peak
}

// how many blocks of the sizes are live after one event more
#[inline(always)]
fn live_after(events: &[SizeEvent], k: usize, span: Span, live: u64) -> u64
    requires timeline { IsTimeline events.now }
    requires event { k < length events.now }
    requires sizes { AreInOrder span.low span.end }
    requires live { live ≡ blocks_from span.low span.end (snapshot_at events.now k) }
    ensures { result ≡ blocks_from span.low span.end (snapshot_at events.now (k + 1)) }
{
    match events[k] {
        SizeEvent::Request { n } => {
            if is_in(span, n) {
                return live + 1;
            }
        }
        SizeEvent::Free { n } => {
            if is_in(span, n) {
                return live - 1;
            }
        }
    }
    live
}

// whether a size is one of a span
#[inline(always)]
fn is_in(span: Span, n: u16) -> bool
    ensures { MatchBool result ((span.low ≤ n) × (n < span.end)) ((n < span.low) ⊎ (span.end ≤ n)) }
{
    span.low <= n as u32 && (n as u32) < span.end
}

// the peak with one moment more
#[inline(always)]
fn higher(peak: Peak, live: u64, moment: usize) -> Peak
    ensures most { result.most ≡ max peak.most live }
    ensures first { result.first ≡ if nat_lt peak.most live then moment else peak.first }
{
    if peak.most < live {
        Peak {
            most: live,
            first: moment,
        }
    } else {
        peak
    }
}
