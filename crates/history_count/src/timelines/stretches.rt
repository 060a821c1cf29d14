//! A timeline by stretches of so many events: how many blocks of each size are live before each, and the most that are live within it.
ghost use Rattle.std.specs.Prelude.{◌≡◌, ◌+◌, ◌<◌, ◌≤◌, ◌++◌, ℕ, [], ◌∷◌, max, Some, IfOk, IfSome, OnOk, length, slice_index};
ghost use Rattle.history_count.specs.Timelines.Stretches.{AreRequested, AreStretches, Bounds, column_of};
ghost use Rattle.tuner_theory.specs.Lists.{lists_of};
ghost use Rattle.tuner_theory.specs.Timelines.{IsTimeline, snapshot_at};

use crate::timelines::counting::zeros;
use crate::timelines::line::LARGE_SIZE;
use crate::timelines::live::{count_after, event_size};
use crate::timelines::requested_sizes::RequestedSizes;
use std::alloc::{AllocError, Global};
use tuner_theory::SizeEvent;

// a stretch has at least so many events,
const LEAST_STRETCH: usize = 1024;

// and so many for each size, so that the rows of counts take no more than a quarter of the memory of the events
const EVENTS_FOR_SIZE: usize = 8;

/// The stretches of a timeline.
#[derive(Debug, Drop)]
pub(crate) struct Stretches {
    /// After how many events each begins, and the last one ends.
    pub(crate) starts: Vec<usize>,
    /// How many blocks of each requested size are live at these moments.
    pub(crate) before: Vec<Vec<u32>>,
    /// For each stretch and each requested size a count that no moment of the stretch is above.
    pub(crate) most: Vec<Vec<u32>>,
}

/// The stretches of a timeline. It goes over the events once. The only error is that the allocator refuses memory.
pub(crate) fn stretches_of(
    alloc: Global,
    events: &[SizeEvent],
    requested: &RequestedSizes,
) -> Result<Stretches, AllocError>
    requires timeline { IsTimeline events.now }
    requires requested { AreRequested events.now requested.now }
    ensures { IfOk result (λ stretches. AreStretches events.now requested.now.sizes.items stretches) }
{
    let stretch = LEAST_STRETCH.max(EVENTS_FOR_SIZE * requested.sizes.len());
    let mut counts = zeros(alloc, requested.sizes.len())?;
    let mut stretches = no_stretches(alloc, &counts)?;
    let mut from = 0;
    while from < events.len() {
        let to = stretch_end(from, stretch, events.len());
        let mut most = Vec::from_slice(alloc, &counts)?;
        count_stretch(&mut counts, &mut most, events, from, to, requested);
        add_stretch(alloc, &mut stretches, to, &counts, most)?;
        from = to;
    }
    Ok(stretches)
}

// the end of a stretch of so many events, or of all where fewer are left
fn stretch_end(from: usize, stretch: usize, all: usize) -> usize
    requires some { from < all }
    requires positive { 0 < stretch }
    ensures after { from < result }
    ensures within { result ≤ all }
{
    if stretch < all - from {
        from + stretch
    } else {
        all
    }
}

// no stretch, and the counts before the first event
fn no_stretches(alloc: Global, counts: &[u32]) -> Result<Stretches, AllocError>
    ensures starts { IfOk result (λ stretches. stretches.starts.items ≡ 0 ∷ []) }
    ensures before { IfOk result (λ stretches. lists_of stretches.before.items ≡ counts.now ∷ []) }
    ensures most { IfOk result (λ stretches. stretches.most.items ≡ []) }
{
    let mut starts = Vec::new(alloc);
    starts.push(0)?;
    let mut before = Vec::new(alloc);
    push_copy(alloc, &mut before, counts)?;
    Ok(Stretches {
        starts,
        before,
        most: Vec::new(alloc),
    })
}

// adds a stretch by its end, the counts there, and the most within it
fn add_stretch(
    alloc: Global,
    stretches: &mut Stretches,
    to: usize,
    counts: &[u32],
    most: Vec<u32>,
) -> Result<(), AllocError>
    ensures starts { OnOk result (stretches.new.starts.items ≡ stretches.old.starts.items ++ to ∷ []) }
    ensures before { OnOk result
        (lists_of stretches.new.before.items ≡ lists_of stretches.old.before.items ++ counts.now ∷ []) }
    ensures most { OnOk result
        (lists_of stretches.new.most.items ≡ lists_of stretches.old.most.items ++ most.items ∷ []) }
{
    stretches.starts.push(to)?;
    push_copy(alloc, &mut stretches.before, counts)?;
    stretches.most.push(most)?;
    Ok(())
}

// counts the events of a stretch
#[inline(never)]
fn count_stretch(
    counts: &mut [u32],
    most: &mut [u32],
    events: &[SizeEvent],
    from: usize,
    to: usize,
    requested: &RequestedSizes,
)
    requires timeline { IsTimeline events.now }
    requires requested { AreRequested events.now requested.now }
    requires order { from ≤ to }
    requires within { to ≤ length events.now }
    requires counts { counts.old ≡ column_of requested.now.sizes.items (snapshot_at events.now from) }
    requires most { most.old ≡ counts.old }
    ensures counts { counts.new ≡ column_of requested.now.sizes.items (snapshot_at events.now to) }
    ensures most { Bounds events.now requested.now.sizes.items from to most.new }
{
    for k in from..to {
        count_most(counts, most, events, k, requested);
    }
}

// counts one event more by the line of its size, and the most of each line
#[inline(always)]
fn count_most(
    counts: &mut [u32],
    most: &mut [u32],
    events: &[SizeEvent],
    k: usize,
    requested: &RequestedSizes,
)
    requires timeline { IsTimeline events.now }
    requires requested { AreRequested events.now requested.now }
    requires event { k < length events.now }
    requires counts { counts.old ≡ column_of requested.now.sizes.items (snapshot_at events.now k) }
    requires most { length most.old ≡ length requested.now.sizes.items }
    requires below { (j : ℕ) → slice_index counts.old j ≤ slice_index most.old j }
    ensures counts { counts.new ≡ column_of requested.now.sizes.items (snapshot_at events.now (k + 1)) }
    ensures most { (j : ℕ) → slice_index most.new j ≡ max (slice_index most.old j) (slice_index counts.new j) }
{
    if let Some(line) = count_line(counts, events, k, requested) {
        most[line] = most[line].max(counts[line]);
    }
}

// counts one event more by the line of its size; gives this line, the only one whose count may be raised
#[inline(always)]
fn count_line(
    counts: &mut [u32],
    events: &[SizeEvent],
    k: usize,
    requested: &RequestedSizes,
) -> Option<usize>
    requires timeline { IsTimeline events.now }
    requires requested { AreRequested events.now requested.now }
    requires event { k < length events.now }
    requires counts { counts.old ≡ column_of requested.now.sizes.items (snapshot_at events.now k) }
    ensures counts { counts.new ≡ column_of requested.now.sizes.items (snapshot_at events.now (k + 1)) }
    ensures line { IfSome result (λ line. line < length requested.now.sizes.items) }
    ensures others { (j : ℕ) → (result ≡ Some j → ⊥) → slice_index counts.new j ≤ slice_index counts.old j }
{
    let event = events[k];
    let n = event_size(event);
    if n >= LARGE_SIZE {
        return None;
    }
    let line = requested.lines[n as usize] as usize;
    counts[line] = count_after(counts[line], event);
    Some(line)
}

/// How many blocks of each requested size are live at a moment. It goes over the events from the last start of a stretch before it. The only
/// error is that the allocator refuses memory.
pub(crate) fn counts_at(
    alloc: Global,
    events: &[SizeEvent],
    requested: &RequestedSizes,
    stretches: &Stretches,
    moment: usize,
) -> Result<Vec<u32>, AllocError>
    requires timeline { IsTimeline events.now }
    requires requested { AreRequested events.now requested.now }
    requires stretches { AreStretches events.now requested.now.sizes.items stretches.now }
    requires moment { moment ≤ length events.now }
    ensures { IfOk result
        (λ counts. counts.items ≡ column_of requested.now.sizes.items (snapshot_at events.now moment)) }
{
    let b = last_start(&stretches.starts, moment);
    let mut counts = Vec::from_slice(alloc, &stretches.before[b])?;
    for k in stretches.starts[b]..moment {
        let _line = count_line(&mut counts, events, k, requested);
    }
    Ok(counts)
}

// the last start that is not after a moment
fn last_start(starts: &[usize], moment: usize) -> usize
    requires some { 0 < length starts.now }
    requires first { slice_index starts.now 0 ≡ 0 }
    ensures within { result < length starts.now }
    ensures before { slice_index starts.now result ≤ moment }
{
    let mut b = starts.len() - 1;
    while starts[b] > moment {
        b -= 1;
    }
    b
}

// adds a copy of the counts
fn push_copy(alloc: Global, rows: &mut Vec<Vec<u32>>, counts: &[u32]) -> Result<(), AllocError>
    ensures { OnOk result (lists_of rows.new.items ≡ lists_of rows.old.items ++ counts.now ∷ []) }
{
    rows.push(Vec::from_slice(alloc, counts)?)?;
    Ok(())
}
