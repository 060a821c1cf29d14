//! One pass over a timeline: for each class of a table the most of its blocks that are live at a moment, and which size has no class.
ghost use Rattle.std.specs.Prelude.{◌≡◌, ◌<◌, ◌≤◌, ◌+◌, ◌-◌, ◌*◌, ◌^◌, ◌⊎◌, ℕ, max, All, IfOk, IfSome, IfNone, Some, None, length, nat_lt, replicate, slice_index, slice_set};
ghost use Rattle.class_table.specs.Sizes.{largest_counted};
ghost use Rattle.class_table.specs.Tables.{IsLegalTable, class_number_for};
ghost use Rattle.history_count.specs.Timelines.LiveBlocks.{AreFirsts, AreKnown, AreLive, IsMoved, first_moved, most_blocks, moved_by};
ghost use Rattle.history_count.specs.Timelines.Requests.{IsLeastSoFar};
ghost use Rattle.tuner_theory.specs.Timelines.{IsTimeline};

use crate::timelines::line::LARGE_SIZE;
use crate::timelines::live::{count_after, event_size};
use class_table::{ClassTable, FEWEST_GRANULES, LARGEST_COUNTED, Layout};
use profile_count::no_counts;
use std::alloc::{AllocError, Global};
use tuner_theory::SizeEvent;

/// So many sizes may an event have.
pub(crate) const SIZES: usize = u16::MAX as usize + 1;

/// For each class of a table the most of its blocks that are live at a moment, and the first such moment.
#[derive(Debug, Drop)]
pub(crate) struct ClassPeaks {
    /// The most blocks.
    pub(crate) most: Vec<u32>,
    /// The number of the first moment at which so many are live: of how many events it comes after.
    pub(crate) firsts: Vec<usize>,
    /// The least counted size that is requested and has no class, or `LARGE_SIZE` if there is none.
    pub(crate) least: u16,
}

/// What an event does to the blocks of a class, by its number, where a class has a new block only if none of its own is free.
#[derive(Clone, Copy)]
pub(crate) enum BlockMove {
    /// Its size has no class.
    Nothing,
    /// The class has a new block.
    New(usize),
    /// A freed block is given out again.
    Again(usize),
    /// A block is freed.
    Freed(usize),
}

/// What one event more comes to.
#[derive(Clone, Copy)]
pub(crate) struct EventCount {
    /// The least size without a class so far, or `LARGE_SIZE` if there is none.
    pub(crate) least: u16,
    /// What the event does.
    pub(crate) moved: BlockMove,
}

/// Counts the blocks of each class of a table over a timeline. It goes over the events once. The only error is that the allocator refuses
/// memory.
#[inline(never)]
pub(crate) fn class_peaks(
    alloc: Global,
    events: &[SizeEvent],
    table: &ClassTable,
) -> Result<ClassPeaks, AllocError>
    requires { IsTimeline events.now }
    ensures most { IfOk result (λ peaks. peaks.most.items ≡ most_blocks events.now table.now) }
    ensures small { IfOk result (λ peaks. All (λ count. count ≤ length events.now) peaks.most.items) }
    ensures firsts { IfOk result (λ peaks. AreFirsts events.now table.now peaks.firsts.items) }
    ensures least { IfOk result (λ peaks. IsLeastSoFar events.now table.now (length events.now) peaks.least) }
{
    let mut live = zeros(alloc, table.len())?;
    let mut most = zeros(alloc, table.len())?;
    let mut firsts = no_moments(alloc, table.len())?;
    // any region's layout finds a class at once
    let layout = Layout::new(table, FEWEST_GRANULES);
    let mut known = marks(alloc, UNKNOWN, SIZES)?;
    // no size below this one lacks a class
    let mut least = LARGE_SIZE;
    for k in 0..events.len() {
        let counted = count_event(
            &mut live,
            &mut most,
            &mut firsts,
            &mut known,
            least,
            events,
            k,
            &layout,
        );
        least = counted.least;
    }
    Ok(ClassPeaks {
        most,
        firsts,
        least,
    })
}

/// Counts one event more.
#[inline(always)]
pub(crate) fn count_event(
    live: &mut [u32],
    most: &mut [u32],
    firsts: &mut [usize],
    known: &mut [u8],
    least: u16,
    events: &[SizeEvent],
    k: usize,
    layout: &Layout,
) -> EventCount
    requires timeline { IsTimeline events.now }
    requires event { k < length events.now }
    requires legal { IsLegalTable 1 layout.now.classes }
    requires live { AreLive events.now layout.now.classes k live.old most.old firsts.old }
    requires known { AreKnown layout.now.classes known.old }
    requires least { IsLeastSoFar events.now layout.now.classes k least }
    ensures live { AreLive events.now layout.now.classes (k + 1) live.new most.new firsts.new }
    ensures known { AreKnown layout.now.classes known.new }
    ensures least { IsLeastSoFar events.now layout.now.classes (k + 1) result.least }
    ensures moved { IsMoved result.moved live.old most.old live.new most.new }
{
    let event = events[k];
    let n = event_size(event);
    let Some(number) = known_class(known, layout, n) else {
        return EventCount {
            least: least.min(n),
            moved: BlockMove::Nothing,
        };
    };
    let count = count_after(live[number], event);
    let moved = block_move(event, number, most[number] < count);
    live[number] = count;
    note(most, firsts, number, count, k + 1);
    EventCount { least, moved }
}

// what an event does to the blocks of its class, of which it may make more than there were
#[inline(always)]
fn block_move(event: SizeEvent, number: usize, is_more: bool) -> BlockMove
    ensures { result ≡ moved_by event number is_more }
{
    match event {
        SizeEvent::Free { .. } => BlockMove::Freed(number),
        SizeEvent::Request { .. } if is_more => BlockMove::New(number),
        SizeEvent::Request { .. } => BlockMove::Again(number),
    }
}

/// Where the class of a size is not known.
pub(crate) const UNKNOWN: u8 = u8::MAX;

// the number of the class of a size that is counted; `known` has those that were found before
#[inline(always)]
fn known_class(known: &mut [u8], layout: &Layout, n: u16) -> Option<usize>
    requires legal { IsLegalTable 1 layout.now.classes }
    requires known { AreKnown layout.now.classes known.old }
    ensures known { AreKnown layout.now.classes known.new }
    ensures some { IfSome result (λ number.
        (n ≤ largest_counted) × (class_number_for layout.now.classes n ≡ Some number)
        × (number < length layout.now.classes)) }
    ensures none { IfNone result ((largest_counted < n) ⊎ (class_number_for layout.now.classes n ≡ None)) }
{
    let number = known[n as usize];
    if number != UNKNOWN {
        return Some(usize::from(number));
    }
    let number = counted_class(layout, n)?;
    known[n as usize] = number as u8;
    Some(number)
}

// the number of the class of a size that is counted
fn counted_class(layout: &Layout, n: u16) -> Option<usize>
    ensures some { IfSome result (λ number.
        (n ≤ largest_counted) × (class_number_for layout.now.classes n ≡ Some number)
        × (number < length layout.now.classes)) }
    ensures none { IfNone result ((largest_counted < n) ⊎ (class_number_for layout.now.classes n ≡ None)) }
{
    if n as u32 > LARGEST_COUNTED {
        return None;
    }
    layout.find(n as u32)
}

// notes how many blocks of a class are live at a moment
#[inline(always)]
fn note(most: &mut [u32], firsts: &mut [usize], number: usize, live: u32, moment: usize)
    requires most { number < length most.old }
    requires firsts { number < length firsts.old }
    ensures most { most.new ≡ slice_set most.old number (max (slice_index most.old number) live) }
    ensures firsts { firsts.new ≡ first_moved (slice_index most.old number) live number moment firsts.old }
{
    if most[number] < live {
        most[number] = live;
        firsts[number] = moment;
    }
}

/// This many zeros. The only error is that the allocator refuses memory.
pub(crate) fn zeros(alloc: Global, n: usize) -> Result<Vec<u32>, AllocError>
    ensures { IfOk result (λ counts. counts.items ≡ replicate n 0) }
{
    no_counts(alloc, n)
}

/// The same mark for this many sizes. The only error is that the allocator refuses memory.
pub(crate) fn marks(alloc: Global, mark: u8, sizes: usize) -> Result<Vec<u8>, AllocError>
    ensures { IfOk result (λ marks. marks.items ≡ replicate sizes mark) }
{
    vec![in alloc; mark; sizes]
}

/// This many times the moment before any event. The only error is that the allocator refuses memory.
pub(crate) fn no_moments(alloc: Global, n: usize) -> Result<Vec<usize>, AllocError>
    ensures { IfOk result (λ moments. moments.items ≡ replicate n 0) }
{
    vec![in alloc; 0usize; n]
}
