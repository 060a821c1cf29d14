//! What the blocks of a table come to over a timeline, all classes together, beside the most of each class.
ghost use Rattle.std.specs.Prelude.{◌≡◌, ◌<◌, ◌≤◌, ◌*◌, IfNone, IfOk, IfSome, length, slice_index};
ghost use Rattle.history_count.specs.Timelines.LiveBlocks.{AreFirsts, most_blocks};
ghost use Rattle.history_count.specs.Timelines.Requests.{IsLeastUnserved};
ghost use Rattle.history_count.specs.Timelines.TablePeaks.{AreSmall, MayMove, live_bytes, most_freed, moved_sums, sums_after};
ghost use Rattle.tuner_theory.specs.Histories.{most, peaks};
ghost use Rattle.tuner_theory.specs.Timelines.{IsTimeline, moments};
ghost use Rattle.tuner_theory.specs.Waste.{Serves};

use crate::timelines::counting::{
    BlockMove, SIZES, UNKNOWN, count_event, marks, no_moments, zeros,
};
use crate::timelines::footprint::unserved_size;
use crate::timelines::line::LARGE_SIZE;
use class_table::{ClassTable, FEWEST_GRANULES, GRANULE_BYTES, Layout};
use std::alloc::{AllocError, Global};
use tuner_theory::SizeEvent;

/// What the blocks of a table come to over a timeline.
#[derive(Debug, Drop)]
pub struct TablePeaks {
    /// The least counted size that is requested and has no class in the table. `None` if the table serves the timeline.
    pub unserved: Option<u32>,
    /// For each class the most of its blocks that are live at a moment.
    pub most: Vec<u32>,
    /// For each class the number of the first moment at which so many are live: of how many events it comes after.
    pub firsts: Vec<usize>,
    /// The most bytes of all live blocks together at a moment.
    pub most_bytes: u64,
    /// The most blocks, of all classes together, that at a moment are freed and not given out again, where a class has a new block only if
    /// none of its own is free.
    pub most_freed: u64,
}

/// Sums over the classes of a table.
#[derive(Clone, Copy)]
pub(crate) struct Sums {
    // the blocks that there are, those that are live, and the bytes of these
    made: u64,
    live: u64,
    bytes: u64,
    // the most bytes of live blocks and the most freed blocks so far
    most_bytes: u64,
    most_freed: u64,
}

const NOTHING: Sums = Sums {
    made: 0,
    live: 0,
    bytes: 0,
    most_bytes: 0,
    most_freed: 0,
};

/// What the blocks of a table come to over a timeline. A size that no class serves counts for nothing. It goes over the events once. The only
/// error is that the allocator refuses memory.
#[inline(never)]
pub fn table_peaks(
    alloc: Global,
    events: &[SizeEvent],
    table: &ClassTable,
) -> Result<TablePeaks, AllocError>
    requires { IsTimeline events.now }
    ensures most { IfOk result (λ found. found.most.items ≡ most_blocks events.now table.now) }
    ensures firsts { IfOk result (λ found. AreFirsts events.now table.now found.firsts.items) }
    ensures bytes { IfOk result (λ found. found.most_bytes ≡ most (live_bytes table.now) (moments events.now)) }
    ensures freed { IfOk result (λ found. found.most_freed ≡ most_freed events.now table.now) }
    ensures some { IfOk result (λ found. IfSome found.unserved (λ n. IsLeastUnserved events.now table.now n)) }
    ensures none { IfOk result (λ found. IfNone found.unserved (Serves (peaks (moments events.now)) table.now)) }
{
    let mut live = zeros(alloc, table.len())?;
    let mut most = zeros(alloc, table.len())?;
    let mut firsts = no_moments(alloc, table.len())?;
    let layout = Layout::new(table, FEWEST_GRANULES);
    let mut known = marks(alloc, UNKNOWN, SIZES)?;
    let mut least = LARGE_SIZE;
    let mut sums = NOTHING;
    for k in 0..events.len() {
        let counted = count_event(
            &mut live,
            &mut most,
            &mut firsts,
            &mut known,
            least,
            events,
            k,
            &layout,
        );
        least = counted.least;
        sums = moved_sums(sums, counted.moved, table);
    }
    Ok(TablePeaks {
        unserved: unserved_size(least),
        most,
        firsts,
        most_bytes: sums.most_bytes,
        most_freed: sums.most_freed,
    })
}

// the sums after an event that did this to the blocks of its class
#[inline(always)]
fn moved_sums(sums: Sums, moved: BlockMove, table: &ClassTable) -> Sums
    requires small { AreSmall sums }
    requires moved { MayMove table.now sums moved }
    ensures { result ≡ moved_sums table.now sums moved }
{
    match moved {
        BlockMove::Nothing => sums_after(sums, sums.made, sums.live, sums.bytes),
        BlockMove::New(number) => {
            let bytes = sums.bytes + block_bytes(table, number);
            sums_after(sums, sums.made + 1, sums.live + 1, bytes)
        }
        BlockMove::Again(number) => {
            let bytes = sums.bytes + block_bytes(table, number);
            sums_after(sums, sums.made, sums.live + 1, bytes)
        }
        BlockMove::Freed(number) => {
            let bytes = sums.bytes - block_bytes(table, number);
            sums_after(sums, sums.made, sums.live - 1, bytes)
        }
    }
}

// the sums with these blocks and bytes after them
#[inline(always)]
fn sums_after(sums: Sums, made: u64, live: u64, bytes: u64) -> Sums
    requires { live ≤ made }
    ensures { result ≡ sums_after sums made live bytes }
{
    Sums {
        made,
        live,
        bytes,
        most_bytes: sums.most_bytes.max(bytes),
        most_freed: sums.most_freed.max(made - live),
    }
}

// the bytes of a block of the class of this number
#[inline(always)]
fn block_bytes(table: &ClassTable, number: usize) -> u64
    requires { number < length table.now }
    ensures bytes { result ≡ 16 * slice_index table.now number }
    ensures small { result ≤ 16384 }
{
    u64::from(GRANULE_BYTES * u32::from(table.class(number)))
}
