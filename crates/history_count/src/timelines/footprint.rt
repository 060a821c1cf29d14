//! What a table takes over a timeline, and whether it serves it.
ghost use Rattle.std.specs.Prelude.{◌≡◌, ◌<◌, ◌≤◌, ◌+◌, ◌*◌, ◌^◌, ℕ, IfNone, IfOk, IfSome, length, slice_index};
ghost use Rattle.class_table.specs.Sizes.{largest_counted};
ghost use Rattle.history_count.specs.Timelines.LiveBlocks.{AreFirsts};
ghost use Rattle.history_count.specs.Timelines.Requests.{IsLeastUnserved};
ghost use Rattle.tuner_theory.specs.Histories.{peaks};
ghost use Rattle.tuner_theory.specs.Timelines.{IsTimeline, footprint_over, moments};
ghost use Rattle.tuner_theory.specs.Waste.{Serves};

use crate::timelines::counting::class_peaks;
use crate::timelines::line::LARGE_SIZE;
use class_table::{ClassTable, GRANULE_BYTES};
use std::alloc::{AllocError, Global};
use tuner_theory::SizeEvent;

/// What a table takes over a timeline, and when.
#[derive(Debug, Drop)]
pub struct Footprint {
    /// The bytes: for each class, its block size times the most of its blocks that are live at a moment.
    pub bytes: u64,
    /// For each class the first moment at which so many of its blocks are live.
    pub firsts: Vec<usize>,
}

/// Whether a table serves a timeline, and what it takes over it.
#[derive(Debug, Drop)]
pub struct MeasuredTable {
    /// The least counted size that is requested and has no class in the table. `None` if the table serves the timeline.
    pub unserved: Option<u32>,
    /// What the table takes.
    pub footprint: Footprint,
}

/// Whether a table serves a timeline, and what it takes over it. It goes over the events once. The only error is that the allocator refuses
/// memory.
pub fn measure_over(
    alloc: Global,
    events: &[SizeEvent],
    table: &ClassTable,
) -> Result<MeasuredTable, AllocError>
    requires { IsTimeline events.now }
    ensures bytes { IfOk result (λ measured. measured.footprint.bytes ≡ footprint_over events.now table.now) }
    ensures small { IfOk result (λ measured. measured.footprint.bytes < 2 ^ 58) }
    ensures firsts { IfOk result (λ measured. AreFirsts events.now table.now measured.footprint.firsts.items) }
    ensures some { IfOk result (λ measured. IfSome measured.unserved (λ n. IsLeastUnserved events.now table.now n)) }
    ensures none { IfOk result (λ measured. IfNone measured.unserved (Serves (peaks (moments events.now)) table.now)) }
{
    let peaks = class_peaks(alloc, events, table)?;
    let mut total = 0;
    for number in 0..table.len() {
        let block_bytes = u64::from(GRANULE_BYTES * u32::from(table.class(number)));
        total += block_bytes * u64::from(peaks.most[number]);
    }
    Ok(MeasuredTable {
        unserved: unserved_size(peaks.least),
        footprint: Footprint {
            bytes: total,
            firsts: peaks.firsts,
        },
    })
}

/// The least size without a class, if there is one.
pub(crate) fn unserved_size(least: u16) -> Option<u32>
    ensures some { IfSome result (λ n. (n ≡ least) × (n ≤ largest_counted)) }
    ensures none { IfNone result (largest_counted < least) }
{
    if least >= LARGE_SIZE {
        return None;
    }
    Some(u32::from(least))
}
