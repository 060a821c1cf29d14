//! An index of a timeline: what a table takes over it, and the history of some of its moments, without a pass over all events.
ghost use Rattle.std.specs.Prelude.{◌≡◌, ◌↔◌, ◌<◌, ◌≤◌, ◌+◌, ◌*◌, ◌^◌, ℕ, IfOk, IsTrue, length, slice_index};
ghost use Rattle.class_table.specs.Sizes.{largest_counted};
ghost use Rattle.history_count.specs.Timelines.LiveBlocks.{AreFirsts};
ghost use Rattle.history_count.specs.Timelines.Requests.{Decides, IsFirstLive, IsLargest};
ghost use Rattle.tuner_theory.specs.Histories.{peaks};
ghost use Rattle.tuner_theory.specs.Timelines.{AreMoments, IsTimeline, footprint_over, history_at, moments, requested};
ghost use Rattle.tuner_theory.specs.Waste.{Serves};

use crate::footprint::line_from;
use crate::history::History;
use crate::timelines::footprint::Footprint;
use crate::timelines::peaks::{Span, span_peak};
use crate::timelines::requested_sizes::{RequestedSizes, find_requested_sizes};
use crate::timelines::stretches::{Stretches, counts_at, stretches_of};
use class_table::{ClassTable, GRANULE_BYTES};
use profile_count::class_end;
use std::alloc::{AllocError, Global};
use std::marker::Model;
use tuner_theory::SizeEvent;

/// An index of a timeline: which sizes are requested, and for each stretch of so many events how many blocks of each size are live before it
/// and the most that are live within it.
#[derive(Debug, Drop)]
pub struct TimelineIndex<'a> {
    events: &'a [SizeEvent],
    requested: RequestedSizes,
    stretches: Stretches,
}

impl<'a> Model for TimelineIndex<'a> {
    ghost use Rattle.std.specs.Prelude.{List};
    ghost use Rattle.history_count.specs.Timelines.Stretches.{IsIndex};
    ghost use Rattle.tuner_theory.specs.declared.size_event.SizeEvent.{SizeEvent};

    ghost Value = { List SizeEvent };

    ghost view = { λ i. i.events.now };

    ghost invariant = { λ i. IsIndex i.events.now i.requested i.stretches };
}

impl<'a> TimelineIndex<'a> {
    /// The index of a timeline. It goes over the events twice. The only error is that the allocator refuses memory.
    pub fn new(alloc: Global, events: &'a [SizeEvent]) -> Result<TimelineIndex<'a>, AllocError>
        requires { IsTimeline events.now }
        ensures { IfOk result (λ index. index ≡ events.now) }
    {
        let requested = find_requested_sizes(alloc, events)?;
        let stretches = stretches_of(alloc, events, &requested)?;
        Ok(TimelineIndex {
            events,
            requested,
            stretches,
        })
    }

    /// The events.
    pub fn events(&self) -> &[SizeEvent]
        ensures events { result.now ≡ self.now }
        ensures timeline { IsTimeline self.now }
    {
        self.events
    }

    /// A moment of the timeline that decides whether a table serves it: a table that serves a history with this moment serves the timeline.
    /// It is the first at which a block of the largest requested size is live, of those that are counted; 0 if none is requested.
    pub fn largest_moment(&self) -> usize
        ensures within { result ≤ length self.now }
        ensures decides { Decides self.now result }
        ensures first { (n : ℕ) → IsLargest self.now n → IsFirstLive self.now n result }
        ensures none { ((n : ℕ) → n ≤ largest_counted → requested self.now n ≡ 0) → result ≡ 0 }
    {
        self.requested.largest.moment
    }

    /// Whether a table has a class for each counted size that is requested.
    pub fn serves(&self, table: &ClassTable) -> bool
        ensures { IsTrue result ↔ Serves (peaks (moments self.now)) table.now }
    {
        let above = self.requested.largest.above;
        if above == 0 {
            return true;
        }
        table.find(u32::from(above - 1)).is_some()
    }

    /// The history of some moments of the timeline, each by its number: of how many events it comes after. It goes over the events from the
    /// start of a moment's stretch. The only error is that the allocator refuses memory.
    pub fn history_at(&self, alloc: Global, numbers: &[usize]) -> Result<History, AllocError>
        requires { AreMoments self.now numbers.now }
        ensures { IfOk result (λ history. history.snapshots ≡ history_at self.now numbers.now) }
    {
        let mut rows = Vec::with_capacity(alloc, numbers.len())?;
        for i in 0..numbers.len() {
            let row = counts_at(
                alloc,
                self.events,
                &self.requested,
                &self.stretches,
                numbers[i],
            )?;
            rows.push(row)?;
        }
        History::of_rows(alloc, &self.requested.sizes, rows)
    }

    /// What a table takes over the timeline. It goes over only those stretches in which a class may have its most blocks. The only error is
    /// that the allocator refuses memory.
    pub fn footprint(&self, alloc: Global, table: &ClassTable) -> Result<Footprint, AllocError>
        ensures bytes { IfOk result (λ taken. taken.bytes ≡ footprint_over self.now table.now) }
        ensures small { IfOk result (λ taken. taken.bytes < 2 ^ 58) }
        ensures firsts { IfOk result (λ taken. AreFirsts self.now table.now taken.firsts.items) }
    {
        let mut taken = Footprint {
            bytes: 0,
            firsts: Vec::with_capacity(alloc, table.len())?,
        };
        let mut low = 0;
        let mut start = 0;
        for number in 0..table.len() {
            let class = table.class(number);
            let end = class_end(class);
            let stop = line_from(&self.requested.sizes, start, end);
            let span = Span {
                low,
                end,
                start,
                stop,
            };
            let peak = span_peak(self.events, &self.requested, &self.stretches, span);
            taken.bytes += u64::from(GRANULE_BYTES * u32::from(class)) * peak.most;
            taken.firsts.push(peak.first)?;
            low = end;
            start = stop;
        }
        Ok(taken)
    }
}
