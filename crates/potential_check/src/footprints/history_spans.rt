ghost use Rattle.std.specs.Prelude.{◌≡◌, ◌+◌, IfOk, refl};
ghost use Rattle.std.proofs.Common.{add-zero, add_assoc, ap, sym};
ghost use Rattle.potential_check.specs.Certificates.Spanned.{IsSpanned};
ghost use Rattle.tuner_theory.specs.Footprint.{footprint_between};
ghost use Rattle.tuner_theory.specs.Histories.{peaks};
ghost use Rattle.tuner_theory.specs.Intervals.{span_cost};
ghost use Rattle.tuner_theory.specs.Profiles.{Covers};
ghost use Rattle.tuner_theory.specs.Spans.{places};

use crate::certificates::Spans;
use crate::footprints::snapshot_sums::SnapshotSums;
use crate::footprints::span_costs::SpanCosts;
use history_count::History;
use std::alloc::{AllocError, Global};

/// The span footprints of a history as a source of costs: what the class of a span's last need takes for the blocks of the span, in bytes.
#[derive(Drop)]
pub struct HistorySpans<'a> {
    sums: SnapshotSums<'a>,
    calls: u64,
}

impl<'a> HistorySpans<'a> {
    /// The span footprints of a history, with no call counted. `spans` must be over the sizes of its peaks, and may be over more. Its step is
    /// theirs.
    /// The only error is that the allocator refuses memory.
    pub fn new(
        alloc: Global,
        history: &'a History,
        spans: &'a Spans<'a>,
    ) -> Result<HistorySpans<'a>, AllocError>
        requires spans { IsSpanned spans.now }
        requires peaks { Covers spans.now.counts (peaks history.now.snapshots) }
        ensures cost { let step = spans.now.step in IfOk result
            (λ s. ⟦<HistorySpans<'a> as SpanCosts>⟧.cost s
            ≡ span_cost (footprint_between history.now.snapshots step) spans.now.counts step) }
        ensures places { IfOk result
            (λ s. ⟦<HistorySpans<'a> as SpanCosts>⟧.place_count s ≡ places spans.now.counts spans.now.step) }
        ensures calls { IfOk result (λ s. ⟦<HistorySpans<'a> as SpanCosts>⟧.call_count s ≡ 0) }
    {
        let sums = SnapshotSums::new(alloc, history, spans)?;
        Ok(HistorySpans { sums, calls: 0 })
    }
}

impl<'a> SpanCosts for HistorySpans<'a> {
    ghost cost = { λ s. let step = s.sums.spans.now.step in
        span_cost (footprint_between s.sums.history.now.snapshots step) s.sums.spans.now.counts step };

    ghost place_count = { λ s. places s.sums.spans.now.counts s.sums.spans.now.step };

    ghost call_count = { λ s. s.calls };

    ghost after_calls = { λ s n. record s { calls = s.calls + n } };

    fn places(&self) -> usize {
        self.sums.places()
    }

    fn calls(&self) -> u64 {
        self.calls
    }

    fn write_from(&mut self, i: usize, costs: &mut [u64]) {
        self.calls += (self.sums.places() - i) as u64;
        self.sums.write_from(i, costs);
    }

    ghost is_small = { λ s. s.sums.small };

    ghost grows = { λ s. s.sums.grows };

    ghost adds_calls = { λ s n. refl };

    ghost keeps_cost = { λ s n. refl };

    ghost keeps_places = { λ s n. refl };

    ghost adds_up = { λ s m n. ap (λ calls. record s { calls = calls }) (add_assoc s.calls m n) };

    ghost adds_none = { λ s. ap (λ calls. record s { calls = calls }) (add-zero s.calls) };
}
