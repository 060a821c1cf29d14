//! One round: a fit over some moments, and what its table takes over the whole timeline.
ghost use Rattle.std.specs.Prelude.{◌≡◌, ◌<◌, ◌≤◌, ◌⊎◌, IfOk, IsTrue, ◌↔◌, length, All};
ghost use Rattle.potential_check.specs.Certificates.SheetView.{sheet_of};
ghost use Rattle.potential_check.specs.Footprints.CallCounts.{span_count};
ghost use Rattle.class_tuner.specs.Fits.Fitted.{IsFitOf};
ghost use Rattle.class_table.specs.Steps.{IsStep};
ghost use Rattle.class_table.specs.Tables.{IsLegalTable};
ghost use Rattle.history_count.specs.Timelines.LiveBlocks.{AreFirsts};
ghost use Rattle.tuner_theory.specs.Histories.{peaks};
ghost use Rattle.tuner_theory.specs.Served.{served};
ghost use Rattle.tuner_theory.specs.Spans.{places};
ghost use Rattle.tuner_theory.specs.Timelines.{AreMoments, footprint_over, history_at};

use crate::fits::fit;
use class_table::MOST_CLASSES;
use history_count::TimelineIndex;
use potential_check::Fit;
use std::alloc::{AllocError, Global};

/// A fit over some moments.
#[derive(Debug, Drop)]
pub(crate) struct Round {
    /// The fit.
    pub(crate) fit: Fit,
    /// What its table takes over the whole timeline, in bytes.
    pub(crate) takes: u64,
    /// For each of its classes the first moment at which most of its blocks are live.
    pub(crate) firsts: Vec<usize>,
    /// How many costs of spans the fit asked for.
    pub(crate) evaluations: u64,
}

impl Round {
    /// Whether its table takes no more over the whole timeline than over its moments.
    pub(crate) fn is_tight(&self) -> bool
        ensures { IsTrue result ↔ (self.now.takes ≡ self.now.fit.cost) }
    {
        self.takes == self.fit.cost
    }
}

/// The round of some moments. The only error is that the allocator refuses memory.
pub(crate) fn round_over(
    alloc: Global,
    index: &TimelineIndex<'_>,
    numbers: &[usize],
    limit: u8,
    step: u8,
    forced: bool,
) -> Result<Round, AllocError>
    requires some { 1 ≤ limit }
    requires few { limit ≤ MOST_CLASSES }
    requires step { IsStep step }
    requires moments { AreMoments index.now numbers.now }
    ensures fitted { IfOk result (λ round.
        IsFitOf (history_at index.now numbers.now) step limit forced (sheet_of round.fit)) }
    ensures takes { IfOk result (λ round. round.takes ≡ footprint_over index.now round.fit.table) }
    ensures firsts { IfOk result (λ round. AreFirsts index.now round.fit.table round.firsts.items) }
    ensures legal { IfOk result (λ round. IsLegalTable 1 round.fit.table) }
    ensures exact { IfOk result
        (λ round. round.evaluations
        ≡ span_count (places (served forced (peaks (history_at index.now numbers.now))) step)) }
{
    let history = index.history_at(alloc, numbers)?;
    let fitted = fit(alloc, &history, limit, step, forced)?;
    let evaluations = fitted.evaluations();
    let fit = fitted.into_sheet();
    // the call tells the proof that the table is legal
    let _classes = fit.table.len();
    let taken = index.footprint(alloc, &fit.table)?;
    Ok(Round {
        fit,
        takes: taken.bytes,
        firsts: taken.firsts,
        evaluations,
    })
}

/// The one of two rounds whose table takes less, and the first if they take the same.
pub(crate) fn better(one: Round, other: Round) -> Round
    ensures { ((result ≡ one) × (one.takes ≤ other.takes)) ⊎ ((result ≡ other) × (other.takes < one.takes)) }
{
    if other.takes < one.takes { other } else { one }
}
