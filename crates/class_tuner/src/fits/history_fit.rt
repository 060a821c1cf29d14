ghost use Rattle.std.specs.Prelude.{◌≡◌, ◌≤◌, IfOk};
ghost use Rattle.class_table.specs.Steps.{IsStep};
ghost use Rattle.class_tuner.specs.Fits.Fitted.{IsFitOf};
ghost use Rattle.potential_check.specs.Footprints.CallCounts.{span_count};
ghost use Rattle.potential_check.specs.Certificates.SheetView.{sheet_of};
ghost use Rattle.tuner_theory.specs.Histories.{peaks};
ghost use Rattle.tuner_theory.specs.Served.{served};
ghost use Rattle.tuner_theory.specs.Spans.{places};

use crate::fits::place_filling::fill_places;
use crate::read_off::certificate_of_rows;
use crate::tuner_result::TunerResult;
use class_table::MOST_CLASSES;
use history_count::History;
use potential_check::{HistorySpans, OfFootprint, SpanCosts, Spans};
use profile_count::Profile;
use std::alloc::{AllocError, Global};

/// The result of `fit`.
pub type FitResult = TunerResult<OfFootprint>;

/// The class table of least footprint for a history, of at most `limit` (1 to 32) classes that are multiples of `step` (1, 2, 4 or 8
/// granules), with its certificate. If `forced`, it is one of those that have the largest class, and so serve each size that any table can. Of
/// the tables of least footprint whose every class is used, it is the lexicographically least. The only error is that the allocator refuses
/// memory.
pub fn fit(
    alloc: Global,
    history: &History,
    limit: u8,
    step: u8,
    forced: bool,
) -> Result<FitResult, AllocError>
    requires some { 1 ≤ limit }
    requires few { limit ≤ MOST_CLASSES }
    requires step { IsStep step }

    // the fitted table, its footprint, and as its certificate the rows of least values
    ensures fitted { IfOk result (λ fitted. IsFitOf history.now.snapshots step limit forced (sheet_of fitted.sheet)) }
    // the footprint of each span was asked for once
    ensures exact { IfOk result
        (λ fitted. fitted.evaluations ≡ span_count (places (served forced (peaks history.now.snapshots)) step)) }
{
    if forced {
        let sizes = history.peaks().with_largest(alloc)?;
        return fit_over_sizes(alloc, history, &sizes, limit, step, true);
    }
    fit_over_sizes(alloc, history, history.peaks(), limit, step, false)
}

// the fit, with a profile of the sizes that have to be served
fn fit_over_sizes(
    alloc: Global,
    history: &History,
    sizes: &Profile,
    limit: u8,
    step: u8,
    forced: bool,
) -> Result<FitResult, AllocError>
    requires some { 1 ≤ limit }
    requires few { limit ≤ MOST_CLASSES }
    requires step { IsStep step }
    requires sizes { sizes.now.counts ≡ served forced (peaks history.now.snapshots) }
    ensures fitted { IfOk result
        (λ fitted. IsFitOf history.now.snapshots step limit forced (sheet_of fitted.sheet)) }
    ensures exact { IfOk result
        (λ fitted. fitted.evaluations ≡ span_count (places (served forced (peaks history.now.snapshots)) step)) }
{
    // the call tells the proof that it is a history
    let _peaks = history.peaks();
    let spans = Spans::new(alloc, sizes, step)?;
    let mut costs = HistorySpans::new(alloc, history, &spans)?;
    let filled = fill_places(alloc, &mut costs, limit)?;
    let evaluations = costs.calls();
    let sheet = certificate_of_rows(&spans, filled, limit, forced);
    Ok(TunerResult::new(sheet, evaluations))
}
