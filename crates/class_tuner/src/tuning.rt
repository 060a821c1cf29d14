ghost use Rattle.std.specs.Prelude.{◌≡◌, ◌<◌, ◌≤◌, IfOk};
ghost use Rattle.class_tuner.specs.CallCounts.{most_calls};
ghost use Rattle.class_tuner.specs.Tuned.{AreEvaluations, IsTuned, IsTunedOver};
ghost use Rattle.potential_check.specs.Certificates.SheetView.{sheet_of};
ghost use Rattle.tuner_theory.specs.Served.{served};
ghost use Rattle.tuner_theory.specs.Spans.{places};
ghost use Rattle.class_table.specs.Steps.{IsStep};

use crate::cost_source::CostSource;
use crate::costs::Costs;
use crate::read_off::certificate_of_rows;
use crate::row_filling::fill_rows;
use crate::tuner_result::TunerResult;
use class_table::MOST_CLASSES;
use potential_check::{OfWaste, Spans};
use profile_count::Profile;
use std::alloc::{AllocError, Global};

/// The result of `tune`.
pub type TuneResult = TunerResult<OfWaste>;

/// The class table of least waste for a profile, of at most `limit` (1 to 32) classes that are multiples of `step` (1, 2, 4 or 8 granules),
/// with its certificate. If `forced`, it is one of those that have the largest class, and so serve each size that any table can. Of the best
/// tables whose every class is used, it is the lexicographically least. The only error is that the allocator refuses memory.
pub fn tune(
    alloc: Global,
    profile: &Profile,
    limit: u8,
    step: u8,
    forced: bool,
) -> Result<TuneResult, AllocError>
    requires some { 1 ≤ limit }
    requires few { limit ≤ MOST_CLASSES }
    requires step { IsStep step }

    // the canonical table, its waste, and as its certificate the least wastes of the requests above each place
    ensures tuned { IfOk result (λ tuned. IsTuned profile.now.counts step limit forced (sheet_of tuned.sheet)) }
    // how often the span wastes were asked for, and the most that it can be
    ensures exact { IfOk result
        (λ tuned. AreEvaluations (served forced profile.now.counts) step limit tuned.sheet.rows tuned.evaluations) }
    ensures bounded { IfOk result
        (λ tuned. tuned.evaluations ≤ most_calls limit (places (served forced profile.now.counts) step)) }
{
    if forced {
        let sizes = profile.with_largest(alloc)?;
        return tune_over(alloc, &sizes, limit, step, true);
    }
    tune_over(alloc, profile, limit, step, false)
}

// the sheet of a profile whose sizes are all that have to be served
fn tune_over(
    alloc: Global,
    profile: &Profile,
    limit: u8,
    step: u8,
    forced: bool,
) -> Result<TuneResult, AllocError>
    requires some { 1 ≤ limit }
    requires few { limit ≤ MOST_CLASSES }
    requires step { IsStep step }
    ensures tuned { IfOk result
        (λ tuned. IsTunedOver profile.now.counts step limit forced (sheet_of tuned.sheet)) }
    ensures exact { IfOk result
        (λ tuned. AreEvaluations profile.now.counts step limit tuned.sheet.rows tuned.evaluations) }
    ensures bounded { IfOk result (λ tuned. tuned.evaluations ≤ most_calls limit (places profile.now.counts step)) }
{
    let spans = Spans::new(alloc, profile, step)?;
    let mut costs = Costs::over(spans);
    let filled = fill_rows(alloc, &mut costs, limit)?;
    let evaluations = costs.calls();
    let sheet = certificate_of_rows(costs.spans(), filled, limit, forced);
    Ok(TunerResult::new(sheet, evaluations))
}
