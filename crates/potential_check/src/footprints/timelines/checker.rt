//! The checker. It trusts nobody: it takes the snapshots at the moments that a fit names out of the timeline itself.
ghost use Rattle.std.specs.Prelude.{◌≡◌, ◌↔◌, ◌≤◌, IfOk, IsTrue, All, length};
ghost use Rattle.potential_check.specs.Certificates.SheetView.{sheet_of};
ghost use Rattle.potential_check.specs.Footprints.Timelines.Verdicts.{IsOverVerdict};
ghost use Rattle.potential_check.specs.declared.footprints.timelines.verdict.OverVerdict.TheVariants.{Optimal};
ghost use Rattle.tuner_theory.specs.Timelines.{AreMoments, IsLeastOver};

use crate::certificates::Fit;
use crate::footprints::check_fit;
use crate::footprints::timelines::verdict::{OverRefusal, OverVerdict};
use history_count::{MOST_SNAPSHOTS, Timeline, TimelineIndex};
use std::alloc::{AllocError, Global};
use tuner_theory::{Refusal, SizeEvent, Verdict};

/// The verdict on a fit over a timeline, whoever wrote it and whatever it and the numbers of its moments are: optimal, or the first refusal
/// that holds. The table of an optimal fit has the least footprint over every moment: no table of at most `limit` classes that fits the step
/// and serves each requested size takes less. The only error is that the allocator refuses memory.
pub fn check_over(
    alloc: Global,
    timeline: &Timeline,
    numbers: &[usize],
    fit: &Fit,
) -> Result<OverVerdict, AllocError>
    ensures verdict { IfOk result (λ verdict. IsOverVerdict timeline.now numbers.now (sheet_of fit.now) verdict) }
    ensures least { IfOk result
        (λ verdict. verdict ≡ Optimal
        → IsLeastOver fit.now.forced timeline.now fit.now.step fit.now.limit fit.now.table) }
{
    let events = timeline.events();
    if !are_moments(events, numbers) {
        return Ok(OverVerdict::Refused(OverRefusal::NotMoments));
    }
    let index = TimelineIndex::new(alloc, events)?;
    let history = index.history_at(alloc, numbers)?;
    if let Verdict::Refused(refusal) = check_fit(alloc, &history, fit)? {
        return Ok(OverVerdict::Refused(OverRefusal::OfFit(refusal)));
    }
    // the call tells the proof that the table is legal
    let _classes = fit.table.len();
    if !index.serves(&fit.table) {
        return Ok(OverVerdict::Refused(OverRefusal::OfFit(Refusal::NotServing)));
    }
    let taken = index.footprint(alloc, &fit.table)?;
    if taken.bytes != fit.cost {
        return Ok(OverVerdict::Refused(OverRefusal::OfFit(Refusal::WasteWrong)));
    }
    Ok(OverVerdict::Optimal)
}

// whether the numbers are those of some moments: 1 to 1,024 of them, none above the number of events
fn are_moments(events: &[SizeEvent], numbers: &[usize]) -> bool
    ensures { IsTrue result ↔ AreMoments events.now numbers.now }
{
    !numbers.is_empty() && numbers.len() <= MOST_SNAPSHOTS && are_within(events.len(), numbers)
}

// whether no number is above the most
fn are_within(most: usize, numbers: &[usize]) -> bool
    ensures { IsTrue result ↔ All (λ number. number ≤ most) numbers.now }
{
    numbers.iter().all(|number| *number <= most)
}
