//! The checker of fits.
ghost use Rattle.std.specs.Prelude.{◌≡◌, IfOk};
ghost use Rattle.potential_check.specs.Certificates.SheetView.{sheet_of};
ghost use Rattle.tuner_theory.specs.Sheets.{IsFitVerdict};
ghost use Rattle.tuner_theory.specs.Footprint.{IsLeastFootprint};
ghost use Rattle.tuner_theory.specs.Histories.{AreSnapshots, peaks};
ghost use Rattle.tuner_theory.specs.Served.{served};
ghost use Rattle.tuner_theory.specs.declared.verdict.Verdict.TheVariants.{Optimal};

use crate::certificates::{Certificate, Fit, Spans};
use crate::checker::verdict_on;
use crate::cost::OfFootprint;
use crate::footprints::history_spans::HistorySpans;
use crate::footprints::row_tests::test_rows;
use crate::measured_load::{MeasuredLoad, RowTests};
use class_table::ClassTable;
use history_count::History;
use profile_count::Profile;
use std::alloc::{AllocError, Global};
use tuner_theory::Verdict;

/// The verdict on a fit, whoever wrote it and whatever it holds: optimal, or the first refusal that holds. `Refusal::WasteWrong` is the one
/// of a wrong footprint.
/// The table of an optimal fit has the least footprint: no table of at most `limit` classes that fits the step and serves the history takes
/// less, or where the largest class is forced, none of those that have it too. The only error is that the allocator refuses memory.
pub fn check_fit(alloc: Global, history: &History, fit: &Fit) -> Result<Verdict, AllocError>
    ensures verdict { IfOk result (IsFitVerdict history.now.snapshots (sheet_of fit.now)) }
    ensures least { IfOk result
        (λ verdict. verdict ≡ Optimal
        → IsLeastFootprint fit.now.forced history.now.snapshots fit.now.step fit.now.limit fit.now.table) }
{
    if fit.forced {
        let sizes = history.peaks().with_largest(alloc)?;
        return verdict_on(alloc, &on_history(history, &sizes, true), fit);
    }
    verdict_on(alloc, &on_history(history, history.peaks(), false), fit)
}

// a history, against which fits are checked, with the sizes that a table has to serve
#[derive(Drop)]
struct OnHistory<'a> {
    history: &'a History,
    sizes: &'a Profile,
    forced: bool,
    ghost are: { AreSnapshots history.now.snapshots },
    ghost sizes_are: { sizes.now.counts ≡ served forced (peaks history.now.snapshots) },
}

fn on_history<'a>(history: &'a History, sizes: &'a Profile, forced: bool) -> OnHistory<'a>
    requires { sizes.now.counts ≡ served forced (peaks history.now.snapshots) }
    ensures history { result.history.now ≡ history.now }
    ensures forced { result.forced ≡ forced }
{
    // the call tells the proof that it is a history
    let _peaks = history.peaks();
    OnHistory {
        history,
        sizes,
        forced,
    }
}

impl<'a> MeasuredLoad for OnHistory<'a> {
    ghost use Rattle.tuner_theory.proofs.Footprint.{footprint_is_sum};
    ghost use Rattle.tuner_theory.specs.Measures.{footprint_on};

    type Kind = OfFootprint;

    ghost measure = { λ s. footprint_on s.forced s.history.now.snapshots };

    fn profile(&self) -> &Profile {
        self.sizes
    }

    fn cost_of(&self, table: &ClassTable) -> u64 {
        self.history.footprint(table)
    }

    fn row_tests(
        &self,
        alloc: Global,
        spans: &Spans<'_>,
        sheet: &Certificate<OfFootprint>,
    ) -> Result<RowTests, AllocError> {
        // the use of a field gives the proof the invariant of the type
        let _limit = sheet.limit;
        let mut costs = HistorySpans::new(alloc, self.history, spans)?;
        test_rows(alloc, &mut costs, &sheet.rows)
    }

    ghost sums = { λ s step pos. footprint_is_sum s.forced s.history.now.snapshots step pos s.are };
}
