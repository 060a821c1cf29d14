//! The checker of sheets.
ghost use Rattle.std.specs.Prelude.{◌≡◌, IfOk};
ghost use Rattle.potential_check.specs.Certificates.SheetView.{sheet_of};
ghost use Rattle.tuner_theory.specs.Best.{IsBest};
ghost use Rattle.tuner_theory.specs.Served.{served};
ghost use Rattle.tuner_theory.specs.Sheets.{IsVerdict};
ghost use Rattle.tuner_theory.specs.declared.verdict.Verdict.TheVariants.{Optimal};

use crate::certificates::{Certificate, Sheet, Spans};
use crate::checker::verdict_on;
use crate::cost::OfWaste;
use crate::measured_load::{MeasuredLoad, RowTests};
use crate::sheet_on_spans::SheetOnSpans;
use class_table::ClassTable;
use profile_count::Profile;
use std::alloc::{AllocError, Global};
use tuner_theory::Verdict;

/// The verdict on a sheet, whoever wrote it and whatever it holds: optimal, or the first refusal that holds.
/// The table of an optimal sheet is a best one: no table of at most `limit` classes that fits the step and serves the profile wastes less, or
/// where the largest class is forced, none of those that have it too.
/// The only error is that the allocator refuses memory.
pub fn check(alloc: Global, profile: &Profile, sheet: &Sheet) -> Result<Verdict, AllocError>
    ensures verdict { IfOk result (IsVerdict profile.now.counts (sheet_of sheet.now)) }
    ensures best { IfOk result
        (λ verdict. verdict ≡ Optimal
        → IsBest (served sheet.now.forced profile.now.counts) sheet.now.step sheet.now.limit sheet.now.table) }
{
    if sheet.forced {
        let served = profile.with_largest(alloc)?;
        return verdict_on(alloc, &OnProfile { profile: &served }, sheet);
    }
    verdict_on(alloc, &OnProfile { profile }, sheet)
}

// a profile, against whose sizes sheets are checked
#[derive(Drop)]
struct OnProfile<'a> {
    profile: &'a Profile,
}

impl<'a> MeasuredLoad for OnProfile<'a> {
    ghost use Rattle.tuner_theory.proofs.LawLemmas.{waste-sum};
    ghost use Rattle.tuner_theory.specs.Measures.{waste_on};

    type Kind = OfWaste;

    ghost measure = { λ s. waste_on s.profile.now.counts };

    fn profile(&self) -> &Profile {
        self.profile
    }

    fn cost_of(&self, table: &ClassTable) -> u64 {
        self.profile.waste(table)
    }

    fn row_tests(
        &self,
        _alloc: Global,
        spans: &Spans<'_>,
        sheet: &Certificate<OfWaste>,
    ) -> Result<RowTests, AllocError> {
        Ok(SheetOnSpans::new(spans, sheet).tests())
    }

    ghost sums = { λ s. waste-sum s.profile.now.counts };
}
