ghost use Rattle.std.specs.Prelude.{◌≡◌, IfOk};
ghost use Rattle.potential_check.specs.Certificates.SheetView.{sheet_of};
ghost use Rattle.potential_check.specs.Certificates.Spanned.{IsSpanned};
ghost use Rattle.potential_check.specs.Measured.{AreTestsOf};
ghost use Rattle.tuner_theory.specs.Measures.{AreSums, Measure};
ghost use Rattle.tuner_theory.specs.Sheets.{MeetsOn};
ghost use Rattle.tuner_theory.specs.Waste.{Serves};
ghost use Rattle.tuner_theory.specs.declared.verdict.Refusal.TheVariants.{Shape};

use crate::certificates::{Certificate, Spans};
use class_table::ClassTable;
use profile_count::Profile;
use std::alloc::{AllocError, Global};

/// Which conditions the numbers of rows meet.
#[derive(Debug, Clone, Copy)]
pub struct RowTests {
    /// No number of row 1 is more than the cost of one class for all places above.
    pub last_class: bool,
    /// No number is more than the number at its place in the row before.
    pub stage_drop: bool,
    /// No number is more than the cost of a class up to a later place plus the number of the row before at that place.
    pub edge: bool,
}

/// What certificates of a cost are checked against: a profile, or a history with the profile of its peaks.
pub(crate) trait MeasuredLoad {
    /// The cost, as a type.
    type Kind;

    /// What tables are measured by.
    ghost measure: { Self → Measure };

    /// The profile whose sizes a table has to serve.
    fn profile(&self) -> &Profile
        ensures { result.now.counts ≡ (measure self.now).counts };

    /// What a table costs, in bytes. It must serve the profile.
    fn cost_of(&self, table: &ClassTable) -> u64
        requires { Serves (measure self.now).counts table.now }
        ensures { result ≡ (measure self.now).cost table.now };

    /// Tests the numbers of the rows, which must have their shape. `spans` must be over the profile, at the step of the certificate. `edge`
    /// may be false where another test failed. The only error is that the allocator refuses memory.
    fn row_tests(
        &self,
        alloc: Global,
        spans: &Spans<'_>,
        sheet: &Certificate<Self::Kind>,
    ) -> Result<RowTests, AllocError>
        requires spanned { IsSpanned spans.now }
        requires counts { spans.now.counts ≡ (measure self.now).counts }
        requires step { spans.now.step ≡ sheet.now.step }
        requires shape { MeetsOn (measure self.now) (sheet_of sheet.now) Shape }
        ensures { IfOk result (AreTestsOf (measure self.now) (sheet_of sheet.now)) };

    /// What a table costs is the sum of what its classes cost.
    ghost sums: { (m : Self) → AreSums (measure m) };
}
