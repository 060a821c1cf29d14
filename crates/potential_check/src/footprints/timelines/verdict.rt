ghost use Rattle.std.specs.Prelude.{Some};
ghost use Rattle.potential_check.specs.Footprints.Timelines.RefusalText.{shown_over_refusal};

use std::fmt;
use tuner_theory::{FitRefusal, Refusal};

/// Why a fit is refused over a timeline. Each is shown as its code and name.
#[derive(Debug, Clone, Copy, PartialEq, Eq)]
pub enum OverRefusal {
    /// The fit names no moment, or more than 1,024, or one after more events than there are.
    NotMoments,
    /// It is refused over the history of its moments; or its table does not serve the timeline (`NotServing`), or takes more over the whole
    /// timeline than the fit's footprint (`WasteWrong`).
    OfFit(Refusal),
}

impl fmt::Display for OverRefusal {
    ghost output = { λ refusal. Some (shown_over_refusal refusal) };

    fn fmt<W: fmt::Write>(&self, f: &mut fmt::Formatter<W>) -> fmt::Result {
        match self {
            OverRefusal::NotMoments => f.write_str("53 NotMoments"),
            OverRefusal::OfFit(refusal) => FitRefusal(*refusal).fmt(f),
        }
    }
}

/// What a checker says of a fit over a timeline.
#[derive(Debug, Clone, Copy, PartialEq, Eq)]
pub enum OverVerdict {
    /// For the limit and the step, no table takes less over every moment of the timeline.
    Optimal,
    /// It is refused, and shows nothing.
    Refused(OverRefusal),
}
