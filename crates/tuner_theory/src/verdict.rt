ghost use Rattle.std.specs.Prelude.{Some};
ghost use Rattle.tuner_theory.specs.RefusalText.{shown_fit_refusal, shown_refusal};

use std::fmt;

/// Why a sheet is refused: the first of these that holds, in this order. Each is shown as its code and name. A fit is refused by the same
/// conditions, with its footprint in place of the waste.
#[derive(Debug, Clone, Copy, PartialEq, Eq)]
pub enum Refusal {
    /// The step is not 1, 2, 4 or 8, or a class of the table is no multiple of it.
    OffStep,
    /// The table has more classes than the limit.
    OverLimit,
    /// A counted size has no class.
    NotServing,
    /// The sheet's waste is not its table's.
    WasteWrong,
    /// The number of rows is not the limit, or a row does not have one number for each distinct need.
    Shape,
    /// A number of row 1 is more than the cost of one class for all places above.
    LastClass,
    /// A number is more than the number at its place in the row before.
    StageDrop,
    /// A number is more than the cost of a class up to a later place plus the number of the row before at that place.
    Edge,
    /// The last row's first number is not the waste.
    NotTight,
}

impl fmt::Display for Refusal {
    ghost output = { λ refusal. Some (shown_refusal refusal) };

    fn fmt<W: fmt::Write>(&self, f: &mut fmt::Formatter<W>) -> fmt::Result {
        f.write_str(match self {
            Refusal::OffStep => "39 OffStep",
            Refusal::OverLimit => "40 OverLimit",
            Refusal::NotServing => "41 NotServing",
            Refusal::WasteWrong => "42 WasteWrong",
            Refusal::Shape => "43 Shape",
            Refusal::LastClass => "44 LastClass",
            Refusal::StageDrop => "45 StageDrop",
            Refusal::Edge => "46 Edge",
            Refusal::NotTight => "47 NotTight",
        })
    }
}

/// Why a fit is refused. `WasteWrong` is that its footprint is not its table's, shown as `49 FootprintWrong`; the others are a sheet's.
#[derive(Debug, Clone, Copy, PartialEq, Eq)]
pub struct FitRefusal(pub Refusal);

impl fmt::Display for FitRefusal {
    ghost output = { λ fit. Some (shown_fit_refusal fit.0) };

    fn fmt<W: fmt::Write>(&self, f: &mut fmt::Formatter<W>) -> fmt::Result {
        match self.0 {
            Refusal::WasteWrong => f.write_str("49 FootprintWrong"),
            refusal => write!(f, "{refusal}"),
        }
    }
}

/// What a checker says of a sheet, or of a fit.
#[derive(Debug, Clone, Copy, PartialEq, Eq)]
pub enum Verdict {
    /// Nothing is refused: for the limit and the step, the table of a sheet wastes least, and the table of a fit has the least footprint;
    /// where the largest class is forced, of the tables that have it.
    Optimal,
    /// It is refused, and shows nothing.
    Refused(Refusal),
}
