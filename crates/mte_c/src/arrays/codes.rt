//! The codes of refusals.
ghost use Rattle.std.specs.Prelude.{◌≡◌};
ghost use Rattle.tuner_theory.specs.Sheets.{code_of};

use potential_check::Refusal;

/// The code of a refusal of a sheet, 39 to 47.
pub fn code_of_refusal(refusal: Refusal) -> u32
    ensures { result ≡ code_of refusal }
{
    match refusal {
        Refusal::OffStep => 39,
        Refusal::OverLimit => 40,
        Refusal::NotServing => 41,
        Refusal::WasteWrong => 42,
        Refusal::Shape => 43,
        Refusal::LastClass => 44,
        Refusal::StageDrop => 45,
        Refusal::Edge => 46,
        Refusal::NotTight => 47,
    }
}
