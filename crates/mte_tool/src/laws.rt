//! What the exit status of a whole run tells. A law is the contract of a function that does nothing.
ghost use Rattle.mte_tool.specs.ExitLaw.{AnswerLaw, CheckFitLaw, CheckLaw, QuietLaw, ShownLaw};

/// Of words that mean `check`, status 0 says that the sheet in the input is of least waste for its profile, and of words that mean `check-fit`,
/// that the fit is of least footprint for its history or timeline, each for its limit and step, and where it forces the largest class of the
/// tables that have it; of words that mean any call, status 0 or 1 says that its answer to the whole input was written; only words that ask
/// for a text are shown one; and with status 0 or 1 standard error took at most the line that says that the program waits for its input.
pub fn law_exit_status()
    ensures check { CheckLaw }
    ensures check_fit { CheckFitLaw }
    ensures answer { AnswerLaw }
    ensures shown { ShownLaw }
    ensures quiet { QuietLaw }
{}
