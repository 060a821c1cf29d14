//! A fault as numbers.
ghost use Rattle.std.specs.Prelude.{◌≡◌, ◌++◌, ℕ, List, Some, unwrap_or};
ghost use Rattle.history_count.specs.FaultText.{shown_history_fault};
ghost use Rattle.line_text.specs.Numbers.{leading_number_of};
ghost use Rattle.mte_engine.specs.FaultLines.{line_of_fault};
ghost use Rattle.mte_engine.specs.FaultText.{shown_input_fault};
ghost use Rattle.history_count.specs.Timelines.FaultText.{shown_timeline_fault};
ghost use Rattle.trace_reader.specs.FaultText.{shown_trace_fault};

use history_count::{HistoryFault, TimelineFault};
use mte_engine::InputFault;
use trace_reader::TraceFault;

/// The code of a fault: the number at the start of its text.
#[tactic(auto, unfolding(line_text::specs::Numbers::number_of))]
pub fn code_of(fault: InputFault) -> u32
    ensures { leading_number_of (shown_input_fault fault) ≡ Some result }
{
    match fault {
        InputFault::TooLong => 80,
        InputFault::Table(fault) => fault.code(),
        InputFault::BadSheet(_) => 48,
        InputFault::BadFit(_) => 36,
        InputFault::Profile(_, fault) => fault.code(),
        InputFault::History(_, fault) => code_of_history(fault),
        InputFault::Timeline(_, fault) => code_of_timeline(fault),
        InputFault::Trace(_, fault) => code_of_trace(fault),
    }
}

/// The line of a fault, counted from 1; 0 if it has none.
pub fn line_of(fault: InputFault) -> u64
    ensures { result ≡ unwrap_or (line_of_fault fault) 0 }
{
    match fault {
        InputFault::TooLong => 0,
        InputFault::Table(_) => 1,
        InputFault::BadSheet(line)
        | InputFault::BadFit(line)
        | InputFault::Profile(line, _)
        | InputFault::History(line, _)
        | InputFault::Timeline(line, _)
        | InputFault::Trace(line, _) => line,
    }
}

#[tactic(auto, unfolding(line_text::specs::Numbers::number_of))]
fn code_of_history(fault: HistoryFault) -> u32
    ensures { (rest : List ℕ) → leading_number_of (shown_history_fault fault ++ rest) ≡ Some result }
{
    match fault {
        HistoryFault::BadSnapshots => 34,
        HistoryFault::WrongLength => 35,
        HistoryFault::Counted(fault) => fault.code(),
    }
}

#[tactic(auto, unfolding(line_text::specs::Numbers::number_of))]
fn code_of_timeline(fault: TimelineFault) -> u32
    ensures { (rest : List ℕ) → leading_number_of (shown_timeline_fault fault ++ rest) ≡ Some result }
{
    match fault {
        TimelineFault::BadTimeline => 37,
        TimelineFault::NotLive => 38,
    }
}

#[tactic(auto, unfolding(line_text::specs::Numbers::number_of))]
fn code_of_trace(fault: TraceFault) -> u32
    ensures { (rest : List ℕ) → leading_number_of (shown_trace_fault fault ++ rest) ≡ Some result }
{
    match fault {
        TraceFault::BadWord => 70,
        TraceFault::BadNumber => 71,
        TraceFault::OutOfRange => 72,
        TraceFault::LineTooLong => 73,
        TraceFault::TooManyEvents => 74,
    }
}
