//! What can go wrong in an engine, and how it is shown.
ghost use Rattle.std.specs.Prelude.{◌≡◌, ◌≤◌, ◌+◌, ◌++◌, Some, length};
ghost use Rattle.history_count.specs.FaultText.{shown_history_fault};
ghost use Rattle.history_count.specs.Timelines.FaultText.{shown_timeline_fault};
ghost use Rattle.class_table.specs.FaultText.{shown_table_error};
ghost use Rattle.profile_count.specs.FaultText.{shown_profile_fault};
ghost use Rattle.trace_reader.specs.FaultText.{shown_trace_fault};
ghost use Rattle.mte_engine.specs.FaultLines.{line_of_fault, line_of_tool_fault};
ghost use Rattle.mte_engine.specs.Outcome.{fault_of_answer, fault_of_read};
ghost use Rattle.mte_engine.specs.FaultText.{fault_line, fault_name, input_fault_name, line_text, shown_fault, shown_input_fault};
ghost use Rattle.mte_engine.specs.declared.fault.AnswerError.TheVariants.{OutOfMemory as NoMemoryToAnswer};
ghost use Rattle.mte_engine.specs.declared.fault.ToolFault.TheVariants.{OutOfMemory, WriteFault};

use arrayvec::ArrayString;
use byte_streams::{Failure, ReadError};
use class_table::TableError;
use history_count::{HistoryFault, TimelineFault};
use itoa::Buffer;
use profile_count::ProfileFault;
use std::alloc::{AllocError, AllocFailed};
use std::fmt;
use trace_reader::TraceFault;

/// What is wrong with the bytes of an input. Each is shown as its code, its name and, if it has one, its line. The input's first line is
/// line 1.
#[derive(Debug, Clone, Copy, PartialEq, Eq)]
pub enum InputFault {
    /// The input has more than 67,108,864 bytes. This comes before every fault of the text.
    TooLong,
    /// The class line, which is the first line, is faulty.
    Table(TableError),
    /// A line of the sheet is faulty or missing.
    BadSheet(u64),
    /// A line of the fit is faulty or missing.
    BadFit(u64),
    /// A line of the profile is faulty.
    Profile(u64, ProfileFault),
    /// A line of the history is faulty or missing.
    History(u64, HistoryFault),
    /// A line of the timeline is faulty or missing.
    Timeline(u64, TimelineFault),
    /// A line of the trace is faulty.
    Trace(u64, TraceFault),
}

impl fmt::Display for InputFault {
    ghost output = { λ fault. Some (shown_input_fault fault) };

    fn fmt<W: fmt::Write>(&self, f: &mut fmt::Formatter<W>) -> fmt::Result {
        match self {
            InputFault::TooLong => f.write_str("80 InputTooLong"),
            InputFault::Table(fault) => write!(f, "{fault} line 1"),
            // `SheetError::Line` shows the same text
            InputFault::BadSheet(line) => write!(f, "48 BadSheet line {line}"),
            // as of `FitError::Line`
            InputFault::BadFit(line) => write!(f, "36 BadFit line {line}"),
            InputFault::Profile(line, fault) => write!(f, "{fault} line {line}"),
            InputFault::History(line, fault) => write!(f, "{fault} line {line}"),
            InputFault::Timeline(line, fault) => write!(f, "{fault} line {line}"),
            InputFault::Trace(line, fault) => write!(f, "{fault} line {line}"),
        }
    }
}

impl std::error::Error for InputFault {}

/// Why an engine did not finish. Each is shown as its code, its name and, if it has one, its line.
///
/// After `WriteFault` the sink has a prefix of the text, and after the others nothing of it. A failed read, and an input that is too long,
/// are reported before any fault of the text.
#[derive(Debug, Clone, Copy, PartialEq, Eq)]
pub enum ToolFault {
    /// The allocator refused memory.
    OutOfMemory,
    /// The input is refused.
    Input(InputFault),
    /// A read failed.
    ReadFault,
    /// A write failed, or took no byte.
    WriteFault,
}

impl fmt::Display for ToolFault {
    ghost output = { λ fault. Some (shown_fault fault) };

    fn fmt<W: fmt::Write>(&self, f: &mut fmt::Formatter<W>) -> fmt::Result {
        match self {
            ToolFault::OutOfMemory => f.write_str("1 OutOfMemory"),
            ToolFault::Input(fault) => write!(f, "{fault}"),
            ToolFault::ReadFault => f.write_str("81 ReadFault"),
            ToolFault::WriteFault => f.write_str("82 WriteFault"),
        }
    }
}

impl std::error::Error for ToolFault {}

/// Why an input has no answer.
#[derive(Clone, Copy)]
pub enum AnswerError {
    /// The allocator refused memory.
    OutOfMemory,
    /// The input is refused.
    Input(InputFault),
}

impl From<AllocError> for ToolFault {
    ghost from_gives = { λ _ fault. fault ≡ OutOfMemory };

    fn from(_error: AllocError) -> ToolFault {
        ToolFault::OutOfMemory
    }
}

impl From<ReadError> for ToolFault {
    ghost from_gives = { λ error fault. fault ≡ fault_of_read error };

    fn from(error: ReadError) -> ToolFault {
        match error {
            ReadError::OutOfMemory => ToolFault::OutOfMemory,
            ReadError::TooLong => ToolFault::Input(InputFault::TooLong),
            ReadError::Failed => ToolFault::ReadFault,
        }
    }
}

impl From<AnswerError> for ToolFault {
    ghost from_gives = { λ error fault. fault ≡ fault_of_answer error };

    fn from(error: AnswerError) -> ToolFault {
        match error {
            AnswerError::OutOfMemory => ToolFault::OutOfMemory,
            AnswerError::Input(fault) => ToolFault::Input(fault),
        }
    }
}

impl From<Failure> for ToolFault {
    ghost from_gives = { λ _ fault. fault ≡ WriteFault };

    fn from(_failure: Failure) -> ToolFault {
        ToolFault::WriteFault
    }
}

impl From<AllocError> for AnswerError {
    ghost from_gives = { λ _ error. error ≡ NoMemoryToAnswer };

    fn from(_error: AllocError) -> AnswerError {
        AnswerError::OutOfMemory
    }
}

impl<T: Drop> From<AllocFailed<T>> for AnswerError {
    ghost from_gives = { λ _ error. error ≡ NoMemoryToAnswer };

    fn from(_error: AllocFailed<T>) -> AnswerError {
        AnswerError::OutOfMemory
    }
}

/// The line that tells a fault: `error`, its code, its name and, if it has one, its line. It takes no memory, so each fault can be told.
pub fn fault_line(fault: ToolFault) -> ArrayString<80>
    ensures { result.bytes ≡ fault_line fault }
{
    let mut text = ArrayString::new();
    text.push_str("error ");
    text.push_str(name_of(fault));
    push_line(&mut text, line_of(fault));
    text.push_str("\n");
    text
}

// adds the line of a fault to its name
fn push_line(text: &mut ArrayString<80>, line: Option<u64>)
    requires { length text.old.bytes ≤ 26 }
    ensures text { text.new.bytes ≡ text.old.bytes ++ line_text line }
    ensures short { length text.new.bytes ≤ length text.old.bytes + 46 }
{
    if let Some(line) = line {
        text.push_str(" line ");
        text.push_str(Buffer::new().format(line));
    }
}

// the code and the name of a fault
fn name_of(fault: ToolFault) -> &'static str
    ensures name { result.now ≡ fault_name fault }
    ensures short { length result.now ≤ 20 }
{
    match fault {
        ToolFault::OutOfMemory => "1 OutOfMemory",
        ToolFault::Input(fault) => name_of_input(fault),
        ToolFault::ReadFault => "81 ReadFault",
        ToolFault::WriteFault => "82 WriteFault",
    }
}

fn name_of_input(fault: InputFault) -> &'static str
    ensures name { result.now ≡ input_fault_name fault }
    ensures short { length result.now ≤ 20 }
{
    match fault {
        InputFault::TooLong => "80 InputTooLong",
        InputFault::Table(fault) => name_of_table(fault),
        InputFault::BadSheet(_) => "48 BadSheet",
        InputFault::BadFit(_) => "36 BadFit",
        InputFault::Profile(_, fault) => name_of_profile(fault),
        InputFault::History(_, fault) => name_of_history(fault),
        InputFault::Timeline(_, fault) => name_of_timeline(fault),
        InputFault::Trace(_, fault) => name_of_trace(fault),
    }
}

fn name_of_table(fault: TableError) -> &'static str
    ensures name { result.now ≡ shown_table_error fault }
    ensures short { length result.now ≤ 20 }
{
    match fault {
        TableError::BadLine => "23 BadLine",
        TableError::TooMany => "20 TooMany",
        TableError::OutOfRange => "21 OutOfRange",
        TableError::NotAscending => "22 NotAscending",
    }
}

fn name_of_profile(fault: ProfileFault) -> &'static str
    ensures name { result.now ≡ shown_profile_fault fault }
    ensures short { length result.now ≤ 20 }
{
    match fault {
        ProfileFault::BadLine => "30 BadLine",
        ProfileFault::NotAscending => "31 NotAscending",
        ProfileFault::CountOutOfRange => "32 CountOutOfRange",
    }
}

fn name_of_history(fault: HistoryFault) -> &'static str
    ensures name { result.now ≡ shown_history_fault fault }
    ensures short { length result.now ≤ 20 }
{
    match fault {
        HistoryFault::BadSnapshots => "34 BadSnapshots",
        HistoryFault::WrongLength => "35 WrongLength",
        HistoryFault::Counted(fault) => name_of_profile(fault),
    }
}

fn name_of_timeline(fault: TimelineFault) -> &'static str
    ensures name { result.now ≡ shown_timeline_fault fault }
    ensures short { length result.now ≤ 20 }
{
    match fault {
        TimelineFault::BadTimeline => "37 BadTimeline",
        TimelineFault::NotLive => "38 NotLive",
    }
}

fn name_of_trace(fault: TraceFault) -> &'static str
    ensures name { result.now ≡ shown_trace_fault fault }
    ensures short { length result.now ≤ 20 }
{
    match fault {
        TraceFault::BadWord => "70 BadWord",
        TraceFault::BadNumber => "71 BadNumber",
        TraceFault::OutOfRange => "72 OutOfRange",
        TraceFault::LineTooLong => "73 LineTooLong",
        TraceFault::TooManyEvents => "74 TooManyEvents",
    }
}

// the line of a fault, counted from 1, if it has one
fn line_of(fault: ToolFault) -> Option<u64>
    ensures { result ≡ line_of_tool_fault fault }
{
    match fault {
        ToolFault::Input(fault) => line_of_input(fault),
        ToolFault::OutOfMemory | ToolFault::ReadFault | ToolFault::WriteFault => None,
    }
}

fn line_of_input(fault: InputFault) -> Option<u64>
    ensures { result ≡ line_of_fault fault }
{
    match fault {
        InputFault::TooLong => None,
        InputFault::Table(_) => Some(1),
        InputFault::BadSheet(line)
        | InputFault::BadFit(line)
        | InputFault::Profile(line, _)
        | InputFault::History(line, _)
        | InputFault::Timeline(line, _)
        | InputFault::Trace(line, _) => Some(line),
    }
}
