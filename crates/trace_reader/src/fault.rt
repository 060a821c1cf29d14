ghost use Rattle.std.specs.Prelude.{Some};
ghost use Rattle.trace_reader.specs.FaultText.{shown_trace_fault};

use std::fmt;
use thiserror::Error;

/// What is wrong with a line of a trace. Each is shown as its code and name. Where a line has several faults, `LineTooLong` comes first,
/// then `TooManyEvents`, then `BadWord`, then the fault of the leftmost faulty word.
#[derive(Debug, Clone, Copy, PartialEq, Eq)]
pub enum TraceFault {
    /// The first word names no event, the line has another number of words than that event, or a word is empty.
    BadWord,
    /// A word is no number of its kind, or not the one spelling of its number.
    BadNumber,
    /// A number is outside its range.
    OutOfRange,
    /// The line has more than 80 bytes, not counting its newline.
    LineTooLong,
    /// The line follows 1,000,000 events.
    TooManyEvents,
}

impl fmt::Display for TraceFault {
    ghost output = { λ fault. Some (shown_trace_fault fault) };

    fn fmt<W: fmt::Write>(&self, f: &mut fmt::Formatter<W>) -> fmt::Result {
        f.write_str(match self {
            TraceFault::BadWord => "70 BadWord",
            TraceFault::BadNumber => "71 BadNumber",
            TraceFault::OutOfRange => "72 OutOfRange",
            TraceFault::LineTooLong => "73 LineTooLong",
            TraceFault::TooManyEvents => "74 TooManyEvents",
        })
    }
}

impl std::error::Error for TraceFault {}

/// Why the reader stopped.
#[derive(Debug, Clone, Copy, PartialEq, Eq, Error)]
pub enum TraceError {
    /// The allocator refused memory.
    #[error("1 OutOfMemory")]
    OutOfMemory,
    /// The first faulty line has this number, 1 to 1,000,001.
    #[error("{1} line {0}")]
    Line(u32, TraceFault),
}
