ghost use Rattle.std.specs.Prelude.{◌≡◌, Some};
ghost use Rattle.history_count.specs.FaultText.{shown_history_fault};
ghost use Rattle.history_count.specs.declared.fault.HistoryError.TheVariants.{OutOfMemory};

use profile_count::{ProfileError, ProfileFault};
use std::alloc::AllocError;
use std::fmt;
use thiserror::Error;

/// What is wrong with a line of a history. Each is shown as its code and name.
#[derive(Debug, Clone, Copy, PartialEq, Eq)]
pub enum HistoryFault {
    /// The first line is not `snapshots T` with T from 1 to 1,024, or there is none.
    BadSnapshots,
    /// A later line does not have T numbers after its first word.
    WrongLength,
    /// A later line has a fault that a line of a profile can have too. `BadLine`: its first word is neither a counted size nor
    /// `large`; or another word is no number; or it follows the `large` line. `NotAscending`: its size is not above the last one.
    /// `CountOutOfRange`: a number is above 1,000,000,000, or all are 0. `BadLine` is tested before `WrongLength`, the others after it.
    Counted(ProfileFault),
}

impl fmt::Display for HistoryFault {
    ghost output = { λ fault. Some (shown_history_fault fault) };

    fn fmt<W: fmt::Write>(&self, f: &mut fmt::Formatter<W>) -> fmt::Result {
        match self {
            HistoryFault::BadSnapshots => f.write_str("34 BadSnapshots"),
            HistoryFault::WrongLength => f.write_str("35 WrongLength"),
            HistoryFault::Counted(fault) => fault.fmt(f),
        }
    }
}

impl std::error::Error for HistoryFault {}

/// Why no history was read.
#[derive(Debug, Clone, Copy, PartialEq, Eq, Error)]
pub enum HistoryError {
    /// The allocator refused memory.
    #[error("1 OutOfMemory")]
    OutOfMemory,
    /// The first faulty line has this number, counted from 1.
    #[error("{1} line {0}")]
    Line(u32, HistoryFault),
}

impl From<AllocError> for HistoryError {
    ghost from_gives = { λ _ e. e ≡ OutOfMemory };

    fn from(_error: AllocError) -> HistoryError {
        HistoryError::OutOfMemory
    }
}
