ghost use Rattle.std.specs.Prelude.{◌≡◌, Some};
ghost use Rattle.history_count.specs.Timelines.FaultText.{shown_timeline_fault};
ghost use Rattle.history_count.specs.declared.timelines.fault.TimelineError.TheVariants.{OutOfMemory};

use std::alloc::{AllocError, AllocFailed};
use std::fmt;
use thiserror::Error;

/// What is wrong with a line of a timeline. Each is shown as its code and name.
#[derive(Debug, Clone, Copy, PartialEq, Eq)]
pub enum TimelineFault {
    /// The first line is not `timeline`, or there is none; or a later line is none of `N`, `-N`, `large` and `-large`, where N is a counted
    /// size; or 1,000,000,000 events came before it.
    BadTimeline,
    /// It frees a block of a size of which none is live.
    NotLive,
}

impl fmt::Display for TimelineFault {
    ghost output = { λ fault. Some (shown_timeline_fault fault) };

    fn fmt<W: fmt::Write>(&self, f: &mut fmt::Formatter<W>) -> fmt::Result {
        match self {
            TimelineFault::BadTimeline => f.write_str("37 BadTimeline"),
            TimelineFault::NotLive => f.write_str("38 NotLive"),
        }
    }
}

impl std::error::Error for TimelineFault {}

/// Why no timeline was read.
#[derive(Debug, Clone, Copy, PartialEq, Eq, Error)]
pub enum TimelineError {
    /// The allocator refused memory.
    #[error("1 OutOfMemory")]
    OutOfMemory,
    /// The first faulty line has this number, counted from 1.
    #[error("{1} line {0}")]
    Line(u32, TimelineFault),
}

impl From<AllocError> for TimelineError {
    ghost from_gives = { λ _ e. e ≡ OutOfMemory };

    fn from(_error: AllocError) -> TimelineError {
        TimelineError::OutOfMemory
    }
}

impl<T: Drop> From<AllocFailed<T>> for TimelineError {
    ghost from_gives = { λ _ e. e ≡ OutOfMemory };

    fn from(_error: AllocFailed<T>) -> TimelineError {
        TimelineError::OutOfMemory
    }
}
