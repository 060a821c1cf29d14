ghost use Rattle.std.specs.Prelude.{◌≡◌};
ghost use Rattle.potential_check.specs.SheetText.{bad_line};

use crate::cost::Cost;
use thiserror::Error;

/// Why no certificate was read. Each is shown as its code, its name and, if it has one, its line.
#[derive(Debug, Clone, Copy, PartialEq, Eq, Error)]
pub enum SheetError {
    /// The allocator refused memory.
    #[error("1 OutOfMemory")]
    OutOfMemory,
    /// The first line of a sheet that is faulty or missing has this number, counted from 1.
    #[error("48 BadSheet line {0}")]
    BadSheet(u64),
    /// The first line of a fit that is faulty or missing has this number, counted from 1.
    #[error("36 BadFit line {0}")]
    BadFit(u64),
}

impl SheetError {
    /// That the line of this number is faulty or missing in a certificate of this cost.
    pub(crate) fn at_line(cost: Cost, number: u64) -> SheetError
        ensures { result ≡ bad_line cost number }
    {
        match cost {
            Cost::Waste => SheetError::BadSheet(number),
            Cost::Footprint => SheetError::BadFit(number),
        }
    }
}
