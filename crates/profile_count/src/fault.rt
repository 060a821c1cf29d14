ghost use Rattle.std.specs.Prelude.{◌≡◌, ◌++◌, ℕ, List, Some};
ghost use Rattle.line_text.specs.Numbers.{leading_number_of};
ghost use Rattle.profile_count.specs.FaultText.{shown_profile_fault};
ghost use Rattle.profile_count.specs.declared.fault.ProfileError.TheVariants.{OutOfMemory};

use std::alloc::AllocError;
use std::fmt;
use thiserror::Error;

/// What is wrong with a line of a profile, in the order of the tests. Each is shown as its code and name.
#[derive(Debug, Clone, Copy, PartialEq, Eq)]
pub enum ProfileFault {
    /// The line has neither form: a counted size, a space and a number; or `large`, a space and a number. Or it follows a `large`
    /// line.
    BadLine,
    /// The size is not above that of the line before.
    NotAscending,
    /// The count is not from 1 to 1,000,000,000.
    CountOutOfRange,
}

impl ProfileFault {
    /// The code: the number at the start of the text by which the fault is shown, whatever comes after that.
    #[tactic(auto, unfolding(line_text::specs::Numbers::number_of))]
    pub fn code(self) -> u32
        ensures { (rest : List ℕ) → leading_number_of (shown_profile_fault self ++ rest) ≡ Some result }
    {
        match self {
            ProfileFault::BadLine => 30,
            ProfileFault::NotAscending => 31,
            ProfileFault::CountOutOfRange => 32,
        }
    }
}

impl fmt::Display for ProfileFault {
    ghost output = { λ fault. Some (shown_profile_fault fault) };

    fn fmt<W: fmt::Write>(&self, f: &mut fmt::Formatter<W>) -> fmt::Result {
        f.write_str(match self {
            ProfileFault::BadLine => "30 BadLine",
            ProfileFault::NotAscending => "31 NotAscending",
            ProfileFault::CountOutOfRange => "32 CountOutOfRange",
        })
    }
}

impl std::error::Error for ProfileFault {}

/// Why no profile was read.
#[derive(Debug, Clone, Copy, PartialEq, Eq, Error)]
pub enum ProfileError {
    /// The allocator refused memory.
    #[error("1 OutOfMemory")]
    OutOfMemory,
    /// The first faulty line has this number, counted from 1.
    #[error("{1} line {0}")]
    Line(u32, ProfileFault),
}

/// The count of a request is 1,000,000,000 already, so it can't be raised. It is shown as its code and name.
#[derive(Debug, Clone, Copy, PartialEq, Eq, Error)]
#[error("33 CountFull")]
pub struct CountFull;

impl From<AllocError> for ProfileError {
    ghost from_gives = { λ _ e. e ≡ OutOfMemory };

    fn from(_error: AllocError) -> ProfileError {
        ProfileError::OutOfMemory
    }
}
