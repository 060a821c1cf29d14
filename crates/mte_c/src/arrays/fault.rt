ghost use Rattle.std.specs.Prelude.{◌≡◌};
ghost use Rattle.mte_c.specs.declared.arrays.fault.ArrayError.TheVariants.{OutOfMemory};

use class_table::TableError;
use profile_count::ProfileFault;
use std::alloc::AllocError;

/// Why a call gives no answer.
#[derive(Debug, Clone, Copy, PartialEq, Eq)]
pub enum ArrayError {
    /// The allocator refused memory.
    OutOfMemory,
    /// The classes are refused.
    Table(TableError),
    /// The entry of this index, counted from 0, is the first faulty one of the profile: its size is above `LARGEST_COUNTED` (`BadLine`) or not above
    /// the size before it, or its count is not from 1 to 1,000,000,000.
    Entry(u64, ProfileFault),
    /// An option is out of its range.
    BadOption,
    /// The room for the classes is for fewer than the limit, or the numbers can't be cut in so many rows of one length.
    Misuse,
}

impl From<AllocError> for ArrayError {
    ghost from_gives = { λ _ e. e ≡ OutOfMemory };

    fn from(_error: AllocError) -> ArrayError {
        ArrayError::OutOfMemory
    }
}
