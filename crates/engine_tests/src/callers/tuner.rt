//! A caller of the tuner.
ghost use Rattle.std.specs.Prelude.{◌≡◌, ◌≤◌, ℕ, List, IfOk};
ghost use Rattle.profile_count.specs.Requests.{profile_of_sizes};
ghost use Rattle.tuner_theory.specs.Best.{IsBest};
ghost use Rattle.tuner_theory.specs.Waste.{waste_of};

use class_table::MOST_CLASSES;
use class_tuner::tune;
use profile_count::{CountFull, Profile};
use std::alloc::{AllocError, Global};

/// Why there is no table.
#[derive(Debug, Clone, Copy, PartialEq, Eq)]
pub enum NoTable {
    /// The allocator refused memory.
    OutOfMemory,
    /// A size is requested more than 1,000,000,000 times.
    TooMany,
}

impl From<AllocError> for NoTable {
    fn from(_error: AllocError) -> NoTable {
        NoTable::OutOfMemory
    }
}

impl From<CountFull> for NoTable {
    fn from(_error: CountFull) -> NoTable {
        NoTable::TooMany
    }
}

/// The least waste of these requests, each given by its size in bytes: what a best table of at most `limit` classes (1 to 32) loses.
pub fn least_waste(alloc: Global, sizes: &[u32], limit: u8) -> Result<u64, NoTable>
    requires some { 1 ≤ limit }
    requires few { limit ≤ MOST_CLASSES }
    ensures { IfOk result (λ waste. (classes : List ℕ)
        × IsBest (profile_of_sizes sizes.now).counts 1 limit classes
        × (waste ≡ waste_of (profile_of_sizes sizes.now).counts classes)) }
{
    let mut profile = Profile::new(alloc)?;
    for n in sizes {
        profile.add(*n)?;
    }
    let tuned = tune(alloc, &profile, limit, 1, false)?;
    Ok(tuned.sheet().cost)
}
