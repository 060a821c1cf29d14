//! Walks over the counts of all sizes, a class at a time: as classes ascend, each serves the sizes from where the one before it ends.
ghost use Rattle.std.specs.Prelude.{◌≡◌, ◌<◌, ◌≤◌, ◌+◌, ◌-◌, ◌*◌, ◌^◌, ℕ, None, IsSome, length, slice_index};
ghost use Rattle.class_table.specs.Sizes.{IsBlockSize};
ghost use Rattle.class_table.specs.Tables.{class_for};
ghost use Rattle.profile_count.specs.Counts.{unserved_of};
ghost use Rattle.tuner_theory.specs.Profiles.{AreCounts};
ghost use Rattle.tuner_theory.specs.Waste.{sum_below, waste_of};

use crate::counted_sizes::next_counted;
use class_table::{ClassTable, GRANULE_BYTES, LARGEST_COUNTED};
use tuner_theory::GREATEST_COUNT;

/// The least counted size that has no class.
pub(crate) fn first_unserved(counts: &[u32], table: &ClassTable) -> Option<u16>
    requires { length counts.now ≤ 65536 }
    ensures { result ≡ unserved_of counts.now table.now }
{
    let n = next_counted(counts, table_end(table) as usize);
    if n < counts.len() {
        Some(n as u16)
    } else {
        None
    }
}

/// What the counted requests lose in the classes of their sizes.
pub(crate) fn table_losses(counts: &[u32], table: &ClassTable) -> u64
    requires { AreCounts counts.now }
    ensures waste { result ≡ waste_of counts.now table.now }
    ensures small { result < 2 ^ 58 }
{
    let mut total = 0;
    let mut from = 0;
    for number in 0..table.len() {
        let end = class_end(table.class(number));
        total += losses_between(from, end, counts);
        from = end;
    }
    total
}

// what the counted requests of the sizes from `from` to `end - 1` lose in one class, where `end` is the first size that the class does not
// serve
fn losses_between(from: u32, end: u32, counts: &[u32]) -> u64
    requires counts { AreCounts counts.now }
    requires some { from < end }
    requires end { end ≤ LARGEST_COUNTED + 1 }
    ensures sum { (f : ℕ → ℕ)
        → ((n : ℕ) → from ≤ n → n < end → f n ≡ slice_index counts.now n * (end - 1 - n))
        → sum_below f end ≡ sum_below f from + result }
    ensures small { result ≤ LARGEST_COUNTED * GREATEST_COUNT * (end - from) }
{
    let mut total = 0;
    for n in from..end {
        total += u64::from(counts[n as usize]) * u64::from(end - 1 - n);
    }
    total
}

// the first size that no class of the table serves: where the last class ends, or 0 if there is none
fn table_end(table: &ClassTable) -> u32
    ensures served { (n : ℕ) → n < result → IsSome (class_for table.now n) }
    ensures others { (n : ℕ) → result ≤ n → class_for table.now n ≡ None }
{
    if table.is_empty() {
        return 0;
    }
    class_end(table.class(table.len() - 1))
}

/// The first size in bytes that a class (in granules) does not serve.
pub fn class_end(class: u16) -> u32
    requires { IsBlockSize class }
    ensures { result ≡ GRANULE_BYTES * class - (GRANULE_BYTES - 1) }
{
    GRANULE_BYTES * u32::from(class) - GRANULE_BYTES + 1
}
