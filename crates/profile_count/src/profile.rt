//! The counts of a profile, and what follows from them alone.
ghost use Rattle.std.specs.Prelude.{◌≡◌, ◌↔◌, ◌<◌, ◌≤◌, ◌+◌, ◌^◌, ℕ, slice_index, None, IsErr, IsSome, IfOk, IfSome, IfNone, OnErr, OnOk, true};
ghost use Rattle.class_table.specs.Tables.{class_for};
ghost use Rattle.tuner_theory.specs.Profiles.{IsCounted, IsProfile};
ghost use Rattle.tuner_theory.specs.Served.{served};
ghost use Rattle.tuner_theory.specs.Waste.{Serves, waste_of};
ghost use Rattle.profile_count.specs.Counts.{IsNextCounted, count_for, nothing_counted, unserved_of, with_count, with_large, with_one_more, zeros};

use crate::counted_sizes::next_counted;
use crate::fault::CountFull;
use crate::waste_and_unserved::{first_unserved, table_losses};
use class_table::{ClassTable, LARGEST_COUNTED};
use std::alloc::{AllocError, Global};
use std::marker::Model;
use tuner_theory::GREATEST_COUNT;

// a count for each size up to the largest that is counted
const SIZES: usize = LARGEST_COUNTED as usize + 1;

// the counts that are cleared at a time
const BLOCK: usize = 256;

/// How often each size up to `LARGEST_COUNTED` was requested, and how often larger sizes were. Each count is at most 1,000,000,000.
#[derive(Debug, Drop)]
pub struct Profile {
    counts: Vec<u32>,
    large: u32,
}

impl Model for Profile {
    ghost use Rattle.tuner_theory.specs.Profiles.{IsProfile, Profile as Counted};

    ghost Value = { Counted };

    ghost view = { λ p. record { counts = p.counts.items; large = p.large } };

    ghost invariant = { λ p. IsProfile (record { counts = p.counts.items; large = p.large }) };
}

impl Profile {
    /// A profile of no requests. The only error is that the allocator refuses memory.
    pub fn new(alloc: Global) -> Result<Profile, AllocError>
        ensures { IfOk result (λ profile. profile ≡ nothing_counted) }
    {
        let counts = no_counts(alloc, SIZES)?;
        Ok(Profile { counts, large: 0 })
    }

    /// How often a size of `n` bytes (0 to `LARGEST_COUNTED`) was requested, 0 to 1,000,000,000 times.
    pub fn count(&self, n: u32) -> u32
        requires { n ≤ LARGEST_COUNTED }
        ensures count { result ≡ slice_index self.now.counts n }
        ensures profile { IsProfile self.now }
    {
        self.counts[n as usize]
    }

    /// The first counted size from this one on (0 to `LARGEST_COUNTED` + 1), in bytes; `LARGEST_COUNTED` + 1 if there is none.
    pub fn next_counted(&self, from: u32) -> u32
        requires { from ≤ LARGEST_COUNTED + 1 }
        ensures next { IsNextCounted self.now.counts from result }
        ensures profile { IsProfile self.now }
    {
        next_counted(&self.counts, from as usize) as u32
    }

    /// How often a larger size was requested, 0 to 1,000,000,000 times.
    pub fn large(&self) -> u32
        ensures large { result ≡ self.now.large }
        ensures profile { IsProfile self.now }
    {
        self.large
    }

    /// Counts one more request of `n` bytes. Any `n` is allowed. Above `LARGEST_COUNTED` the request counts as large.
    /// The error is that its count is 1,000,000,000 already. The profile is then unchanged.
    pub fn add(&mut self, n: u32) -> Result<(), CountFull>
        ensures added { OnOk result (self.new ≡ with_one_more self.old n) }
        ensures full { IsErr result ↔ (count_for self.old n ≡ GREATEST_COUNT) }
        ensures kept { OnErr result (self.new ≡ self.old) }
    {
        if n > LARGEST_COUNTED {
            self.set_large(one_more(self.large)?);
        } else {
            self.set_count(n, one_more(self.count(n))?);
        }
        Ok(())
    }

    /// Sets the count of a size of `n` bytes (0 to `LARGEST_COUNTED`) to 0 to 1,000,000,000.
    pub fn set_count(&mut self, n: u32, count: u32)
        requires size { n ≤ LARGEST_COUNTED }
        requires count { count ≤ GREATEST_COUNT }
        ensures { self.new ≡ with_count self.old n count }
    {
        self.counts[n as usize] = count;
    }

    /// A copy in which the largest size that is counted was requested at least once, and nothing else is changed. The only error is that the
    /// allocator refuses memory.
    pub fn with_largest(&self, alloc: Global) -> Result<Profile, AllocError>
        ensures { IfOk result
            (λ profile. profile ≡ record { counts = served true self.now.counts; large = self.now.large }) }
    {
        let mut counts = Vec::with_capacity(alloc, self.counts.len())?;
        counts.extend_from_slice(&self.counts)?;
        let mut profile = Profile {
            counts,
            large: self.large,
        };
        profile.set_count(LARGEST_COUNTED, self.count(LARGEST_COUNTED).max(1));
        Ok(profile)
    }

    /// Sets the count of the large requests.
    pub(crate) fn set_large(&mut self, count: u32)
        requires { count ≤ GREATEST_COUNT }
        ensures { self.new ≡ with_large self.old count }
    {
        self.large = count;
    }

    /// The least counted size that has no class in the table, in bytes. `None` if the table serves the profile.
    pub fn unserved(&self, table: &ClassTable) -> Option<u16>
        ensures size { result ≡ unserved_of self.now.counts table.now }
        ensures found { IfSome result (λ n. IsCounted self.now.counts n × (class_for table.now n ≡ None)) }
        ensures least { IfSome result
            (λ n. (m : ℕ) → m < n → IsCounted self.now.counts m → IsSome (class_for table.now m)) }
        ensures none { IfNone result (Serves self.now.counts table.now) }
    {
        first_unserved(&self.counts, table)
    }

    /// The bytes that a table loses by rounding the profile's counted requests up. The table must serve the profile (`unserved`).
    pub fn waste(&self, table: &ClassTable) -> u64
        requires { Serves self.now.counts table.now }
        ensures waste { result ≡ waste_of self.now.counts table.now }
        ensures small { result < 2 ^ 58 }
    {
        table_losses(&self.counts, table)
    }
}

// a count that is higher by 1, unless this is the greatest count
fn one_more(count: u32) -> Result<u32, CountFull>
    requires { count ≤ GREATEST_COUNT }
    ensures more { IfOk result (λ more. more ≡ count + 1) }
    ensures small { IfOk result (λ more. more ≤ GREATEST_COUNT) }
    ensures full { IsErr result ↔ (count ≡ GREATEST_COUNT) }
{
    if count == GREATEST_COUNT {
        return Err(CountFull);
    }
    Ok(count + 1)
}

/// So many counts of nothing. The only error is that the allocator refuses memory.
pub fn no_counts(alloc: Global, n: usize) -> Result<Vec<u32>, AllocError>
    ensures { IfOk result (λ counts. counts.items ≡ zeros n) }
{
    // Block by block. The C library clears a longer row by a string instruction, in the same time; but callgrind counts that for each byte.
    let mut counts = Vec::with_capacity(alloc, n)?;
    let mut rest = n;
    while rest > 0 {
        let some = rest.min(BLOCK);
        counts.extend_from_slice(&[0; BLOCK][..some])?;
        rest -= some;
    }
    Ok(counts)
}
