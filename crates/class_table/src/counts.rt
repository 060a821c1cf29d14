//! How many of some ascending numbers are at most another one.
ghost use Rattle.std.specs.Prelude.{◌≡◌, ◌+◌, ◌-◌, ◌*◌, ◌<◌, ◌≤◌, length, slice_index, slice_index_or, ℕ};
ghost use Rattle.std.specs.List.Sorted.{IsNonDecreasingBy};
ghost use Rattle.class_table.specs.Counts.{AreAtMost, AreCounts};

/// The most numbers that are counted.
pub(crate) const MOST_NUMBERS: usize = 33;

/// The numbers of a table of counts.
pub(crate) const COUNTS: usize = 1024;

/// The largest step of a table of counts.
pub(crate) const LARGEST_STEP: u32 = 128;

/// How many of these ascending numbers are at most `n`, where the first `known` of them are.
pub(crate) fn count_up_to(numbers: &[u32], n: u32, known: u8) -> u32
    requires few { length numbers.now ≤ MOST_NUMBERS }
    requires ascending { IsNonDecreasingBy (λ number. number) numbers.now }
    requires known { AreAtMost numbers.now n known }
    ensures bound { result ≤ length numbers.now }
    ensures below { (k d : ℕ) → k < length numbers.now → k < result → slice_index_or numbers.now k d ≤ n }
    ensures above { (k d : ℕ) → result ≤ k → k < length numbers.now → n < slice_index_or numbers.now k d }
{
    let mut count = usize::from(known);
    // the label names the loop's invariant in proofs/
    'numbers: while count < numbers.len() && numbers[count] <= n {
        count += 1;
    }
    count as u32
}

/// What `count_up_to` returns, where the last of the numbers is above `n`.
pub(crate) fn count_below_last(numbers: &[u32], n: u32, known: u8) -> usize
    requires ascending { IsNonDecreasingBy (λ number. number) numbers.now }
    requires known { AreAtMost numbers.now n known }
    requires last { n < slice_index numbers.now (length numbers.now - 1) }
    ensures bound { result ≤ length numbers.now }
    ensures below { (k d : ℕ) → k < length numbers.now → k < result → slice_index_or numbers.now k d ≤ n }
    ensures above { (k d : ℕ) → result ≤ k → k < length numbers.now → n < slice_index_or numbers.now k d }
{
    let mut count = usize::from(known);
    // the label names the loop's invariant in proofs/
    'numbers: while numbers[count] <= n {
        count += 1;
    }
    count
}

/// For each of 1,024 numbers from 0 on, each `step` above the one before, how many of these ascending numbers are at most that one. A search
/// that begins there ends soon.
pub(crate) fn counts_at(numbers: &[u32], step: u32) -> [u8; COUNTS]
    requires few { length numbers.now ≤ MOST_NUMBERS }
    requires ascending { IsNonDecreasingBy (λ number. number) numbers.now }
    requires step { step ≤ LARGEST_STEP }
    ensures { AreCounts result step numbers.now }
{
    let mut counts = [0; COUNTS];
    let mut count = 0;
    for place in 0..COUNTS {
        count = count_up_to(numbers, step * place as u32, count) as u8;
        counts[place] = count;
    }
    counts
}
