//! The counted sizes, one after the other.
ghost use Rattle.std.specs.Prelude.{◌≡◌, ℕ, ◌+◌, ◌<◌, ◌≤◌, IsTrue, length, slice_index};
ghost use Rattle.profile_count.specs.Counts.{IsNextCounted};
ghost use Rattle.profile_count.specs.declared.counted_sizes.TheConstants.{BLOCK};

// how many sizes are looked at together
const BLOCK: usize = 8;

/// The first size from one on that is counted, or how many there are if there is none. Mostly few sizes are counted, so the
/// others are passed over in blocks.
pub(crate) fn next_counted(counts: &[u32], from: usize) -> usize
    ensures { IsNextCounted counts.now from result }
{
    if from < counts.len() && counts[from] > 0 {
        return from;
    }
    let mut n = from;
    // before this size a whole block is left
    let end = counts.len().saturating_sub(BLOCK - 1);
    while n < end && is_none_counted(counts, n) {
        n += BLOCK;
    }
    while n < counts.len() && counts[n] == 0 {
        n += 1;
    }
    n
}

// whether no size of a block is counted
fn is_none_counted(counts: &[u32], start: usize) -> bool
    requires { start + BLOCK ≤ length counts.now }
    ensures { IsTrue result → (n : ℕ) → start ≤ n → n < start + BLOCK → slice_index counts.now n ≡ 0 }
{
    // (all are looked at: then the compiler joins the tests)
    let mut is_none = true;
    for n in start..start + BLOCK {
        is_none &= counts[n] == 0;
    }
    is_none
}
