//! The slack of the blocks of ends. A place has no lower costs than the next one. So a bound that was found at a later place is raised, for
//! all rows at once, by lowering the slack of its block.
ghost use Rattle.std.specs.Prelude.{◌≡◌, ℕ, ◌+◌, ◌-◌, ◌*◌, ◌<◌, ◌≤◌, IfOk, length, slice_index};
ghost use Rattle.potential_check.specs.Footprints.Bounds.{AreZeros, IsNarrowed};
ghost use Rattle.tuner_theory.specs.Lists.{lists_of};

use std::alloc::{AllocError, Global};

/// How many ends a block has: those whose number, divided by this one, is the block's.
pub const BLOCK: usize = 16;

/// The slack at the beginning. No cost grows by more than that.
pub const WHOLE_SLACK: u64 = 1 << 60;

/// No bounds for so many rows of blocks. The only error is that the allocator refuses memory.
pub fn no_bounds(alloc: Global, limit: usize, blocks: usize) -> Result<Vec<Vec<u64>>, AllocError>
    ensures { IfOk result (λ bounds. AreZeros limit blocks (lists_of bounds.items)) }
{
    let mut bounds = Vec::new(alloc);
    for _ in 0..limit {
        bounds.push(vec![in alloc; 0u64; blocks]?)?;
    }
    Ok(bounds)
}

/// Lowers the slack of each block by the least that the cost of one of its ends has grown from the place after this one. The costs are
/// those of the spans from both places, by their ends.
pub fn lower_slack(older: &[u64], costs: &[u64], slack: &mut [u64], place: usize, places: usize)
    requires within { place < places }
    requires older { length older.now ≡ places + 1 }
    requires costs { length costs.now ≡ places + 1 }
    requires long { places < BLOCK * length slack.old }
    requires grow { (j : ℕ) → place + 1 < j → j ≤ places → slice_index older.now j ≤ slice_index costs.now j }
    ensures { IsNarrowed older.now costs.now place places slack.old slack.new }
{
    // (the first of these blocks has only ends after the next place)
    for block in (place + 1) / BLOCK + 1..(places - 1) / BLOCK + 1 {
        let start = block * BLOCK;
        let growth = least_growth(older, costs, start, (start + BLOCK).min(places));
        slack[block] = slack[block].saturating_sub(growth);
    }
}

// the least that a cost has grown
fn least_growth(older: &[u64], costs: &[u64], start: usize, stop: usize) -> u64
    requires in_older { stop ≤ length older.now }
    requires in_costs { stop ≤ length costs.now }
    requires grow { (j : ℕ) → start ≤ j → j < stop → slice_index older.now j ≤ slice_index costs.now j }
    ensures least { (j : ℕ) → start ≤ j → j < stop → result ≤ slice_index costs.now j - slice_index older.now j }
    ensures grown { start < stop
        → (j : ℕ) × (start ≤ j) × (j < stop) × (result ≡ slice_index costs.now j - slice_index older.now j) }
{
    if BLOCK <= stop && stop - BLOCK == start {
        return least_of_block(older, costs, start);
    }
    let mut growth = u64::MAX;
    for j in start..stop {
        growth = growth.min(costs[j] - older[j]);
    }
    growth
}

// the same of a whole block: so the compiler knows how many costs there are
#[inline(always)]
fn least_of_block(older: &[u64], costs: &[u64], start: usize) -> u64
    requires in_older { start + BLOCK ≤ length older.now }
    requires in_costs { start + BLOCK ≤ length costs.now }
    requires grow { (j : ℕ) → start ≤ j → j < start + BLOCK → slice_index older.now j ≤ slice_index costs.now j }
    ensures least { (j : ℕ) → start ≤ j → j < start + BLOCK
        → result ≤ slice_index costs.now j - slice_index older.now j }
    ensures grown { (j : ℕ) × (start ≤ j) × (j < start + BLOCK)
        × (result ≡ slice_index costs.now j - slice_index older.now j) }
{
    let mut growth = u64::MAX;
    for k in 0..BLOCK {
        growth = growth.min(costs[start + k] - older[start + k]);
    }
    growth
}
