//! The least cost of a place over its ends. The ends are taken in blocks, each with a bound: a block is passed over where its bound shows
//! that none of its ends costs as little as the best so far.
ghost use Rattle.std.specs.Prelude.{◌≡◌, ◌≢◌, ℕ, ◌+◌, ◌-◌, ◌^◌, ◌<◌, ◌≤◌, length, slice_index};
ghost use Rattle.class_tuner.specs.Fits.Ends.{IsBlock, IsLeastSoFar, IsReached};
ghost use Rattle.class_tuner.specs.Fits.PlaceByPlace.{AreCostsFrom, end_cost};
ghost use Rattle.potential_check.specs.Footprints.Bounds.{AreBounds, IsSlack};
ghost use Rattle.potential_check.specs.declared.footprints.slack.TheConstants.{BLOCK};
ghost use Rattle.tuner_theory.specs.Rows.{IsLeastEnd};

use potential_check::BLOCK;

/// The least cost of a place over all its ends, with the first end that has it. The row before has a number for each place but the last.
/// The search begins with a hint, which may be any number. It raises the bounds of the blocks that it looks into.
pub(crate) fn least_end(
    costs: &[u64],
    before: &[u64],
    slack: &[u64],
    bounds: &mut [u64],
    place: usize,
    hint: usize,
) -> (u64, usize)
    requires costs { AreCostsFrom (length before.now) place costs.now }
    requires small { (j : ℕ) → slice_index before.now j ≤ 2 ^ 60 }
    requires slack { IsSlack (length before.now) slack.now }
    requires bounds { AreBounds costs.now slack.now place (length before.now) (slice_index before.now) bounds.old }
    ensures bounds { AreBounds costs.now slack.now place (length before.now) (slice_index before.now) bounds.new }
    ensures least { IsLeastEnd (end_cost costs.now (slice_index before.now)) place (length before.now) result.1 }
    ensures value { result.0 ≡ end_cost costs.now (slice_index before.now) result.1 }
    ensures small { result.0 ≤ slice_index costs.now (length before.now) }
{
    let last = before.len();
    let (guess, guessed) = first_guess(costs, before, place, hint);
    // the ends up to the next block have no bound
    let first = place + 1;
    let stop = ((first / BLOCK + 1) * BLOCK).min(last);
    let near = look_at_first(costs, before, first, stop, guess, guessed);
    let (mut least, mut end) = near;
    let blocks = (last - 1) / BLOCK + 1;
    let mut block = next_block(bounds, slack, first / BLOCK + 1, blocks, least);
    while block < blocks {
        let start = block * BLOCK;
        let seen = look_into(costs, before, start, (start + BLOCK).min(last), least, end);
        bounds[block] = seen.low + slack[block];
        least = seen.least;
        end = seen.end;
        block = next_block(bounds, slack, block + 1, blocks, least);
    }
    (least, end)
}

// the next block whose bound does not show that all of its ends cost more
fn next_block(bounds: &[u64], slack: &[u64], from: usize, blocks: usize, least: u64) -> usize
    requires bounds { blocks ≤ length bounds.now }
    requires slack { blocks ≤ length slack.now }
    requires small { (b : ℕ) → slice_index slack.now b ≤ 2 ^ 60 }
    requires least { least ≤ 2 ^ 60 }
    ensures order { from ≤ result }
    ensures past { (b : ℕ) → from ≤ b → b < result → least + slice_index slack.now b < slice_index bounds.now b }
{
    let mut block = from;
    let last = blocks.saturating_sub(3);
    // (four at once: most blocks are passed over)
    while block < last {
        if bounds[block] <= least + slack[block] {
            return block;
        }
        if bounds[block + 1] <= least + slack[block + 1] {
            return block + 1;
        }
        if bounds[block + 2] <= least + slack[block + 2] {
            return block + 2;
        }
        if bounds[block + 3] <= least + slack[block + 3] {
            return block + 3;
        }
        block += 4;
    }
    for next in block..blocks {
        if bounds[next] <= least + slack[next] {
            return next;
        }
    }
    block.max(blocks)
}

// the cost of the hint, if it is an end that costs less than one class for all places above, or else the cost of that
fn first_guess(costs: &[u64], before: &[u64], place: usize, hint: usize) -> (u64, usize)
    requires costs { AreCostsFrom (length before.now) place costs.now }
    requires small { (j : ℕ) → slice_index before.now j ≤ 2 ^ 60 }
    ensures least { let f = end_cost costs.now (slice_index before.now) in
        IsLeastSoFar f place (place + 1) (length before.now) result.1 }
    ensures value { result.0 ≡ end_cost costs.now (slice_index before.now) result.1 }
{
    let last = before.len();
    if place < hint && hint < last && costs[hint] + before[hint] < costs[last] {
        return (costs[hint] + before[hint], hint);
    }
    (costs[last], last)
}

// Looks at the first ends, one after the other. `end` is none before them. A tie goes to the first end, so one of them wins it against `end`,
// and against another of them it loses it: one comparison serves for both, as what has to be undercut is at first higher by 1.
fn look_at_first(
    costs: &[u64],
    before: &[u64],
    start: usize,
    stop: usize,
    least: u64,
    end: usize,
) -> (u64, usize)
    requires order { start ≤ stop }
    requires block { IsBlock costs.now before.now start stop }
    requires small { least ≤ 2 ^ 60 }
    requires value { least ≡ end_cost costs.now (slice_index before.now) end }
    requires from { start ≤ end }
    ensures least { let f = end_cost costs.now (slice_index before.now) in (place last : ℕ) → place < start
        → stop ≤ last → IsLeastSoFar f place start last end → IsLeastSoFar f place stop last result.1 }
    ensures value { result.0 ≡ end_cost costs.now (slice_index before.now) result.1 }
    ensures small { result.0 ≤ 2 ^ 60 }
{
    let mut below = least + 1;
    let mut first = end;
    for j in start..stop {
        let cost = costs[j] + before[j];
        if cost < below {
            below = cost;
            first = j;
        }
    }
    if below > least {
        return (least, end);
    }
    (below, first)
}

// what is seen in a block
#[derive(Clone, Copy)]
struct BlockScan {
    // no end of the block costs less
    low: u64,
    // the least cost so far, with the first end so far that has it
    least: u64,
    end: usize,
}

// looks into a block of ends after those that were seen before
fn look_into(
    costs: &[u64],
    before: &[u64],
    start: usize,
    stop: usize,
    least: u64,
    end: usize,
) -> BlockScan
    requires order { start ≤ stop }
    requires block { IsBlock costs.now before.now start stop }
    requires small { least ≤ 2 ^ 60 }
    requires value { least ≡ end_cost costs.now (slice_index before.now) end }
    ensures low { (j : ℕ) → start ≤ j → j < stop → result.low ≤ end_cost costs.now (slice_index before.now) j }
    ensures least { let f = end_cost costs.now (slice_index before.now) in (place last : ℕ) → place < start
        → stop ≤ last → IsLeastSoFar f place start last end → IsLeastSoFar f place stop last result.end }
    ensures value { result.least ≡ end_cost costs.now (slice_index before.now) result.end }
    ensures small { result.least ≤ 2 ^ 60 }
{
    let low = least_of(costs, before, start, stop);
    if low > least {
        return BlockScan { low, least, end };
    }
    let first = first_of(costs, before, start, stop, low);
    if low == least && end < first {
        return BlockScan { low, least, end };
    }
    BlockScan {
        low,
        least: low,
        end: first,
    }
}

// the least cost of some ends, if there are any
fn least_of(costs: &[u64], before: &[u64], start: usize, stop: usize) -> u64
    requires order { start ≤ stop }
    requires block { IsBlock costs.now before.now start stop }
    ensures low { (j : ℕ) → start ≤ j → j < stop → result ≤ end_cost costs.now (slice_index before.now) j }
    ensures none { stop ≤ start → result ≡ 2 ^ 64 - 1 }
    ensures reached { start < stop → IsReached (end_cost costs.now (slice_index before.now)) start stop result }
{
    if stop == start + BLOCK {
        return least_of_block(costs, before, start);
    }
    let mut low = u64::MAX;
    for j in start..stop {
        low = low.min(costs[j] + before[j]);
    }
    low
}

// the same of a whole block: so the compiler knows how many ends there are
#[inline(always)]
fn least_of_block(costs: &[u64], before: &[u64], start: usize) -> u64
    requires block { IsBlock costs.now before.now start (start + BLOCK) }
    ensures low { (j : ℕ) → start ≤ j → j < start + BLOCK
        → result ≤ end_cost costs.now (slice_index before.now) j }
    ensures reached { IsReached (end_cost costs.now (slice_index before.now)) start (start + BLOCK) result }
{
    let mut low = u64::MAX;
    for k in 0..BLOCK {
        low = low.min(costs[start + k] + before[start + k]);
    }
    low
}

// the first of some ends that has this cost
fn first_of(costs: &[u64], before: &[u64], start: usize, stop: usize, cost: u64) -> usize
    requires block { IsBlock costs.now before.now start stop }
    requires reached { IsReached (end_cost costs.now (slice_index before.now)) start stop cost }
    ensures from { start ≤ result }
    ensures within { result < stop }
    ensures value { cost ≡ end_cost costs.now (slice_index before.now) result }
    ensures first { (j : ℕ) → start ≤ j → j < result → cost ≢ end_cost costs.now (slice_index before.now) j }
{
    let mut first = start;
    while costs[first] + before[first] != cost {
        first += 1;
    }
    first
}
