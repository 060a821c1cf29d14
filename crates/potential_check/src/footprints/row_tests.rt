//! The conditions on the rows of a certificate over any source of costs.
ghost use Rattle.std.specs.Prelude.{◌≡◌, ◌≢◌, ◌↔◌, ℕ, ◌+◌, ◌-◌, ◌^◌, ◌<◌, ◌≤◌, [], length, max, slice_index, slice_index_or};
ghost use Rattle.std.specs.Prelude.{IfOk, IsTrue, OnErr, OnOk};
ghost use Rattle.potential_check.specs.Footprints.AlikeRows.{AreAlikeFrom};
ghost use Rattle.potential_check.specs.Footprints.Bounds.{AreBounds, AreRowBounds, IsFresh, IsSlack};
ghost use Rattle.potential_check.specs.Footprints.CallCounts.{span_count};
ghost use Rattle.potential_check.specs.Footprints.RowConditions.{AreBoth, AreRowTests, AreRowsAt, AreTestsAt};
ghost use Rattle.potential_check.specs.Footprints.RowConditions.{DropsHoldAt, EdgeHoldsAt, EdgesHoldAt, WithinEdges};
ghost use Rattle.tuner_theory.specs.Lists.{lists_of};
ghost use Rattle.tuner_theory.specs.Rows.{HasShape, number_at};

use crate::certificates::Rows;
use crate::footprints::slack::{BLOCK, WHOLE_SLACK, lower_slack, no_bounds};
use crate::footprints::span_costs::SpanCosts;
use crate::measured_load::RowTests;
use class_table::MOST_NEEDS;
use std::alloc::{AllocError, Global};
use std::mem::swap;

/// Tests the numbers of rows against a source of at most 1,023 places and fewer than 2^62 calls. Each row, of at most 65,536, must have a
/// number for each place. The function asks for the cost of each span once: D(D + 1)/2 costs over D places. The only error is that the
/// allocator refuses memory. The source was not asked then.
pub fn test_rows<C: SpanCosts>(
    alloc: Global,
    costs: &mut C,
    rows: &Rows,
) -> Result<RowTests, AllocError>
    requires places { C.place_count costs.old ≤ MOST_NEEDS }
    requires shape { HasShape rows.now (length rows.now) (C.place_count costs.old) }
    requires few { length rows.now ≤ 2 ^ 16 }
    requires room { C.call_count costs.old < 2 ^ 62 }
    ensures tests { IfOk result (AreRowTests (C.cost costs.old) (C.place_count costs.old) rows.now) }
    ensures counted { OnOk result (costs.new ≡ C.after_calls costs.old (span_count (C.place_count costs.old))) }
    ensures not_asked { OnErr result (costs.new ≡ costs.old) }
{
    let places = costs.places();
    let mut held = take_buffers(alloc, rows.len(), places)?;
    Ok(tests_of(
        costs,
        rows,
        &mut held.from,
        &mut held.older,
        &mut held.slack,
        &mut held.bounds,
        places,
    ))
}

// what the tests need of memory
#[derive(Drop)]
struct Buffers {
    // the costs from a place
    from: Vec<u64>,
    // those from the next place
    older: Vec<u64>,
    // the slack of each block
    slack: Vec<u64>,
    // for each row the bound of each block
    bounds: Vec<Vec<u64>>,
}

// the memory for so many rows over so many places
fn take_buffers(alloc: Global, limit: usize, places: usize) -> Result<Buffers, AllocError>
    requires few { places ≤ MOST_NEEDS }
    ensures { IfOk result
        (λ h. IsFresh limit places h.from.items h.older.items h.slack.items (lists_of h.bounds.items)) }
{
    let blocks = places / BLOCK + 1;
    let bounds = no_bounds(alloc, limit, blocks)?;
    let slack = vec![in alloc; WHOLE_SLACK; blocks]?;
    let from = vec![in alloc; 0u64; places + 1]?;
    let older = vec![in alloc; 0u64; places + 1]?;
    Ok(Buffers {
        from,
        older,
        slack,
        bounds,
    })
}

// the tests in this memory
fn tests_of<C: SpanCosts>(
    costs: &mut C,
    rows: &Rows,
    from: &mut Vec<u64>,
    older: &mut Vec<u64>,
    slack: &mut [u64],
    bounds: &mut [Vec<u64>],
    places: usize,
) -> RowTests
    requires are_places { places ≡ C.place_count costs.old }
    requires few_places { places ≤ MOST_NEEDS }
    requires shape { HasShape rows.now (length rows.now) places }
    requires few { length rows.now ≤ 2 ^ 16 }
    requires room { C.call_count costs.old < 2 ^ 62 }
    requires fresh { IsFresh (length rows.now) places from.old.items older.old.items slack.old (lists_of bounds.old) }
    ensures tests { AreRowTests (C.cost costs.old) places rows.now result }
    ensures counted { costs.new ≡ C.after_calls costs.old (span_count places) }
{
    let mut tests = RowTests {
        last_class: true,
        stage_drop: true,
        edge: true,
    };
    let mut alike = 1;
    for i in (0..places).rev() {
        swap(from, older);
        costs.write_from(i, from);
        lower_slack(older, from, slack, i, places);
        tests = both_tests(
            &tests,
            &tests_at(from, rows, slack, bounds, i, places, &mut alike),
        );
    }
    tests
}

// The tests at place i, by the costs from there. `alike` says from which row on all rows have the numbers of the row before them, at the
// later places, and then at place i too.
fn tests_at(
    costs: &[u64],
    rows: &Rows,
    slack: &[u64],
    bounds: &mut [Vec<u64>],
    i: usize,
    places: usize,
    alike: &mut usize,
) -> RowTests
    requires rows { AreRowsAt costs.now rows.now places i }
    requires slack { IsSlack places slack.now }
    requires bounds { let limit = length rows.now in
        AreRowBounds costs.now slack.now i places limit (number_at rows.now) (lists_of bounds.old) }
    requires alike { AreAlikeFrom (number_at rows.now) (length rows.now) (i + 1) alike.old }
    ensures tests { AreTestsAt costs.now places rows.now i result }
    ensures bounds { let limit = length rows.now in
        AreRowBounds costs.now slack.now i places limit (number_at rows.now) (lists_of bounds.new) }
    ensures alike { AreAlikeFrom (number_at rows.now) (length rows.now) i alike.new }
{
    let last_class = rows.number(1, i) <= costs[places];
    let stage_drop = drops_hold_at(rows, i);
    let edge = edges_hold_at(costs, rows, slack, bounds, i, places, alike);
    RowTests {
        last_class,
        stage_drop,
        edge,
    }
}

// which conditions both meet
fn both_tests(one: &RowTests, other: &RowTests) -> RowTests
    ensures { AreBoth one.now other.now result }
{
    RowTests {
        last_class: both_hold(one.last_class, other.last_class),
        stage_drop: both_hold(one.stage_drop, other.stage_drop),
        edge: both_hold(one.edge, other.edge),
    }
}

// whether both hold
fn both_hold(one: bool, other: bool) -> bool
    ensures { IsTrue result ↔ (IsTrue one × IsTrue other) }
{
    one && other
}

// whether no later row is above the row before at place i
fn drops_hold_at(rows: &Rows, i: usize) -> bool
    requires { length rows.now ≤ 2 ^ 16 }
    ensures { IsTrue result ↔ DropsHoldAt rows.now i (length rows.now) }
{
    let mut above = rows.number(1, i);
    for k in 1..rows.len() {
        let number = rows.number(k + 1, i);
        if number > above {
            return false;
        }
        above = number;
    }
    true
}

// Whether each later row is within its edges at place i. Where a row has the numbers of the row before it, at place i too, and so has the row
// before, the edges are the same.
fn edges_hold_at(
    costs: &[u64],
    rows: &Rows,
    slack: &[u64],
    bounds: &mut [Vec<u64>],
    i: usize,
    places: usize,
    alike: &mut usize,
) -> bool
    requires rows { AreRowsAt costs.now rows.now places i }
    requires slack { IsSlack places slack.now }
    requires bounds { let limit = length rows.now in
        AreRowBounds costs.now slack.now i places limit (number_at rows.now) (lists_of bounds.old) }
    requires alike { AreAlikeFrom (number_at rows.now) (length rows.now) (i + 1) alike.old }
    ensures edges { IsTrue result ↔ EdgesHoldAt costs.now rows.now places i (length rows.now) }
    ensures bounds { let limit = length rows.now in
        AreRowBounds costs.now slack.now i places limit (number_at rows.now) (lists_of bounds.new) }
    ensures alike { AreAlikeFrom (number_at rows.now) (length rows.now) i alike.new }
{
    let later = *alike;
    let mut here = later;
    let mut above = rows.number(1, i);
    for k in 1..rows.len() {
        let number = rows.number(k + 1, i);
        let is_known = is_as_above(later, k, number, above);
        let before = rows.row(k - 1);
        if !edge_holds_in(costs, before, slack, bounds, k, number, i, is_known) {
            *alike = rows.len();
            return false;
        }
        here = alike_with(here, k, number, above);
        above = number;
    }
    *alike = here;
    true
}

// whether a row has at a place the number of the row before it, after a row from which on all are alike at the later places
fn is_as_above(alike: usize, k: usize, number: u64, above: u64) -> bool
    ensures after { IsTrue result → alike < k }
    ensures same { IsTrue result → number ≡ above }
{
    alike < k && number == above
}

/// From which row on, counted from 0, all rows up to the one after row `k` have the number of the row before them, if those up to row `k`
/// have it from row `alike` on. `number` is that of the row after row `k`, and `above` that of row `k`.
pub fn alike_with(alike: usize, k: usize, number: u64, above: u64) -> usize
    requires { k < 2 ^ 16 }
    ensures alike { number ≡ above → result ≡ alike }
    ensures unlike { number ≢ above → result ≡ max alike (k + 1) }
    ensures order { alike ≤ result }
    ensures same { result ≤ k → number ≡ above }
{
    if number == above {
        return alike;
    }
    alike.max(k + 1)
}

// whether a number at place i is within its edges to the later places, if that is not known, by the bounds of one row
fn edge_holds_in(
    costs: &[u64],
    before: &[u64],
    slack: &[u64],
    bounds: &mut [Vec<u64>],
    k: usize,
    number: u64,
    i: usize,
    is_known: bool,
) -> bool
    requires row { k < length bounds.old }
    requires size { length costs.now ≡ length before.now + 1 }
    requires place { i < length before.now }
    requires short { length before.now ≤ 2 ^ 16 }
    requires slack { IsSlack (length before.now) slack.now }
    requires bounds { let its = slice_index_or (lists_of bounds.old) k [] in
        AreBounds costs.now slack.now i (length before.now) (slice_index before.now) its }
    requires known { IsTrue is_known → EdgeHoldsAt costs.now before.now number i }
    ensures edge { IsTrue result ↔ EdgeHoldsAt costs.now before.now number i }
    ensures others { (m : ℕ) → m ≢ k
        → slice_index_or (lists_of bounds.new) m [] ≡ slice_index_or (lists_of bounds.old) m [] }
    ensures bounds { let its = slice_index_or (lists_of bounds.new) k [] in
        AreBounds costs.now slack.now i (length before.now) (slice_index before.now) its }
{
    is_known || edge_holds_at(costs, before, slack, &mut bounds[k], number, i)
}

// Whether a number at place i is within its edges to the later places. A block of ends is passed over where its bound shows that the number
// is within all of them.
fn edge_holds_at(
    costs: &[u64],
    before: &[u64],
    slack: &[u64],
    bounds: &mut [u64],
    number: u64,
    i: usize,
) -> bool
    requires size { length costs.now ≡ length before.now + 1 }
    requires place { i < length before.now }
    requires short { length before.now ≤ 2 ^ 16 }
    requires slack { IsSlack (length before.now) slack.now }
    requires bounds { AreBounds costs.now slack.now i (length before.now) (slice_index before.now) bounds.old }
    ensures edge { IsTrue result ↔ EdgeHoldsAt costs.now before.now number i }
    ensures bounds { AreBounds costs.now slack.now i (length before.now) (slice_index before.now) bounds.new }
{
    let last = before.len();
    // the ends up to the next block have no bound
    let first = i + 1;
    let stop = ((first / BLOCK + 1) * BLOCK).min(last);
    if !is_within(costs, before, number, first, stop) {
        return false;
    }
    let blocks = (last - 1) / BLOCK + 1;
    let mut block = next_block(bounds, slack, first / BLOCK + 1, blocks, number);
    while block < blocks {
        let start = block * BLOCK;
        let low = least_of(costs, before, start, (start + BLOCK).min(last));
        bounds[block] = low.saturating_add(slack[block]);
        if number > low {
            return false;
        }
        block = next_block(bounds, slack, block + 1, blocks, number);
    }
    number <= costs[last]
}

// whether a number is within the edges to some ends
fn is_within(costs: &[u64], before: &[u64], number: u64, start: usize, stop: usize) -> bool
    requires in_costs { stop ≤ length costs.now }
    requires in_numbers { stop ≤ length before.now }
    ensures { IsTrue result ↔ WithinEdges costs.now before.now number start stop }
{
    for j in start..stop {
        // (no sum, which might not fit 64 bits)
        if before[j] < number && costs[j] < number - before[j] {
            return false;
        }
    }
    true
}

// the next block whose bound does not show that the number is within the edges to all of its ends
fn next_block(bounds: &[u64], slack: &[u64], from: usize, blocks: usize, number: u64) -> usize
    requires bounds { blocks ≤ length bounds.now }
    requires slack { blocks ≤ length slack.now }
    ensures order { from ≤ result }
    ensures past { (b : ℕ) → from ≤ b → b < result
        → number ≤ slice_index bounds.now b - slice_index slack.now b }
{
    for block in from..blocks {
        if number > bounds[block].saturating_sub(slack[block]) {
            return block;
        }
    }
    from.max(blocks)
}

// the greatest number that is within the edges to some ends
fn least_of(costs: &[u64], before: &[u64], start: usize, stop: usize) -> u64
    requires order { start ≤ stop }
    requires in_costs { stop ≤ length costs.now }
    requires in_numbers { stop ≤ length before.now }
    ensures within { WithinEdges costs.now before.now result start stop }
    ensures greatest { (number : ℕ) → number < 2 ^ 64 → WithinEdges costs.now before.now number start stop
        → number ≤ result }
{
    if stop == start + BLOCK {
        return least_of_block(costs, before, start);
    }
    let mut low = u64::MAX;
    for j in start..stop {
        // (no sum, which might not fit 64 bits)
        low = low.min(costs[j].saturating_add(before[j]));
    }
    low
}

// the same of a whole block: so the compiler knows how many ends there are
#[inline(always)]
fn least_of_block(costs: &[u64], before: &[u64], start: usize) -> u64
    requires in_costs { start + BLOCK ≤ length costs.now }
    requires in_numbers { start + BLOCK ≤ length before.now }
    ensures within { WithinEdges costs.now before.now result start (start + BLOCK) }
    ensures greatest { (number : ℕ) → number < 2 ^ 64
        → WithinEdges costs.now before.now number start (start + BLOCK) → number ≤ result }
{
    let mut low = u64::MAX;
    for k in 0..BLOCK {
        low = low.min(costs[start + k].saturating_add(before[start + k]));
    }
    low
}
