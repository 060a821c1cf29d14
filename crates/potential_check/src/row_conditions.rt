//! The conditions on the numbers of a sheet's rows. A number may have any 64 bits. So a sum with a number has 128 bits, or the code avoids
//! the sum.
ghost use Rattle.std.specs.Prelude.{◌≡◌, ◌↔◌, ℕ, ◌+◌, ◌<◌, ◌≤◌, length, IsTrue};
ghost use Rattle.class_table.specs.Steps.{IsStep};
ghost use Rattle.potential_check.specs.RowConditions.{EdgesHold, EdgesHoldWithin, IsBoundedRow, LastClassHolds, StageDropHolds, edge_bound};
ghost use Rattle.tuner_theory.specs.Spans.{places};

use crate::certificates::{Spans, number_in_row};
use crate::edge_walk::is_tight_row;
use std::ops::Range;

/// Whether no number of a row is more than what one class for all needs above its place wastes.
pub(crate) fn last_class_holds(spans: &Spans, row: &[u64]) -> bool
    requires { length row.now ≡ places spans.now.counts spans.now.step }
    ensures { IsTrue result ↔ LastClassHolds spans.now row.now }
{
    let last = spans.places();
    for (i, number) in row.iter().enumerate() {
        if *number > spans.waste(i, last) {
            return false;
        }
    }
    true
}

/// Whether no number of a row is more than the one at its place in the row before.
pub(crate) fn stage_drop_holds(before: &[u64], row: &[u64]) -> bool
    ensures { IsTrue result ↔ StageDropHolds before.now row.now }
{
    for (i, number) in row.iter().enumerate() {
        if *number > number_in_row(before, i) {
            return false;
        }
    }
    true
}

/// Whether no number of a row is more than its edge to any later place allows.
pub(crate) fn edges_hold(spans: &Spans, before: &[u64], row: &[u64]) -> bool
    requires before { IsBoundedRow spans.now before.now }
    requires row { IsBoundedRow spans.now row.now }
    ensures { IsTrue result ↔ EdgesHold spans.now before.now row.now }
{
    let last = spans.places();
    is_tight_row(spans, before, row) || edges_hold_within(spans, before, row, 0..last, 0..last + 1)
}

// Whether no number of a part of a row is more than its edge to any of these ends allows.
// The function tests the middle place by its tightest end. By the law on spans that cross, that end is as tight for an earlier place as
// any end after it, and for a later place as any end before it. So earlier places need only the ends up to it, and later places only those
// from it on.
fn edges_hold_within(
    spans: &Spans,
    before: &[u64],
    row: &[u64],
    part: Range<usize>,
    ends: Range<usize>,
) -> bool
    requires step { IsStep spans.now.step }
    requires row { length row.now ≡ places spans.now.counts spans.now.step }
    requires some { ends.start < ends.end }
    requires within { ends.end ≤ places spans.now.counts spans.now.step + 1 }
    requires after { part.end < ends.end }
    ensures { IsTrue result ↔ EdgesHoldWithin spans.now before.now row.now part.start part.end ends.start ends.end }
{
    if part.is_empty() {
        return true;
    }
    let middle = part.start + (part.end - part.start) / 2;
    let (bound, end) = tightest_end(spans, before, middle, ends.start.max(middle + 1)..ends.end);
    if u128::from(row[middle]) > bound {
        return false;
    }
    edges_hold_within(spans, before, row, part.start..middle, ends.start..end + 1)
        && edges_hold_within(spans, before, row, middle + 1..part.end, end..ends.end)
}

// The least of the bounds on a number at place `i` by its edges to these ends, with an end whose edge has it: the tightest end.
fn tightest_end(spans: &Spans, before: &[u64], i: usize, ends: Range<usize>) -> (u128, usize)
    requires after { i < ends.start }
    requires some { ends.start < ends.end }
    requires within { ends.end ≤ places spans.now.counts spans.now.step + 1 }
    ensures listed { (ends.start ≤ result.1) × (result.1 < ends.end) }
    ensures bound { result.0 ≡ edge_bound spans.now before.now i result.1 }
    ensures least { (j : ℕ) → ends.start ≤ j → j < ends.end
        → edge_bound spans.now before.now i result.1 ≤ edge_bound spans.now before.now i j }
{
    let mut end = ends.start;
    let mut least = edge_bound(spans, before, i, end);
    for j in ends.start + 1..ends.end {
        let bound = edge_bound(spans, before, i, j);
        if bound < least {
            end = j;
            least = bound;
        }
    }
    (least, end)
}

// the most that a number at place `i` may be by its edge to place `j`
fn edge_bound(spans: &Spans, before: &[u64], i: usize, j: usize) -> u128
    requires order { i < j }
    requires within { j ≤ places spans.now.counts spans.now.step }
    ensures { result ≡ edge_bound spans.now before.now i j }
{
    u128::from(spans.waste(i, j)) + u128::from(number_in_row(before, j))
}
