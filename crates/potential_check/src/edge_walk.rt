//! Rows whose numbers are each as large as their edges allow, as a tuner writes them. Their ends ascend from place to place. So one walk
//! down the places and the ends covers all edges. It computes at most one bound for each place and two for each end, so three for each
//! place, where the halving computes some ten. What a bound has of a place or an end is read once, when the walk comes to it.
ghost use Rattle.std.specs.Prelude.{◌≡◌, ◌↔◌, ℕ, ◌+◌, ◌<◌, ◌≤◌, slice_index, IfNone, IfSome, IsTrue};
ghost use Rattle.class_table.specs.Steps.{IsStep};
ghost use Rattle.potential_check.specs.EdgeWalk.{IsEnd, IsStart};
ghost use Rattle.potential_check.specs.RowConditions.{AreTight, EdgesHold, HasTightEnd, IsBoundedRow, IsTightEnd, edge_bound};
ghost use Rattle.tuner_theory.specs.Spans.{places};

use crate::certificates::{Spans, number_in_row};
use class_table::GRANULE_BYTES;

// a place of a row, with the number there and the sums up to it
#[derive(Clone, Copy)]
struct Start {
    place: usize,
    number: u64,
    requests: u64,
    bytes: u64,
}

// An end, with the payload of its class and the bytes asked for up to it. The reach is the payload of all requests up to it, and the number
// there of the row before.
#[derive(Clone, Copy)]
struct End {
    place: usize,
    payload: u64,
    bytes: u64,
    reach: u64,
}

/// Whether each number of a row is within its edges, and exactly what one of them allows.
/// Not inlined: in a large caller the walk's values would be kept in memory.
#[inline(never)]
pub(crate) fn is_tight_row(spans: &Spans, before: &[u64], row: &[u64]) -> bool
    requires step { IsStep spans.now.step }
    requires before { IsBoundedRow spans.now before.now }
    requires row { IsBoundedRow spans.now row.now }
    ensures { IsTrue result ↔ (EdgesHold spans.now before.now row.now × AreTight spans.now before.now row.now) }
{
    if row.is_empty() {
        return true;
    }
    let mut end = end_with(spans, before, row.len(), 0);
    let mut next = start_at(spans, row, row.len());
    for place in (0..row.len()).rev() {
        let start = start_at(spans, row, place);
        match tight_end(spans, before, row, start, next, end) {
            Some(tight) => end = tight,
            None => return false,
        }
        next = start;
    }
    first_edges_hold(spans, before, row, end.place)
}

// The end for this place whose edge allows exactly the number here, searched from the end of the next place downwards. On the way the
// search tests the edges of both places to the ends in between. `None` if a number is more than such an edge allows, or there is no such
// end.
#[inline(always)]
fn tight_end(
    spans: &Spans,
    before: &[u64],
    row: &[u64],
    start: Start,
    next: Start,
    last: End,
) -> Option<End>
    requires before { IsBoundedRow spans.now before.now }
    requires start { IsStart spans.now row.now start }
    requires next { IsStart spans.now row.now next × (next.place ≡ start.place + 1) }
    requires last { IsEnd spans.now before.now last × (start.place < last.place) }
    ensures end { IfSome result (IsEnd spans.now before.now) }
    ensures some { IfSome result (λ end. IsTightEnd spans.now before.now row.now start.place last.place end.place) }
    ensures none { IfNone result (HasTightEnd spans.now before.now row.now start.place last.place
        → EdgesHold spans.now before.now row.now → ⊥) }
{
    let mut end = last;
    // the label names the loop's invariant in proofs/
    'end: loop {
        let (number, bound) = sides(spans, before, row, start, end);
        // Two tests, since the compiler would compute an `Ordering` before it tests that.
        if number == bound {
            return Some(end);
        }
        if number > bound || end.place == next.place {
            return None;
        }
        end = end_at(spans, before, end.place - 1);
        if next.place < end.place && exceeds_edge(spans, before, row, next, end) {
            return None;
        }
    }
}

// whether the first number is within its edges to all ends before this one
fn first_edges_hold(spans: &Spans, before: &[u64], row: &[u64], end: usize) -> bool
    requires before { IsBoundedRow spans.now before.now }
    requires row { IsBoundedRow spans.now row.now }
    requires within { end ≤ places spans.now.counts spans.now.step }
    ensures { IsTrue result
        ↔ ((j : ℕ) → 0 < j → j < end → slice_index row.now 0 ≤ edge_bound spans.now before.now 0 j) }
{
    let start = start_at(spans, row, 0);
    for j in 1..end {
        if exceeds_edge(spans, before, row, start, end_at(spans, before, j)) {
            return false;
        }
    }
    true
}

// what the walk has of a place; after the last number of the row it is 0
#[inline(always)]
fn start_at(spans: &Spans, row: &[u64], place: usize) -> Start
    requires row { IsBoundedRow spans.now row.now }
    requires within { place ≤ places spans.now.counts spans.now.step }
    ensures start { IsStart spans.now row.now result }
    ensures place { result.place ≡ place }
{
    Start {
        place,
        number: number_in_row(row, place),
        requests: spans.requests_up_to(place),
        bytes: spans.bytes_up_to(place),
    }
}

// what the walk has of an end before the last place
#[inline(always)]
fn end_at(spans: &Spans, before: &[u64], place: usize) -> End
    requires before { IsBoundedRow spans.now before.now }
    requires some { 0 < place }
    requires within { place < places spans.now.counts spans.now.step }
    ensures end { IsEnd spans.now before.now result }
    ensures place { result.place ≡ place }
{
    end_with(spans, before, place, before[place])
}

// what the walk has of an end, where this is the number there of the row before
#[inline(always)]
fn end_with(spans: &Spans, before: &[u64], place: usize, number: u64) -> End
    requires before { IsBoundedRow spans.now before.now }
    requires some { 0 < place }
    requires within { place ≤ places spans.now.counts spans.now.step }
    requires number { number ≡ slice_index before.now place }
    ensures end { IsEnd spans.now before.now result }
    ensures place { result.place ≡ place }
{
    let payload = u64::from(GRANULE_BYTES) * (u64::from(spans.need(place)) - 1);
    End {
        place,
        payload,
        bytes: spans.bytes_up_to(place),
        reach: payload * spans.requests_up_to(place) + number,
    }
}

// The number at a place and the most that it may be by its edge to an end, each with the same added to it. So no product is subtracted from
// another.
#[inline(always)]
fn sides(spans: &Spans, before: &[u64], row: &[u64], start: Start, end: End) -> (u64, u64)
    requires order { start.place < end.place }
    requires start { IsStart spans.now row.now start }
    requires end { IsEnd spans.now before.now end }
    ensures { (more : ℕ) × (result.0 ≡ slice_index row.now start.place + more)
        × (result.1 ≡ edge_bound spans.now before.now start.place end.place + more) }
{
    let more = end.payload * start.requests + (end.bytes - start.bytes);
    (start.number + more, end.reach)
}

// whether the number at a place is more than its edge to an end allows
#[inline(always)]
fn exceeds_edge(spans: &Spans, before: &[u64], row: &[u64], start: Start, end: End) -> bool
    requires order { start.place < end.place }
    requires start { IsStart spans.now row.now start }
    requires end { IsEnd spans.now before.now end }
    ensures { IsTrue result
        ↔ (edge_bound spans.now before.now start.place end.place < slice_index row.now start.place) }
{
    let (number, bound) = sides(spans, before, row, start, end);
    number > bound
}
