//! One place of all rows.
ghost use Rattle.std.specs.Prelude.{◌≡◌, ◌≢◌, ℕ, ◌+◌, ◌^◌, ◌<◌, ◌≤◌, [], length, slice_index, slice_index_or, slice_set};
ghost use Rattle.class_tuner.specs.Fits.PlaceByPlace.{AreCostsFrom, AreReady, IsLeastOf, IsPlaceFilled};
ghost use Rattle.potential_check.specs.Footprints.AlikeRows.{AreAlikeFrom};
ghost use Rattle.potential_check.specs.Footprints.Bounds.{AreBounds, IsSlack};
ghost use Rattle.tuner_theory.specs.Lists.{lists_of};
ghost use Rattle.tuner_theory.specs.Rows.{number_at};

use crate::fits::ends::least_end;
use potential_check::alike_with;

/// Fills a place in all rows and ends. Those of the later places must be filled. `alike` says from which row on, counted from 0, all rows have
/// the numbers of the row before them at the later places, and the result from which one on also at this place.
pub(crate) fn fill_place(
    costs: &[u64],
    slack: &[u64],
    bounds: &mut [Vec<u64>],
    rows: &mut [Vec<u64>],
    ends: &mut [Vec<usize>],
    place: usize,
    places: usize,
    limit: usize,
    alike: usize,
) -> usize
    requires some { 1 ≤ limit }
    requires few { limit ≤ 2 ^ 16 }
    requires costs { AreCostsFrom places place costs.now }
    requires ready { AreReady costs.now slack.now place places limit (lists_of rows.old) (lists_of ends.old)
        (lists_of bounds.old) }
    requires alike { AreAlikeFrom (number_at (lists_of rows.old)) limit (place + 1) alike }
    ensures ready { AreReady costs.now slack.now place places limit (lists_of rows.new) (lists_of ends.new)
        (lists_of bounds.new) }
    ensures filled { IsPlaceFilled costs.now places place limit (lists_of rows.old) (lists_of rows.new)
        (lists_of ends.old) (lists_of ends.new) }
    ensures alike { AreAlikeFrom (number_at (lists_of rows.new)) limit place result }
{
    let mut here = alike;
    let mut above = (costs[places], places);
    set_number(rows, 0, place, above.0);
    set_end(ends, 0, place, above.1);
    for k in 1..limit {
        // mostly the end is that of the next place, or near it
        let hint = end_at(&ends[k], place + 1);
        let before = &rows[k - 1];
        let found = least_end_in(costs, before, slack, bounds, k, place, hint, alike, above);
        set_number(rows, k, place, found.0);
        set_end(ends, k, place, found.1);
        here = alike_with(here, k, found.0, above.0);
        above = found;
    }
    here
}

// the end at a place, and 0 past the last one
fn end_at(ends: &[usize], place: usize) -> usize
    ensures { result ≡ slice_index ends.now place }
{
    ends.get(place).copied().unwrap_or(0)
}

// The least cost of a place over its ends, with the first end that has it, by the bounds of one row. Where that row and the one before it are
// alike, it is what was found for the one before.
fn least_end_in(
    costs: &[u64],
    before: &[u64],
    slack: &[u64],
    bounds: &mut [Vec<u64>],
    k: usize,
    place: usize,
    hint: usize,
    alike: usize,
    above: (u64, usize),
) -> (u64, usize)
    requires row { k < length bounds.old }
    requires costs { AreCostsFrom (length before.now) place costs.now }
    requires small { (j : ℕ) → slice_index before.now j ≤ 2 ^ 60 }
    requires slack { IsSlack (length before.now) slack.now }
    requires bounds { let its = slice_index_or (lists_of bounds.old) k [] in
        AreBounds costs.now slack.now place (length before.now) (slice_index before.now) its }
    requires above { alike < k → IsLeastOf costs.now before.now place above.0 above.1 }
    ensures others { (m : ℕ) → m ≢ k
        → slice_index_or (lists_of bounds.new) m [] ≡ slice_index_or (lists_of bounds.old) m [] }
    ensures bounds { let its = slice_index_or (lists_of bounds.new) k [] in
        AreBounds costs.now slack.now place (length before.now) (slice_index before.now) its }
    ensures least { IsLeastOf costs.now before.now place result.0 result.1 }
{
    if alike < k {
        return above;
    }
    least_end(costs, before, slack, &mut bounds[k], place, hint)
}

// sets a number of a row
fn set_number(rows: &mut [Vec<u64>], index: usize, place: usize, number: u64)
    requires row { index < length rows.old }
    requires place { place < length (slice_index_or (lists_of rows.old) index []) }
    ensures { let row = slice_index_or (lists_of rows.old) index [] in
        lists_of rows.new ≡ slice_set (lists_of rows.old) index (slice_set row place number) }
{
    rows[index][place] = number;
}

// sets an end of a row
fn set_end(ends: &mut [Vec<usize>], index: usize, place: usize, end: usize)
    requires row { index < length ends.old }
    requires place { place < length (slice_index_or (lists_of ends.old) index []) }
    ensures { let row = slice_index_or (lists_of ends.old) index [] in
        lists_of ends.new ≡ slice_set (lists_of ends.old) index (slice_set row place end) }
{
    ends[index][place] = end;
}
