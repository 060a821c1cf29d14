//! One row by halving. The middle place comes first. By the law on spans that cross, a later place has no earlier least end. So the places
//! before the middle need only the ends up to its least end, and the places after it only the ends from there on.
ghost use Rattle.std.specs.Prelude.{◌≡◌, ◌+◌, ◌-◌, ◌*◌, ◌^◌, ◌≤◌, slice_index};
ghost use Rattle.class_tuner.specs.CallCounts.{AreCallsForPart};
ghost use Rattle.class_tuner.specs.Filling.{AreEndsBetween, IsEndBetween, IsFilledWithin, IsLeastAt, IsPart, IsSmallRow, KeepsOutside};
ghost use Rattle.class_tuner.specs.SourceChanges.{OnlyCounts};
ghost use Rattle.class_tuner.specs.Windows.{IsWindowAfter};

use crate::cost_source::CostSource;
use class_table::MOST_NEEDS;
use std::ops::Range;

/// The window of ends from `low` to `high`, both included.
#[derive(Clone, Copy)]
pub(crate) struct Window {
    /// The least end, a place.
    pub low: usize,
    /// The greatest end, a place.
    pub high: usize,
}

/// Fills a part of a row and of its ends, `before` being the row before it. The window has the least ends of the part's places.
/// The part and its window are two small structs: so they are passed in registers, and the compiler makes a loop of the last call.
pub(crate) fn fill_part<C: CostSource>(
    costs: &mut C,
    before: &[u64],
    row: &mut [u64],
    ends: &mut [usize],
    part: Range<usize>,
    window: Window,
)
    requires before { IsSmallRow (C.place_count costs.old) before.now }
    requires part { IsPart (C.place_count costs.old) row.old ends.old part window }
    requires between { AreEndsBetween (C.cost costs.old) (C.place_count costs.old) before.now part.start part.end
        window.low window.high }
    requires room { C.call_count costs.old + MOST_NEEDS * (part.end - part.start) ≤ 2 ^ 63 }
    ensures filled { IsFilledWithin (C.cost costs.old) (C.place_count costs.old) before.now row.new ends.new
        part.start part.end }
    ensures kept { KeepsOutside row.old row.new ends.old ends.new part }
    ensures calls { AreCallsForPart (C.call_count costs.old) (C.call_count costs.new) ends.new part window }
    ensures only_counts { OnlyCounts C.CostSource costs.old costs.new }
{
    if part.start < part.end {
        let middle = part.start + (part.end - part.start) / 2;
        let first = window.low.max(middle + 1);
        let (cost, end) = least_end(costs, before, middle, first, window.high);
        row[middle] = cost;
        ends[middle] = end;
        if part.end - part.start == 1 {
            return;
        }
        let left = Window {
            high: end,
            ..window
        };
        let right = Window { low: end, ..window };
        fill_part(costs, before, row, ends, part.start..middle, left);
        fill_part(costs, before, row, ends, middle + 1..part.end, right);
    }
}

// The least cost of a place over its ends from `low` to `high`, with the least end that has it.
fn least_end<C: CostSource>(
    costs: &mut C,
    before: &[u64],
    place: usize,
    low: usize,
    high: usize,
) -> (u64, usize)
    requires before { IsSmallRow (C.place_count costs.old) before.now }
    requires window { IsWindowAfter place low high (C.place_count costs.old) }
    requires between { IsEndBetween (C.cost costs.old) (C.place_count costs.old) before.now place low high }
    requires room { C.call_count costs.old + (high - low) + 1 ≤ 2 ^ 63 }
    ensures least { let row = slice_index before.now in
        IsLeastAt (C.cost costs.old) (C.place_count costs.old) row place result.0 result.1 }
    ensures inside { (low ≤ result.1) × (result.1 ≤ high) }
    ensures counted { C.call_count costs.new ≡ C.call_count costs.old + (high - low) + 1 }
    ensures only_counts { OnlyCounts C.CostSource costs.old costs.new }
{
    costs.least_end(before, place, low, high)
}
