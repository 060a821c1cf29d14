ghost use Rattle.std.specs.Prelude.{◌≡◌, ◌+◌, ◌^◌, ◌<◌, ◌≤◌, IfOk, OnErr, OnOk};
ghost use Rattle.class_tuner.specs.Fits.PlaceByPlace.{AreCostsFrom, AreOlderCosts, AreReady, AreRowsSoFar, IsFresh, IsPlaceFilled};
ghost use Rattle.potential_check.specs.Footprints.AlikeRows.{AreAlikeFrom};
ghost use Rattle.potential_check.specs.Footprints.CallCounts.{span_count};
ghost use Rattle.tuner_theory.specs.Lists.{lists_of};
ghost use Rattle.tuner_theory.specs.Rows.{IsFilled, number_at};

use crate::fits::place::fill_place;
use crate::row_filling::{FilledRows, unfilled_row};
use class_table::{MOST_CLASSES, MOST_NEEDS};
use potential_check::{BLOCK, SpanCosts, WHOLE_SLACK, lower_slack, no_bounds};
use std::alloc::{AllocError, Global};
use std::mem::swap;

/// The first `limit` (1 to 32) rows of least costs over a source, with their least ends, whatever the costs. The source must have at most
/// 1,023 places and fewer than 2^62 calls. The function asks for the cost of each span once: D(D + 1)/2 costs over D places. The only error
/// is that the allocator refuses memory. The source was not asked then.
pub fn fill_places<C: SpanCosts>(
    alloc: Global,
    costs: &mut C,
    limit: u8,
) -> Result<FilledRows, AllocError>
    requires some { 1 ≤ limit }
    requires few { limit ≤ MOST_CLASSES }
    requires places { C.place_count costs.old ≤ MOST_NEEDS }
    requires room { C.call_count costs.old < 2 ^ 62 }
    ensures filled { IfOk result
        (λ f. IsFilled (C.cost costs.old) (C.place_count costs.old) limit (lists_of f.rows.items)
        (lists_of f.ends.items)) }
    ensures counted { OnOk result (costs.new ≡ C.after_calls costs.old (span_count (C.place_count costs.old))) }
    ensures not_asked { OnErr result (costs.new ≡ costs.old) }
{
    let places = costs.places();
    let limit = limit as usize;
    let mut filled = unfilled_rows(alloc, limit, places)?;
    let memory = fresh_memory(alloc, limit, places)?;
    fill_all(costs, &mut filled.rows, &mut filled.ends, memory, limit);
    Ok(filled)
}

// rows of zeros, and the last place as each end
fn unfilled_rows(alloc: Global, limit: usize, places: usize) -> Result<FilledRows, AllocError>
    ensures { IfOk result (λ f. AreRowsSoFar places limit (lists_of f.rows.items) (lists_of f.ends.items)) }
{
    let mut filled = FilledRows {
        rows: Vec::new(alloc),
        ends: Vec::new(alloc),
    };
    for _ in 0..limit {
        let row = unfilled_row(alloc, places)?;
        filled.push(row)?;
    }
    Ok(filled)
}

// what is kept from place to place, beside the rows
#[derive(Drop)]
struct Memory {
    bounds: Vec<Vec<u64>>,
    slack: Vec<u64>,
    // the costs from the place that was filled last
    from: Vec<u64>,
    // the costs from the place after it
    older: Vec<u64>,
}

// the memory before any place is filled
fn fresh_memory(alloc: Global, limit: usize, places: usize) -> Result<Memory, AllocError>
    requires few { places ≤ MOST_NEEDS }
    ensures { IfOk result (IsFresh limit places) }
{
    let blocks = places / BLOCK + 1;
    let bounds = no_bounds(alloc, limit, blocks)?;
    let slack = vec![in alloc; WHOLE_SLACK; blocks]?;
    let from = vec![in alloc; 0u64; places + 1]?;
    let older = vec![in alloc; 0u64; places + 1]?;
    Ok(Memory {
        bounds,
        slack,
        from,
        older,
    })
}

// fills all places, from the last one on
fn fill_all<C: SpanCosts>(
    costs: &mut C,
    rows: &mut [Vec<u64>],
    ends: &mut [Vec<usize>],
    memory: Memory,
    limit: usize,
)
    requires some { 1 ≤ limit }
    requires few { limit ≤ MOST_CLASSES }
    requires places { C.place_count costs.old ≤ MOST_NEEDS }
    requires room { C.call_count costs.old < 2 ^ 62 }
    requires rows { AreRowsSoFar (C.place_count costs.old) limit (lists_of rows.old) (lists_of ends.old) }
    requires memory { IsFresh limit (C.place_count costs.old) memory }
    ensures filled { IsFilled (C.cost costs.old) (C.place_count costs.old) limit (lists_of rows.new)
        (lists_of ends.new) }
    ensures counted { costs.new ≡ C.after_calls costs.old (span_count (C.place_count costs.old)) }
{
    let places = costs.places();
    let Memory {
        mut bounds,
        mut slack,
        mut from,
        mut older,
    } = memory;
    // from which row on all have the numbers of the row before them
    let mut alike = 1;
    for i in (0..places).rev() {
        swap(&mut from, &mut older);
        costs.write_from(i, &mut from);
        alike = fill_next(
            &older,
            &from,
            &mut slack,
            &mut bounds,
            rows,
            ends,
            i,
            places,
            limit,
            alike,
        );
    }
}

// fills the place before those that are filled; `alike` as in `fill_place`
fn fill_next(
    older: &[u64],
    costs: &[u64],
    slack: &mut [u64],
    bounds: &mut [Vec<u64>],
    rows: &mut [Vec<u64>],
    ends: &mut [Vec<usize>],
    place: usize,
    places: usize,
    limit: usize,
    alike: usize,
) -> usize
    requires some { 1 ≤ limit }
    requires few { limit ≤ MOST_CLASSES }
    requires costs { AreCostsFrom places place costs.now }
    requires older { AreOlderCosts places place older.now costs.now }
    requires ready { AreReady older.now slack.old (place + 1) places limit (lists_of rows.old) (lists_of ends.old)
        (lists_of bounds.old) }
    requires alike { AreAlikeFrom (number_at (lists_of rows.old)) limit (place + 1) alike }
    ensures ready { AreReady costs.now slack.new place places limit (lists_of rows.new) (lists_of ends.new)
        (lists_of bounds.new) }
    ensures filled { IsPlaceFilled costs.now places place limit (lists_of rows.old) (lists_of rows.new)
        (lists_of ends.old) (lists_of ends.new) }
    ensures alike { AreAlikeFrom (number_at (lists_of rows.new)) limit place result }
{
    lower_slack(older, costs, slack, place, places);
    fill_place(
        costs, slack, bounds, rows, ends, place, places, limit, alike,
    )
}
