ghost use Rattle.std.specs.Prelude.{◌≡◌, ℕ, ◌+◌, ◌-◌, ◌*◌, ◌^◌, ◌<◌, ◌≤◌, [], ◌∷◌, ◌++◌, length, slice_index, IfOk, OnOk};
ghost use Rattle.class_tuner.specs.CallCounts.{bits, calls_of, most_calls, tried_in_row};
ghost use Rattle.class_tuner.specs.Filling.{IsFirstRow, IsNextRow, IsSmallRow};
ghost use Rattle.class_tuner.specs.SourceChanges.{OnlyCounts};
ghost use Rattle.tuner_theory.specs.Lists.{lists_of};
ghost use Rattle.tuner_theory.specs.Rows.{IsFilled, number_at};

use crate::cost_source::CostSource;
use crate::halving::{Window, fill_part};
use class_table::{MOST_CLASSES, MOST_NEEDS};
use std::alloc::{AllocError, Global};

/// Rows of least costs, with their ends. Row k, counted from 1, has at each place the least cost of serving all places above it with at
/// most k spans. The end is where the first of these spans goes; of several ends that give the least cost it is the least.
#[derive(Debug, Drop)]
pub struct FilledRows {
    /// One row of costs for each number of spans. A row has a number for each of the places 0 to D - 1, where D is the number of places.
    pub rows: Vec<Vec<u64>>,
    /// The least ends, in the same shape.
    pub ends: Vec<Vec<usize>>,
}

/// A row and its ends.
#[derive(Drop)]
pub(crate) struct Row {
    /// The costs.
    pub(crate) costs: Vec<u64>,
    /// The ends.
    pub(crate) ends: Vec<usize>,
}

impl FilledRows {
    /// Appends a row. The only error is that the allocator refuses memory.
    pub(crate) fn push(&mut self, row: Row) -> Result<(), AllocError>
        ensures rows { OnOk result (lists_of self.new.rows.items
            ≡ lists_of self.old.rows.items ++ row.costs.items ∷ []) }
        ensures ends { OnOk result (lists_of self.new.ends.items
            ≡ lists_of self.old.ends.items ++ row.ends.items ∷ []) }
    {
        self.rows.push(row.costs)?;
        self.ends.push(row.ends)?;
        Ok(())
    }
}

/// The first `limit` (1 to 32) rows of least costs over a source. The source must have at most 1,023 places and fewer than 2^62 calls.
/// Over D places, at least one, the function asks for at most `limit * ((D - 1) * bits(D) + D)` costs, where `bits(D)` is the number of
/// binary digits of D; over no places it asks for none. The ends of the rows determine how many costs it asks for (`calls_of`).
/// The only error is that the allocator refuses memory. Only the count of calls changes, also after an error.
pub fn fill_rows<C: CostSource>(
    alloc: Global,
    costs: &mut C,
    limit: u8,
) -> Result<FilledRows, AllocError>
    requires some { 1 ≤ limit }
    requires few { limit ≤ MOST_CLASSES }
    requires places { C.place_count costs.old ≤ MOST_NEEDS }
    requires room { C.call_count costs.old < 2 ^ 62 }
    ensures filled { IfOk result
        (λ f. IsFilled (C.cost costs.old) (C.place_count costs.old) limit (lists_of f.rows.items)
        (lists_of f.ends.items)) }
    ensures bounded { C.call_count costs.new ≤ C.call_count costs.old + most_calls limit (C.place_count costs.old) }
    ensures exact { let d = C.place_count costs.old in let before = C.call_count costs.old in
        IfOk result (λ f. C.call_count costs.new ≡ before + calls_of (number_at (lists_of f.ends.items)) d limit) }
    ensures kept { costs.new ≡ C.with_calls costs.old (C.call_count costs.new) }
{
    let mut filled = FilledRows {
        rows: Vec::new(alloc),
        ends: Vec::new(alloc),
    };
    let first = first_row(alloc, costs)?;
    filled.push(first)?;
    for k in 1..limit as usize {
        let next = next_row(alloc, costs, &filled.rows[k - 1])?;
        filled.push(next)?;
    }
    Ok(filled)
}

// the first row: one span from each place to the last one
fn first_row<C: CostSource>(alloc: Global, costs: &mut C) -> Result<Row, AllocError>
    requires few { C.place_count costs.old ≤ MOST_NEEDS }
    requires room { C.call_count costs.old + C.place_count costs.old ≤ 2 ^ 63 }
    ensures first { IfOk result (IsFirstRow (C.cost costs.old) (C.place_count costs.old)) }
    ensures bounded { C.call_count costs.new ≤ C.call_count costs.old + C.place_count costs.old }
    ensures exact { OnOk result (C.call_count costs.new ≡ C.call_count costs.old + C.place_count costs.old) }
    ensures only_counts { OnlyCounts C.CostSource costs.old costs.new }
{
    let mut row = unfilled_row(alloc, costs.places())?;
    fill_first(costs, &mut row.costs);
    Ok(row)
}

/// A row with 0 as each cost and the last place as each end. The only error is that the allocator refuses memory.
pub(crate) fn unfilled_row(alloc: Global, places: usize) -> Result<Row, AllocError>
    ensures costs_length { IfOk result (λ row. length row.costs.items ≡ places) }
    ensures costs { IfOk result (λ row. (i : ℕ) → slice_index row.costs.items i ≡ 0) }
    ensures ends_length { IfOk result (λ row. length row.ends.items ≡ places) }
    ensures ends { IfOk result (λ row. (i : ℕ) → i < places → slice_index row.ends.items i ≡ places) }
{
    let costs = vec![in alloc; 0u64; places]?;
    let ends = vec![in alloc; places; places]?;
    Ok(Row { costs, ends })
}

// fills the first row with its costs
fn fill_first<C: CostSource>(costs: &mut C, row: &mut [u64])
    requires length { length row.old ≡ C.place_count costs.old }
    requires room { C.call_count costs.old + C.place_count costs.old ≤ 2 ^ 63 }
    ensures length { length row.new ≡ length row.old }
    ensures costs { (i : ℕ) → i < length row.old → slice_index row.new i ≡ C.cost costs.old i (length row.old) }
    ensures counted { C.call_count costs.new ≡ C.call_count costs.old + length row.old }
    ensures only_counts { OnlyCounts C.CostSource costs.old costs.new }
{
    let places = row.len();
    for i in 0..places {
        row[i] = ask(costs, i, places);
    }
}

// The cost of the span from i to j, by one call of the source. Its clauses also say what stays the same, for callers that ask often.
fn ask<C: CostSource>(costs: &mut C, i: usize, j: usize) -> u64
    requires order { i < j }
    requires within { j ≤ C.place_count costs.old }
    requires room { C.call_count costs.old < 2 ^ 63 }
    ensures cost { result ≡ C.cost costs.old i j }
    ensures counted { C.call_count costs.new ≡ C.call_count costs.old + 1 }
    ensures only_counts { OnlyCounts C.CostSource costs.old costs.new }
{
    costs.at(i, j)
}

// the row after another one
fn next_row<C: CostSource>(alloc: Global, costs: &mut C, before: &[u64]) -> Result<Row, AllocError>
    requires before { IsSmallRow (C.place_count costs.old) before.now }
    requires room { C.call_count costs.old + MOST_NEEDS * C.place_count costs.old ≤ 2 ^ 63 }
    ensures next { IfOk result (IsNextRow (C.cost costs.old) (C.place_count costs.old) before.now) }
    ensures bounded { let d = C.place_count costs.old in
        C.call_count costs.new ≤ C.call_count costs.old + ((d - 1) * bits d + d) }
    ensures exact { let d = C.place_count costs.old in let calls = C.call_count costs.old in
        IfOk result (λ row. C.call_count costs.new ≡ calls + tried_in_row (slice_index row.ends.items) d) }
    ensures only_counts { OnlyCounts C.CostSource costs.old costs.new }
{
    let places = costs.places();
    let mut row = unfilled_row(alloc, places)?;
    if places > 0 {
        fill_part(
            costs,
            before,
            &mut row.costs,
            &mut row.ends,
            0..places,
            Window {
                low: 1,
                high: places,
            },
        );
    }
    Ok(row)
}
