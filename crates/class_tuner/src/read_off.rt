ghost use Rattle.std.specs.Prelude.{◌≡◌, ◌≤◌};
ghost use Rattle.class_table.specs.Tables.{IsLegalTable};
ghost use Rattle.potential_check.specs.Certificates.SheetView.{sheet_of};
ghost use Rattle.class_tuner.specs.Tuned.{sheet_of_rows};
ghost use Rattle.tuner_theory.specs.Lists.{lists_of};
ghost use Rattle.tuner_theory.specs.Rows.{AreLaterEnds, number_at};
ghost use Rattle.tuner_theory.specs.Spans.{places};
ghost use Rattle.tuner_theory.specs.Tuned.{tuned_table};

use crate::row_filling::FilledRows;
use arrayvec::ArrayVec;
use class_table::{ClassTable, MOST_CLASSES};
use potential_check::{Certificate, Rows, Spans};
use std::marker::PhantomData;

/// The certificate that filled rows give: the table of their ends, with the first number of the last row as what it costs.
/// `forced` is whether the largest class is.
pub(crate) fn certificate_of_rows<C>(
    spans: &Spans<'_>,
    filled: FilledRows,
    limit: u8,
    forced: bool,
) -> Certificate<C>
    requires some { 1 ≤ limit }
    requires few { limit ≤ MOST_CLASSES }
    requires later { AreLaterEnds (places spans.now.counts spans.now.step) limit
        (number_at (lists_of filled.ends.items)) }
    requires legal { IsLegalTable 1
        (tuned_table spans.now.counts spans.now.step limit (number_at (lists_of filled.ends.items))) }
    ensures read { sheet_of result ≡ sheet_of_rows spans.now.counts spans.now.step limit forced
        (lists_of filled.rows.items) (lists_of filled.ends.items) }
{
    let table = tuned_table(spans, &filled.ends, limit);
    let rows = Rows::new(filled.rows);
    let cost = rows.number(usize::from(limit), 0);
    Certificate {
        table,
        limit,
        step: spans.step(),
        forced,
        cost,
        rows,
        of: PhantomData,
    }
}

// The table that the ends give. Start at place 0 in row `limit`. The need at that place's end is a class. Go on from that end in the row
// before, until the last place is an end.
#[tactic(auto, using(class_table::proofs::LawLemmas::legal_is_faultless))]
fn tuned_table(spans: &Spans<'_>, ends: &[Vec<usize>], limit: u8) -> ClassTable
    requires few { limit ≤ MOST_CLASSES }
    requires later { AreLaterEnds (places spans.now.counts spans.now.step) limit (number_at (lists_of ends.now)) }
    requires legal { IsLegalTable 1
        (tuned_table spans.now.counts spans.now.step limit (number_at (lists_of ends.now))) }
    ensures { result ≡ tuned_table spans.now.counts spans.now.step limit (number_at (lists_of ends.now)) }
{
    let classes = classes_of_ends(spans, ends, limit);
    // legal, since the classes ascend
    ClassTable::from_classes(&classes).unwrap()
}

// the classes of that table
fn classes_of_ends(spans: &Spans<'_>, ends: &[Vec<usize>], limit: u8) -> ArrayVec<u16, MOST_CLASSES>
    requires few { limit ≤ MOST_CLASSES }
    requires later { AreLaterEnds (places spans.now.counts spans.now.step) limit (number_at (lists_of ends.now)) }
    ensures { result.items ≡ tuned_table spans.now.counts spans.now.step limit (number_at (lists_of ends.now)) }
{
    let mut classes = ArrayVec::new();
    let mut place = 0;
    for done in 0..limit as usize {
        if place < spans.places() {
            place = end_at(ends, limit as usize - done, place);
            classes.push(spans.need(place));
        }
    }
    classes
}

// the end in row k, counted from 1, at a place; 0 past the row's end
fn end_at(ends: &[Vec<usize>], k: usize, place: usize) -> usize
    requires { 1 ≤ k }
    ensures { result ≡ number_at (lists_of ends.now) k place }
{
    match ends.get(k - 1) {
        Some(row) => row.get(place).copied().unwrap_or(0),
        None => 0,
    }
}
