//! A sheet with the spans of its profile, and the tests of its rows.
ghost use Rattle.std.specs.Prelude.{◌≡◌, ◌↔◌, All, length, IsTrue};
ghost use Rattle.std.specs.List.{AllAdjacentBelow};
ghost use Rattle.potential_check.specs.RowConditions.{EdgesHold, IsBoundedRow, StageDropHolds};
ghost use Rattle.potential_check.specs.Certificates.SheetView.{sheet_of};
ghost use Rattle.potential_check.specs.Measured.{AreTestsOf};
ghost use Rattle.tuner_theory.specs.Measures.{waste_on};
ghost use Rattle.tuner_theory.specs.Sheets.{Meets};
ghost use Rattle.tuner_theory.specs.declared.verdict.Refusal.TheVariants.{Edge, LastClass, Shape, StageDrop};

use crate::certificates::{Rows, Sheet, Spans};
use crate::measured_load::RowTests;
use crate::row_conditions::{edges_hold, last_class_holds, stage_drop_holds};
use std::marker::Model;

/// A sheet with the spans of its profile, at the sheet's step.
#[derive(Drop)]
pub(crate) struct SheetOnSpans<'a> {
    spans: &'a Spans<'a>,
    sheet: &'a Sheet,
}

impl<'a> Model for SheetOnSpans<'a> {
    ghost use Rattle.std.specs.Prelude.{◌≡◌};
    ghost use Rattle.potential_check.specs.SheetOnCounts.{SheetOnCounts};
    ghost use Rattle.potential_check.specs.Certificates.SheetView.{sheet_of};

    ghost Value = { SheetOnCounts };

    ghost view = { λ s. record { counts = s.spans.now.counts; sheet = sheet_of s.sheet.now } };

    ghost invariant = { λ s. s.spans.now.step ≡ s.sheet.now.step };
}

impl<'a> SheetOnSpans<'a> {
    /// A sheet with the spans of its profile.
    pub(crate) fn new(spans: &'a Spans<'a>, sheet: &'a Sheet) -> SheetOnSpans<'a>
        requires { spans.now.step ≡ sheet.now.step }
        ensures { result ≡ record { counts = spans.now.counts; sheet = sheet_of sheet.now } }
    {
        SheetOnSpans { spans, sheet }
    }

    /// The tests of the rows, which must have their shape. The edges are looked at only where the other tests pass.
    pub(crate) fn tests(&self) -> RowTests
        requires { Meets self.now.counts self.now.sheet Shape }
        ensures { AreTestsOf (waste_on self.now.counts) self.now.sheet result }
    {
        let last_class = self.meets_last_class();
        let stage_drop = self.meets_stage_drop();
        let edge = last_class && stage_drop && self.meets_edge();
        RowTests {
            last_class,
            stage_drop,
            edge,
        }
    }

    // whether no number of row 1 is above the waste of one class
    fn meets_last_class(&self) -> bool
        requires { Meets self.now.counts self.now.sheet Shape }
        ensures { IsTrue result ↔ Meets self.now.counts self.now.sheet LastClass }
    {
        let rows = &self.sheet.rows;
        rows.is_empty() || last_class_holds(self.spans, rows.row(0))
    }

    // whether no number of a later row is above that of the row before
    fn meets_stage_drop(&self) -> bool
        requires { Meets self.now.counts self.now.sheet Shape }
        ensures { IsTrue result ↔ Meets self.now.counts self.now.sheet StageDrop }
    {
        all_drops_hold(&self.sheet.rows)
    }

    // whether each later row is within its edges
    fn meets_edge(&self) -> bool
        requires shape { Meets self.now.counts self.now.sheet Shape }
        requires last { Meets self.now.counts self.now.sheet LastClass }
        requires drop { Meets self.now.counts self.now.sheet StageDrop }
        ensures { IsTrue result ↔ Meets self.now.counts self.now.sheet Edge }
    {
        all_edges_hold(self.spans, &self.sheet.rows)
    }
}

// whether no number of a later row is more than the one at its place in the row before
fn all_drops_hold(rows: &Rows) -> bool
    ensures { IsTrue result ↔ AllAdjacentBelow StageDropHolds rows.now (length rows.now) }
{
    for index in 1..rows.len() {
        if !stage_drop_holds(rows.row(index - 1), rows.row(index)) {
            return false;
        }
    }
    true
}

// whether no number of a later row is more than its edges allow
fn all_edges_hold(spans: &Spans, rows: &Rows) -> bool
    requires { All (IsBoundedRow spans.now) rows.now }
    ensures { IsTrue result ↔ AllAdjacentBelow (EdgesHold spans.now) rows.now (length rows.now) }
{
    for index in 1..rows.len() {
        if !edges_hold(spans, rows.row(index - 1), rows.row(index)) {
            return false;
        }
    }
    true
}
