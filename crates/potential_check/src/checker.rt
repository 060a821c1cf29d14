//! The checker. It trusts nobody, so it tests everything that a certificate says.
ghost use Rattle.std.specs.Prelude.{◌≡◌, ◌↔◌, IfNone, IfOk, IfSome, IsTrue};
ghost use Rattle.class_table.specs.Steps.{IsStep};
ghost use Rattle.class_table.specs.Tables.{FitsStep, IsLegalTable};
ghost use Rattle.potential_check.specs.Certificates.SheetView.{sheet_of};
ghost use Rattle.potential_check.specs.Certificates.Spanned.{IsSpanned};
ghost use Rattle.tuner_theory.specs.Best.{IsBestBy};
ghost use Rattle.tuner_theory.specs.Rows.{HasShape};
ghost use Rattle.tuner_theory.specs.Sheets.{AreMetBefore, IsVerdictOn, MeetsOn};
ghost use Rattle.tuner_theory.specs.declared.verdict.Refusal.TheVariants.{LastClass, NotTight, Shape};
ghost use Rattle.tuner_theory.specs.declared.verdict.Verdict.TheVariants.{Optimal, Refused};

use crate::certificates::{Certificate, Rows, Spans};
use crate::measured_load::MeasuredLoad;
use class_table::is_step;
use std::alloc::{AllocError, Global};
use tuner_theory::{Refusal, Verdict};

/// The verdict on a certificate, whoever wrote it and whatever it holds: optimal, or the first refusal that holds.
/// The table of an optimal one is a best one: no table of at most `limit` classes that fits the step and serves the counts costs less.
/// The only error is that the allocator refuses memory.
pub(crate) fn verdict_on<M: MeasuredLoad>(
    alloc: Global,
    measured: &M,
    sheet: &Certificate<M::Kind>,
) -> Result<Verdict, AllocError>
    ensures verdict { IfOk result (IsVerdictOn (M.measure measured.now) (sheet_of sheet.now)) }
    ensures best { let m = M.measure measured.now in IfOk result
        (λ verdict. verdict ≡ Optimal → IsBestBy m.cost m.counts sheet.now.step sheet.now.limit sheet.now.table) }
{
    if let Some(refusal) = table_refusal(measured, sheet) {
        return Ok(Verdict::Refused(refusal));
    }
    let spans = Spans::new(alloc, measured.profile(), sheet.step)?;
    if !has_shape(&sheet.rows, sheet.limit, spans.places()) {
        return Ok(Verdict::Refused(Refusal::Shape));
    }
    if let Some(refusal) = numbers_refusal(alloc, measured, &spans, sheet)? {
        return Ok(Verdict::Refused(refusal));
    }
    // no row: the number of row 1 is 0
    if sheet.rows.number(usize::from(sheet.limit.max(1)), 0) != sheet.cost {
        return Ok(Verdict::Refused(Refusal::NotTight));
    }
    Ok(Verdict::Optimal)
}

// the first refusal for the table, with the step, the limit and the cost
fn table_refusal<M: MeasuredLoad>(measured: &M, sheet: &Certificate<M::Kind>) -> Option<Refusal>
    ensures refused { IfSome result
        (λ refusal. IsVerdictOn (M.measure measured.now) (sheet_of sheet.now) (Refused refusal)) }
    ensures none { IfNone result (AreMetBefore (MeetsOn (M.measure measured.now) (sheet_of sheet.now)) Shape) }
    ensures legal { IfNone result (IsLegalTable 1 sheet.now.table) }
{
    if !fits_step(sheet) {
        return Some(Refusal::OffStep);
    }
    if sheet.table.len() > usize::from(sheet.limit) {
        return Some(Refusal::OverLimit);
    }
    if measured.profile().unserved(&sheet.table).is_some() {
        return Some(Refusal::NotServing);
    }
    if measured.cost_of(&sheet.table) != sheet.cost {
        return Some(Refusal::WasteWrong);
    }
    None
}

// the first refusal for the numbers of the rows, which have their shape
fn numbers_refusal<M: MeasuredLoad>(
    alloc: Global,
    measured: &M,
    spans: &Spans<'_>,
    sheet: &Certificate<M::Kind>,
) -> Result<Option<Refusal>, AllocError>
    requires spanned { IsSpanned spans.now }
    requires counts { spans.now.counts ≡ (M.measure measured.now).counts }
    requires step { spans.now.step ≡ sheet.now.step }
    requires met { AreMetBefore (MeetsOn (M.measure measured.now) (sheet_of sheet.now)) LastClass }
    ensures refused { IfOk result
        (λ r. IfSome r (λ refusal. IsVerdictOn (M.measure measured.now) (sheet_of sheet.now) (Refused refusal))) }
    ensures none { IfOk result
        (λ r. IfNone r (AreMetBefore (MeetsOn (M.measure measured.now) (sheet_of sheet.now)) NotTight)) }
{
    let tests = measured.row_tests(alloc, spans, sheet)?;
    if !tests.last_class {
        return Ok(Some(Refusal::LastClass));
    }
    if !tests.stage_drop {
        return Ok(Some(Refusal::StageDrop));
    }
    if !tests.edge {
        return Ok(Some(Refusal::Edge));
    }
    Ok(None)
}

// whether the step is one of the four, and each class is a multiple of it
fn fits_step<C>(sheet: &Certificate<C>) -> bool
    ensures { IsTrue result ↔ (IsStep sheet.now.step × FitsStep sheet.now.step sheet.now.table) }
{
    is_step(sheet.step) && sheet.table.fits(sheet.step)
}

// whether there are this many rows, with a number for each place
fn has_shape(rows: &Rows, limit: u8, places: usize) -> bool
    ensures { IsTrue result ↔ HasShape rows.now limit places }
{
    if rows.len() != usize::from(limit) {
        return false;
    }
    for index in 0..rows.len() {
        if rows.row(index).len() != places {
            return false;
        }
    }
    true
}
