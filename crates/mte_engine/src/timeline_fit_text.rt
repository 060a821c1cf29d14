//! `fit` over a timeline: the class table of least footprint over every moment of it.
ghost use Rattle.std.specs.Prelude.{◌≡◌, ◌++◌, IfOk};
ghost use Rattle.potential_check.specs.Certificates.SheetView.{sheet_of};
ghost use Rattle.line_text.specs.Lines.{text_of};
ghost use Rattle.mte_engine.specs.FitOver.{IsFoundText, between_lines, least_text};
ghost use Rattle.mte_engine.specs.SheetLeft.{sheet_left};
ghost use Rattle.mte_engine.specs.Tune.{AreTuneOptions};

use crate::engine::Status;
use crate::sheet_writing::SheetText;
use class_table::ClassTable;
use class_tuner::{FitOutcome, MOST_ROUNDS, fit_over};
use history_count::Timeline;
use potential_check::{Fit, MOMENTS, append_line, append_table, write_sheet};
use std::alloc::{AllocError, Global};

/// The answer to a timeline.
pub(crate) fn fit_over_timeline(
    alloc: Global,
    limit: u8,
    step: u8,
    forced: bool,
    timeline: &Timeline,
) -> Result<(SheetText, Status), AllocError>
    requires options { AreTuneOptions limit step }
    ensures { IfOk result (λ answered. IsFoundText limit step forced timeline.now
        (record { text = sheet_left answered.0; status = answered.1 })) }
{
    let fitted = fit_over(alloc, timeline, limit, step, forced, MOST_ROUNDS)?;
    match fitted.found {
        FitOutcome::Least { fit, numbers } => {
            let text = text_of_least(alloc, &fit, &numbers)?;
            Ok((SheetText::of_text(alloc, text)?, Status::Done))
        }
        FitOutcome::Between {
            table,
            takes,
            least,
        } => {
            let text = text_of_between(alloc, &table, takes, least)?;
            Ok((SheetText::of_text(alloc, text)?, Status::No))
        }
    }
}

// a fit, and the line of its moments
fn text_of_least(alloc: Global, fit: &Fit, numbers: &[usize]) -> Result<Vec<u8>, AllocError>
    ensures { IfOk result (λ text. text.items ≡ least_text (sheet_of fit.now) numbers.now) }
{
    let mut text = Vec::new(alloc);
    write_sheet(fit, &mut text)?;
    append_line(&mut text, MOMENTS, &wide(alloc, numbers)?)?;
    Ok(text)
}

// a table with its footprint, and a bound
fn text_of_between(
    alloc: Global,
    table: &ClassTable,
    takes: u64,
    least: u64,
) -> Result<Vec<u8>, AllocError>
    ensures { IfOk result (λ text. text.items ≡ text_of (between_lines table.now takes least)) }
{
    let mut text = Vec::new(alloc);
    append_table(&mut text, table)?;
    append_line(&mut text, b"footprint", &[takes])?;
    append_line(
        &mut text,
        b"not shown least: no table takes less than",
        &[least],
    )?;
    Ok(text)
}

/// The same numbers in 64 bits. The only error is that the allocator refuses memory.
pub(crate) fn wide(alloc: Global, numbers: &[usize]) -> Result<Vec<u64>, AllocError>
    ensures { IfOk result (λ wide. wide.items ≡ numbers.now) }
{
    numbers.iter().map(|number| *number as u64).collect(alloc)
}
