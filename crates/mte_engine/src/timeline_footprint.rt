//! `footprint` over a timeline: what a table takes of memory over every moment of it.
ghost use Rattle.std.specs.Prelude.{◌≡◌, IfOk};
ghost use Rattle.byte_streams.specs.TextLeft.{text_left};
ghost use Rattle.mte_engine.specs.FootprintOver.{IsMeasuredOver};

use crate::engine::Status;
use crate::scoring::numbered_line;
use byte_streams::Text;
use class_table::ClassTable;
use history_count::{Timeline, measure_over};
use std::alloc::{AllocError, Global};

/// The answer to a table and a timeline.
pub(crate) fn footprint_of_timeline(
    alloc: Global,
    table: &ClassTable,
    timeline: &Timeline,
) -> Result<(Text, Status), AllocError>
    ensures { IfOk result (λ answered.
        IsMeasuredOver table.now timeline.now (record { text = text_left answered.0; status = answered.1 })) }
{
    let measured = measure_over(alloc, timeline.events(), table)?;
    match measured.unserved {
        Some(size) => Ok((
            numbered_line(alloc, b"not serving ", u64::from(size))?,
            Status::No,
        )),
        None => Ok((
            numbered_line(alloc, b"footprint ", measured.footprint.bytes)?,
            Status::Done,
        )),
    }
}
