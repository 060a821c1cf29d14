//! `footprint`: what a table takes of memory over a history, or over every moment of a timeline.
ghost use Rattle.std.specs.Prelude.{◌≡◌, IfOk, List, ℕ};
ghost use Rattle.line_text.specs.Lines.{lines};
ghost use Rattle.mte_engine.specs.CountsInput.{HasTakenCounts};
ghost use Rattle.mte_engine.specs.Footprint.{measured};
ghost use Rattle.mte_engine.specs.FootprintOver.{footprint_after, footprint_answers};
ghost use Rattle.mte_engine.specs.Parts.{AreFewLines};
ghost use Rattle.mte_engine.specs.Outcome.{GivesAnswer, Runs};
ghost use Rattle.byte_streams.specs.TextLeft.{text_left};
ghost use Rattle.history_count.specs.Histories.{History as CountedHistory};
ghost use Rattle.history_count.specs.Measures.{Measures};

use crate::counts_input::{Counts, CountsInput, read_counts};
use crate::engine::{Status, run_engine};
use crate::fault::{AnswerError, ToolFault};
use crate::input_parts::measure_history;
use crate::scoring::numbered_line;
use crate::table_command::{OverLine, TableCommand};
use crate::timeline_footprint::footprint_of_timeline;
use byte_streams::{ByteSink, ByteSource, Text};
use class_table::ClassTable;
use history_count::TableFootprint;
use std::alloc::{AllocError, Global};
use tool_call::Options;

/// Reads a class line and then a history or a timeline, and writes `footprint F`, the bytes that the table's classes take when most blocks of
/// each are live, or `not serving N` with the status of a no, where N is the least counted size that has no class.
/// A class line is one line: if `first_lines` says more, it is refused. No text of a timeline is kept.
///
/// Faults of the input (`Input`), in this order: that it is too long; the fault of the class line; that of the history or the timeline.
/// `ToolFault` has the other faults, and what the sink took when one comes.
pub fn footprint<R: ByteSource, W: ByteSink>(
    alloc: Global,
    options: Options,
    source: &mut R,
    sink: &mut W,
) -> Result<Status, ToolFault>
    ensures { Runs (footprint_answers options)
        (R.state source.old) (R.state source.new) W.state sink.old sink.new result }
{
    let engine = OverLine {
        command: TableCommand::Footprint,
        options,
    };
    run_engine(alloc, &engine, source, sink)
}

/// The answer to a table and the timeline or the history that follows this many lines.
pub(crate) fn footprint_of_counts(
    alloc: Global,
    options: Options,
    table: &ClassTable,
    counts: CountsInput,
    before: u64,
) -> Result<(Text, Status), AnswerError>
    requires { AreFewLines before }
    ensures { (text : List ℕ) → HasTakenCounts counts text
        → GivesAnswer text_left (footprint_after options table.now before (lines text)) result }
{
    match read_counts(alloc, counts, before)? {
        Counts::Timeline(timeline) => Ok(footprint_of_timeline(alloc, table, &timeline)?),
        Counts::Text(text) => {
            let footprint = measure_history(alloc, &text, table, before)?;
            Ok(footprint_line(alloc, footprint)?)
        }
    }
}

// the answer to what a table takes over a history
fn footprint_line(alloc: Global, footprint: TableFootprint) -> Result<(Text, Status), AllocError>
    ensures { IfOk result (λ answered. (table : List ℕ) (history : CountedHistory)
        → Measures table history.snapshots footprint
        → record { text = text_left answered.0; status = answered.1 } ≡ measured table history) }
{
    match footprint {
        TableFootprint::Unserved(size) => Ok((
            numbered_line(alloc, b"not serving ", u64::from(size))?,
            Status::No,
        )),
        TableFootprint::Bytes(bytes) => {
            Ok((numbered_line(alloc, b"footprint ", bytes)?, Status::Done))
        }
    }
}
