//! `peaks`: what the blocks of a table come to over every moment of a timeline.
ghost use Rattle.std.specs.Prelude.{◌≡◌, IfOk, List, ℕ};
ghost use Rattle.line_text.specs.Lines.{lines, text_of};
ghost use Rattle.mte_engine.specs.CountsInput.{HasTakenCounts};
ghost use Rattle.mte_engine.specs.Outcome.{GivesAnswer, Runs};
ghost use Rattle.mte_engine.specs.Parts.{AreFewLines};
ghost use Rattle.mte_engine.specs.Peaks.{ArePeaks, peak_lines, peaks_after, peaks_answers};
ghost use Rattle.byte_streams.specs.TextLeft.{text_left};

use crate::counts_input::{CountsInput, read_as_timeline};
use crate::engine::{Status, run_engine};
use crate::fault::{AnswerError, ToolFault};
use crate::scoring::numbered_line;
use crate::table_command::{OverLine, TableCommand};
use crate::timeline_fit_text::wide;
use byte_streams::{ByteSink, ByteSource, Text};
use class_table::ClassTable;
use history_count::{TablePeaks, Timeline, table_peaks};
use potential_check::{MOMENTS, append_line};
use std::alloc::{AllocError, Global};
use tool_call::Options;

/// Reads a class line and then a timeline, and writes four lines: `peaks` with the most live blocks of each class, `moments` with the first
/// moment of so many, each as the number of events before it, `live B` with the most bytes of all live blocks together, and `freed N` with the
/// most blocks that are freed and not given out again; or `not serving N` with the status of a no, where N is the least counted size that has
/// no class. A class line is one line: if `first_lines` says more, it is refused. No text of the
/// timeline is kept.
///
/// Faults of the input (`Input`), in this order: that it is too long; the fault of the class line; that of the timeline. `ToolFault` has the
/// other faults, and what the sink took when one comes.
pub fn peaks<R: ByteSource, W: ByteSink>(
    alloc: Global,
    options: Options,
    source: &mut R,
    sink: &mut W,
) -> Result<Status, ToolFault>
    ensures { Runs (peaks_answers options) (R.state source.old) (R.state source.new) W.state sink.old sink.new result }
{
    let engine = OverLine {
        command: TableCommand::Peaks,
        options,
    };
    run_engine(alloc, &engine, source, sink)
}

/// The answer to a table and the timeline that follows this many lines.
pub(crate) fn peaks_of_counts(
    alloc: Global,
    options: Options,
    table: &ClassTable,
    counts: CountsInput,
    before: u64,
) -> Result<(Text, Status), AnswerError>
    requires { AreFewLines before }
    ensures { (text : List ℕ) → HasTakenCounts counts text
        → GivesAnswer text_left (peaks_after options table.now before (lines text)) result }
{
    let timeline = read_as_timeline(alloc, counts, before)?;
    Ok(peaks_of_timeline(alloc, table, &timeline)?)
}

// the answer to a table and a timeline
fn peaks_of_timeline(
    alloc: Global,
    table: &ClassTable,
    timeline: &Timeline,
) -> Result<(Text, Status), AllocError>
    ensures { IfOk result (λ answered.
        ArePeaks table.now timeline.now (record { text = text_left answered.0; status = answered.1 })) }
{
    let peaks = table_peaks(alloc, timeline.events(), table)?;
    match peaks.unserved {
        Some(size) => Ok((
            numbered_line(alloc, b"not serving ", u64::from(size))?,
            Status::No,
        )),
        None => {
            let text = text_of_peaks(alloc, &peaks)?;
            Ok((Text::new(text), Status::Done))
        }
    }
}

// the lines of what a table comes to
fn text_of_peaks(alloc: Global, peaks: &TablePeaks) -> Result<Vec<u8>, AllocError>
    ensures { IfOk result (λ text. text.items
        ≡ text_of (peak_lines peaks.now.most.items peaks.now.firsts.items peaks.now.most_bytes peaks.now.most_freed)) }
{
    let mut text = Vec::new(alloc);
    append_line(&mut text, b"peaks", &wide_counts(alloc, &peaks.most)?)?;
    append_line(&mut text, MOMENTS, &wide(alloc, &peaks.firsts)?)?;
    append_line(&mut text, b"live", &[peaks.most_bytes])?;
    append_line(&mut text, b"freed", &[peaks.most_freed])?;
    Ok(text)
}

// the same counts in 64 bits
fn wide_counts(alloc: Global, counts: &[u32]) -> Result<Vec<u64>, AllocError>
    ensures { IfOk result (λ wide. wide.items ≡ counts.now) }
{
    counts.iter().map(|count| u64::from(*count)).collect(alloc)
}
