//! `replay`: the report on a trace, replayed on the tagged heap over a class table.
ghost use Rattle.mte_engine.specs.Outcome.{GivesAnswer, Runs};
ghost use Rattle.mte_engine.specs.Parts.{AreFewLines};
ghost use Rattle.mte_engine.specs.Replay.{ReplayAnswers, ReplayOnAnswers, replay_answers, replay_over};
ghost use Rattle.tool_call.specs.Options.{AreValid};
ghost use Rattle.tool_call.specs.declared.call.CommandName.TheVariants.{Replay};
ghost use Rattle.heap_theory.specs.Config.{IsConfig};
ghost use Rattle.line_text.specs.Lines.{lines};
ghost use Rattle.mte_engine.specs.ReportLeft.{report_left};
ghost use Rattle.mte_engine.specs.Traces.{IsLineAndTrace, KeepsEvents, KeepsLineAndEvents};
ghost use Rattle.std.specs.Prelude.{◌≡◌, List, ℕ, false};
ghost use Rattle.trace_reader.specs.Reading.{is_finished};

use crate::engine::{Engine, Status, run_engine};
use crate::fault::{AnswerError, ToolFault};
use crate::input_parts::{read_class_text, read_table};
use crate::report::Report;
use crate::trace_feeding::{end, feed};
use byte_streams::{ByteSink, ByteSource, Input};
use class_table::ClassTable;
use line_text::first_line;
use replay_core::Config;
use std::alloc::{AllocError, Global};
use tool_call::Options;
use trace_reader::{NoObserver, TraceReader};

/// Reads a class line and then a trace, replays the trace on a new heap over that table, and writes the report: a line for each event that
/// has one, and the totals. A fault in the replay is a line of the report, and the replay goes on.
///
/// `granules`, `seed` and `quarantine` set up the heap.
///
/// Faults of the input (`Input`), in this order: that it is too long; the fault of the class line; the first faulty line of the trace,
/// whose lines count from 2. `ToolFault` has the other faults, and what the sink took when one comes.
pub fn replay<R: ByteSource, W: ByteSink>(
    alloc: Global,
    options: Options,
    source: &mut R,
    sink: &mut W,
) -> Result<Status, ToolFault>
    requires { AreValid Replay options }
    ensures { Runs (replay_answers options) (R.state source.old) (R.state source.new) W.state sink.old sink.new result }
{
    let engine = ReplayEngine {
        config: options.config(),
    };
    run_engine(alloc, &engine, source, sink)
}

// the options of `replay`
#[derive(Drop)]
struct ReplayEngine {
    config: Config,
    ghost is_config: { IsConfig config },
}

impl Engine for ReplayEngine {
    type Input = LineAndTrace;

    type Output = Report;

    ghost answers = { λ e. ReplayAnswers e.config };

    fn input(&self, alloc: Global) -> Result<LineAndTrace, AllocError> {
        Ok(LineAndTrace {
            line: Vec::new(alloc),
            line_has_ended: false,
            reader: TraceReader::new(alloc),
        })
    }

    fn answer(&self, alloc: Global, input: LineAndTrace) -> Result<(Report, Status), AnswerError> {
        answer_to(alloc, self.config, input)
    }
}

// The first line of an input, and the events of the lines after it. A class line may have any length, so its bytes are kept until its
// end.
#[derive(Drop)]
struct LineAndTrace {
    line: Vec<u8>,
    line_has_ended: bool,
    reader: TraceReader,
    ghost open: { is_finished reader ≡ false },
}

impl Input for LineAndTrace {
    ghost has_taken = { λ input bytes. KeepsLineAndEvents input.line_has_ended input.line.items input.reader bytes };

    fn take(&mut self, piece: &[u8]) -> Result<(), AllocError> {
        if self.line_has_ended {
            return feed(&mut self.reader, piece, &mut NoObserver);
        }
        let Some((end, trace)) = first_line(piece) else {
            return self.line.extend_from_slice(piece);
        };
        self.line.extend_from_slice(end)?;
        self.line_has_ended = true;
        feed(&mut self.reader, trace, &mut NoObserver)
    }
}

// the answer to an input
fn answer_to(
    alloc: Global,
    config: Config,
    input: LineAndTrace,
) -> Result<(Report, Status), AnswerError>
    requires { IsConfig config }
    ensures { (bytes : List ℕ) → KeepsLineAndEvents input.line_has_ended input.line.items input.reader bytes →
        GivesAnswer report_left (ReplayAnswers config bytes) result }
{
    let LineAndTrace {
        line,
        line_has_ended: _,
        reader,
    } = input;
    answer_to_parts(alloc, config, &line, reader)
}

/// The answer to a class line, and the trace of another text whose events wait in the reader.
pub(crate) fn answer_to_texts(
    alloc: Global,
    config: Config,
    class: &[u8],
    reader: TraceReader,
) -> Result<(Report, Status), AnswerError>
    requires config { IsConfig config }
    requires open { is_finished reader ≡ false }
    ensures { (trace : List ℕ) → KeepsEvents reader trace
        → GivesAnswer report_left (ReplayOnAnswers config class.now trace) result }
{
    let table = read_class_text(class)?;
    report_over(alloc, config, &table, reader, 0)
}

// the answer to a class line, which is empty if the input is, and the trace after it
fn answer_to_parts(
    alloc: Global,
    config: Config,
    line: &[u8],
    reader: TraceReader,
) -> Result<(Report, Status), AnswerError>
    requires config { IsConfig config }
    requires open { is_finished reader ≡ false }
    ensures { (bytes trace : List ℕ) → IsLineAndTrace bytes line.now trace reader
        → GivesAnswer report_left (ReplayAnswers config bytes) result }
{
    let table = read_table(line)?;
    report_over(alloc, config, &table, reader, 1)
}

// the answer to a table, and the trace that follows this many lines of its input
fn report_over(
    alloc: Global,
    config: Config,
    table: &ClassTable,
    mut reader: TraceReader,
    before: u64,
) -> Result<(Report, Status), AnswerError>
    requires config { IsConfig config }
    requires open { is_finished reader ≡ false }
    requires few { AreFewLines before }
    ensures { (trace : List ℕ) → KeepsEvents reader trace
        → GivesAnswer report_left (λ answer. replay_over config table.now before (lines trace) ≡ answer) result }
{
    end(&mut reader, before, &mut NoObserver)?;
    let report = Report::new(alloc, table, config, reader, Vec::new(alloc))?;
    Ok((report, Status::Done))
}
