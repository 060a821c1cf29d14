//! `run`: the class table of least waste for a trace, and the replay of the trace on the tagged heap over that table.
ghost use Rattle.mte_engine.specs.Outcome.{GivesAnswer, Runs};
ghost use Rattle.heap_theory.specs.Config.{IsConfig};
ghost use Rattle.mte_engine.specs.ReportLeft.{report_left};
ghost use Rattle.mte_engine.specs.Run.{RunAnswers, run_answers};
ghost use Rattle.tool_call.specs.Options.{AreValid};
ghost use Rattle.tool_call.specs.declared.call.CommandName.TheVariants.{Run};
ghost use Rattle.mte_engine.specs.Tune.{AreTuneOptions};
ghost use Rattle.mte_engine.specs.Traces.{HasEnded, KeepsEventsAndCounts, profile_of_events};
ghost use Rattle.std.specs.Prelude.{◌≡◌, ◌≤◌, Err, IfOk, List, MatchResult, ℕ, false, length};
ghost use Rattle.trace_reader.specs.Reading.{finished, is_finished};
ghost use Rattle.trace_reader.specs.Reading.State.{Finished};
ghost use Rattle.trace_reader.specs.TraceLine.{most_events};

use crate::engine::{Engine, Status, run_engine};
use crate::fault::{AnswerError, ToolFault};
use crate::report::Report;
use crate::trace_counting::Requests;
use crate::trace_feeding::{end, feed};
use byte_streams::{ByteSink, ByteSource, Input};
use class_tuner::tune;
use potential_check::write_sheet;
use profile_count::Profile;
use replay_core::Config;
use std::alloc::{AllocError, Global};
use tool_call::Options;
use trace_reader::TraceReader;

/// Reads a trace, and writes two things: the sheet that `tune` writes for the trace's profile, and then the report that `replay` writes on
/// the trace with that sheet's table. So the table is legal for `step`, has at most `limit` classes and serves every counted request. Its
/// waste is the sum of the bytes lost by rounding, and no such table wastes less. The report is the tagged machine's.
///
/// `granules`, `seed` and `quarantine` set up the heap.
///
/// Faults of the input (`Input`), in this order: that it is too long; the first faulty line of the trace. `ToolFault` has the other faults,
/// and what the sink took when one comes.
pub fn run<R: ByteSource, W: ByteSink>(
    alloc: Global,
    options: Options,
    source: &mut R,
    sink: &mut W,
) -> Result<Status, ToolFault>
    requires { AreValid Run options }
    ensures { Runs (run_answers options) (R.state source.old) (R.state source.new) W.state sink.old sink.new result }
{
    let engine = RunEngine {
        limit: options.limit,
        step: options.step,
        config: options.config(),
    };
    run_engine(alloc, &engine, source, sink)
}

// the options of `run`
#[derive(Drop)]
struct RunEngine {
    limit: u8,
    step: u8,
    config: Config,
    ghost options: { AreTuneOptions limit step },
    ghost is_config: { IsConfig config },
}

impl Engine for RunEngine {
    type Input = WholeTrace;

    type Output = Report;

    ghost answers = { λ e. RunAnswers e.limit e.step e.config };

    fn input(&self, alloc: Global) -> Result<WholeTrace, AllocError> {
        let profile = Profile::new(alloc)?;
        Ok(WholeTrace {
            reader: TraceReader::new(alloc),
            requests: Requests { profile },
        })
    }

    fn answer(&self, alloc: Global, input: WholeTrace) -> Result<(Report, Status), AnswerError> {
        answer_to(alloc, self.limit, self.step, self.config, input)
    }
}

// The events of a trace, and what they request, which is counted as they are read: the reader then knows the kind of an event, which a
// later test would mispredict.
#[derive(Drop)]
struct WholeTrace {
    reader: TraceReader,
    requests: Requests,
    ghost open: { is_finished reader ≡ false },
}

impl Input for WholeTrace {
    ghost has_taken = { λ input bytes. KeepsEventsAndCounts input.reader input.requests.profile bytes };

    fn take(&mut self, piece: &[u8]) -> Result<(), AllocError> {
        feed(&mut self.reader, piece, &mut self.requests)
    }
}

// the answer to a trace
fn answer_to(
    alloc: Global,
    limit: u8,
    step: u8,
    config: Config,
    input: WholeTrace,
) -> Result<(Report, Status), AnswerError>
    requires options { AreTuneOptions limit step }
    requires config { IsConfig config }
    ensures { (bytes : List ℕ) → KeepsEventsAndCounts input.reader input.requests.profile bytes
        → GivesAnswer report_left (RunAnswers limit step config bytes) result }
{
    let (reader, profile) = end_trace(input)?;
    let tuned = tune(alloc, &profile, limit, step, false)?;
    let sheet = tuned.sheet();
    let mut text = Vec::new(alloc);
    write_sheet(sheet, &mut text)?;
    let report = Report::new(alloc, &sheet.table, config, reader, text)?;
    Ok((report, Status::Done))
}

// Ends a trace. Returns its events, which wait in the reader, and its profile.
fn end_trace(input: WholeTrace) -> Result<(TraceReader, Profile), AnswerError>
    ensures ended { MatchResult result (λ _. (finished input.reader).state ≡ Finished)
        (λ error. HasEnded 0 (finished input.reader).state (Err error)) }
    ensures events { IfOk result (λ all. all.0 ≡ finished input.reader) }
    ensures few { IfOk result (λ all. length all.0.events ≤ most_events) }
    ensures counts { IfOk result (λ all. input.requests.profile ≡ profile_of_events input.reader.events →
        all.1 ≡ profile_of_events all.0.events) }
{
    let WholeTrace {
        mut reader,
        mut requests,
    } = input;
    end(&mut reader, 0, &mut requests)?;
    Ok((reader, requests.profile))
}
