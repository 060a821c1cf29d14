//! `fit`: the class table of least footprint over a history, or over every moment of a timeline, with its certificate.
ghost use Rattle.std.specs.Prelude.{List, ℕ};
ghost use Rattle.mte_engine.specs.CountsInput.{HasTakenCounts};
ghost use Rattle.mte_engine.specs.Fit.{FitAnswers};
ghost use Rattle.mte_engine.specs.FitOver.{FitEitherAnswers, fit_answers};
ghost use Rattle.mte_engine.specs.Outcome.{GivesAnswer, Runs};
ghost use Rattle.mte_engine.specs.SheetLeft.{sheet_left};
ghost use Rattle.mte_engine.specs.Tune.{AreTuneOptions};
ghost use Rattle.tool_call.specs.Options.{AreValid};
ghost use Rattle.tool_call.specs.declared.call.CommandName.TheVariants.{Fit};

use crate::counts_input::{Counts, CountsInput, read_counts};
use crate::engine::{Engine, Status, run_engine};
use crate::fault::{AnswerError, ToolFault};
use crate::input_parts::read_history;
use crate::sheet_writing::SheetText;
use crate::timeline_fit_text::fit_over_timeline;
use byte_streams::{ByteSink, ByteSource};
use std::alloc::{AllocError, Global};
use tool_call::Options;

/// Reads a history or a timeline, and writes the fit of its table of least footprint. Of all tables that have at most `limit` classes,
/// all of them multiples of `step` granules, that serve each counted size, and if `largest_class` is 1 have the largest class, so that they
/// serve each size that any table can, it is the canonical one of those that take least. The fit's certificate is rows of
/// least footprints: number i of row k, both counted from 1, is the least that at most k classes take for the blocks whose need is above
/// the i - 1 smallest distinct needs.
///
/// Of a timeline the footprint is that over every moment, the rows are those over the moments that the line after them names, and the table
/// is the one that would be fitted over all. Where that is not shown after 1,024 rounds, the text is a table with its footprint and what no
/// table takes less than, with the status of a no. No text of a timeline is kept.
///
/// Faults of the input (`Input`), in this order: that it is too long; the fault of the history or the timeline. `ToolFault` has the other
/// faults, and what the sink took when one comes.
pub fn fit<R: ByteSource, W: ByteSink>(
    alloc: Global,
    options: Options,
    source: &mut R,
    sink: &mut W,
) -> Result<Status, ToolFault>
    requires { AreValid Fit options }
    ensures { Runs (fit_answers options) (R.state source.old) (R.state source.new) W.state sink.old sink.new result }
{
    let engine = FitEngine {
        limit: options.limit,
        step: options.step,
        forced: options.largest_class == 1,
    };
    run_engine(alloc, &engine, source, sink)
}

// the options of `fit`
#[derive(Drop)]
struct FitEngine {
    limit: u8,
    step: u8,
    forced: bool,
    ghost options: { AreTuneOptions limit step },
}

impl Engine for FitEngine {
    type Input = CountsInput;

    type Output = SheetText;

    ghost answers = { λ e. FitEitherAnswers e.limit e.step e.forced };

    fn input(&self, alloc: Global) -> Result<CountsInput, AllocError> {
        CountsInput::new(alloc)
    }

    fn answer(
        &self,
        alloc: Global,
        input: CountsInput,
    ) -> Result<(SheetText, Status), AnswerError> {
        fit_either(alloc, self.limit, self.step, self.forced, input)
    }
}

// the answer to a timeline or a history
fn fit_either(
    alloc: Global,
    limit: u8,
    step: u8,
    forced: bool,
    input: CountsInput,
) -> Result<(SheetText, Status), AnswerError>
    requires options { AreTuneOptions limit step }
    ensures { (bytes : List ℕ) → HasTakenCounts input bytes
        → GivesAnswer sheet_left (FitEitherAnswers limit step forced bytes) result }
{
    match read_counts(alloc, input, 0)? {
        Counts::Timeline(timeline) => {
            Ok(fit_over_timeline(alloc, limit, step, forced, &timeline)?)
        }
        Counts::Text(text) => fit_text(alloc, limit, step, forced, &text),
    }
}

// the answer to a history's text
fn fit_text(
    alloc: Global,
    limit: u8,
    step: u8,
    forced: bool,
    text: &[u8],
) -> Result<(SheetText, Status), AnswerError>
    requires options { AreTuneOptions limit step }
    ensures { GivesAnswer sheet_left (FitAnswers limit step forced text.now) result }
{
    let history = read_history(alloc, text, 0)?;
    let fitted = class_tuner::fit(alloc, &history, limit, step, forced)?;
    let output = SheetText::of_sheet(alloc, fitted.into_sheet())?;
    Ok((output, Status::Done))
}
