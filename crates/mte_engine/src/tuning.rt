//! `tune`: the class table of least waste for a profile, with its certificate.
ghost use Rattle.std.specs.Prelude.{IfOk};
ghost use Rattle.mte_engine.specs.Outcome.{GivesAnswer, Runs};
ghost use Rattle.potential_check.specs.Certificates.SheetView.{sheet_of};
ghost use Rattle.mte_engine.specs.SheetLeft.{sheet_left};
ghost use Rattle.mte_engine.specs.Tune.{AreTuneOptions, IsTunedBy, tune_answers};
ghost use Rattle.tool_call.specs.Options.{AreValid};
ghost use Rattle.tool_call.specs.declared.call.CommandName.TheVariants.{Tune};

use crate::engine::{Engine, Status, run_engine};
use crate::fault::{AnswerError, ToolFault};
use crate::input_parts::read_profile;
use crate::sheet_writing::SheetText;
use byte_streams::{ByteSink, ByteSource, WholeText};
use potential_check::Sheet;
use profile_count::Profile;
use std::alloc::{AllocError, Global};
use tool_call::Options;

/// Reads a profile, and writes the sheet of its table of least waste. Of all tables that have at most `limit` classes, all of them multiples of
/// `step` granules, that serve each counted size, and if `largest_class` is 1 have the largest class, so that they serve each size that any
/// table can, it is the canonical best one. The sheet's
/// certificate is rows of least wastes: number i of row k, both counted from 1, is the least that at most k classes waste on the requests
/// whose need is above the i - 1 smallest distinct needs.
///
/// Faults of the input (`Input`), in this order: that it is too long; the fault of the profile. `ToolFault` has the other faults, and what
/// the sink took when one comes.
pub fn tune<R: ByteSource, W: ByteSink>(
    alloc: Global,
    options: Options,
    source: &mut R,
    sink: &mut W,
) -> Result<Status, ToolFault>
    requires { AreValid Tune options }
    ensures { Runs (tune_answers options) (R.state source.old) (R.state source.new) W.state sink.old sink.new result }
{
    run_engine(alloc, &TuneEngine { options }, source, sink)
}

// the options of `tune`
#[derive(Drop)]
struct TuneEngine {
    options: Options,
    ghost valid: { AreTuneOptions options.limit options.step },
}

impl Engine for TuneEngine {
    type Input = WholeText;

    type Output = SheetText;

    ghost answers = { λ e. tune_answers e.options };

    fn input(&self, alloc: Global) -> Result<WholeText, AllocError> {
        Ok(WholeText::new(alloc))
    }

    fn answer(&self, alloc: Global, input: WholeText) -> Result<(SheetText, Status), AnswerError> {
        tune_text(alloc, self.options, &input.text)
    }
}

// the answer to a text
fn tune_text(
    alloc: Global,
    options: Options,
    text: &[u8],
) -> Result<(SheetText, Status), AnswerError>
    requires { AreTuneOptions options.limit options.step }
    ensures { GivesAnswer sheet_left (tune_answers options text.now) result }
{
    let profile = read_profile(alloc, text, 0)?;
    let sheet = tune_of(alloc, options, &profile)?;
    let output = SheetText::of_sheet(alloc, sheet)?;
    Ok((output, Status::Done))
}

/// The sheet of a profile's table of least waste, for a limit and a step in their ranges. The only error is that the allocator refuses
/// memory.
pub fn tune_of(alloc: Global, options: Options, profile: &Profile) -> Result<Sheet, AllocError>
    requires { AreTuneOptions options.limit options.step }
    ensures { IfOk result (λ sheet. IsTunedBy options profile.now (sheet_of sheet)) }
{
    let forced = options.largest_class == 1;
    let tuned = class_tuner::tune(alloc, profile, options.limit, options.step, forced)?;
    Ok(tuned.into_sheet())
}
