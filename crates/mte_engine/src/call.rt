//! The one door to all engines, over one text and over two.
ghost use Rattle.std.specs.Prelude.{◌≡◌, true};
ghost use Rattle.mte_engine.specs.Calls.{answers_of, answers_on};
ghost use Rattle.mte_engine.specs.Outcome.{Runs};
ghost use Rattle.mte_engine.specs.TwoTexts.{answers_beside_blocks, answers_beside_profile};
ghost use Rattle.mte_engine.specs.Replay.{ReplayOnAnswers};
ghost use Rattle.tool_call.specs.Options.{AreValid, IsValid, config_of, has_two_texts};
ghost use Rattle.tool_call.specs.declared.call.CommandName.TheVariants.{Replay};

use crate::checking::check;
use crate::engine::{Status, run_engine};
use crate::fault::ToolFault;
use crate::fit_checking::check_fit;
use crate::fit_engine::fit;
use crate::measuring::footprint;
use crate::peaking::peaks;
use crate::profiling::profile;
use crate::replaying::replay;
use crate::running::run;
use crate::scoring::score;
use crate::table_command::TableCommand;
use crate::tuning::tune;
use crate::two_texts::{BesideBlocks, BesideProfile, BesideTrace, BlocksCommand, ProfileCommand};
use byte_streams::{ByteSink, ByteSource};
use std::alloc::Global;
use tool_call::{Call, CommandName, Options};

/// Runs the engine of a call, with the call's options, from the source to the sink.
pub fn run_call<R: ByteSource, W: ByteSink>(
    call: Call,
    alloc: Global,
    source: &mut R,
    sink: &mut W,
) -> Result<Status, ToolFault>
    requires { IsValid call }
    ensures { Runs (answers_of call) (R.state source.old) (R.state source.new) W.state sink.old sink.new result }
{
    let options = call.options;
    match call.command {
        CommandName::Score => score(alloc, options, source, sink),
        CommandName::Tune => tune(alloc, options, source, sink),
        CommandName::Check => check(alloc, options, source, sink),
        CommandName::Footprint => footprint(alloc, options, source, sink),
        CommandName::Fit => fit(alloc, options, source, sink),
        CommandName::CheckFit => check_fit(alloc, options, source, sink),
        CommandName::Peaks => peaks(alloc, options, source, sink),
        CommandName::Profile => profile(alloc, options, source, sink),
        CommandName::Replay => replay(alloc, options, source, sink),
        CommandName::Run => run(alloc, options, source, sink),
    }
}

/// Runs the engine of a call over two texts, with the call's options: the source gives what comes after the first text, which has to be a
/// class line, a sheet or a fit and nothing else. The last line of either may lack its newline. That the second text is too long comes before
/// all other faults, then those of the first text, then those of the second; a fault's line is counted in its own text.
pub fn run_call_on<R: ByteSource, W: ByteSink>(
    call: Call,
    alloc: Global,
    first: &[u8],
    source: &mut R,
    sink: &mut W,
) -> Result<Status, ToolFault>
    requires valid { IsValid call }
    requires two { has_two_texts call.command ≡ true }
    ensures { Runs (answers_on call first.now) (R.state source.old) (R.state source.new)
        W.state sink.old sink.new result }
{
    let options = call.options;
    match call.command {
        CommandName::Score => {
            beside_profile(alloc, ProfileCommand::Score, options, first, source, sink)
        }
        CommandName::Check => {
            beside_profile(alloc, ProfileCommand::Check, options, first, source, sink)
        }
        CommandName::Footprint => {
            let command = BlocksCommand::OfTable(TableCommand::Footprint);
            beside_blocks(alloc, command, options, first, source, sink)
        }
        CommandName::CheckFit => {
            beside_blocks(alloc, BlocksCommand::CheckFit, options, first, source, sink)
        }
        CommandName::Peaks => {
            let command = BlocksCommand::OfTable(TableCommand::Peaks);
            beside_blocks(alloc, command, options, first, source, sink)
        }
        CommandName::Replay => replay_beside(alloc, options, first, source, sink),
        _ => run_call(call, alloc, source, sink),
    }
}

fn replay_beside<R: ByteSource, W: ByteSink>(
    alloc: Global,
    options: Options,
    first: &[u8],
    source: &mut R,
    sink: &mut W,
) -> Result<Status, ToolFault>
    requires { AreValid Replay options }
    ensures { Runs (ReplayOnAnswers (config_of options) first.now) (R.state source.old) (R.state source.new)
        W.state sink.old sink.new result }
{
    let engine = BesideTrace {
        config: options.config(),
        class: first,
    };
    run_engine(alloc, &engine, source, sink)
}

fn beside_profile<R: ByteSource, W: ByteSink>(
    alloc: Global,
    command: ProfileCommand,
    options: Options,
    first: &[u8],
    source: &mut R,
    sink: &mut W,
) -> Result<Status, ToolFault>
    ensures { Runs (answers_beside_profile command options first.now) (R.state source.old) (R.state source.new)
        W.state sink.old sink.new result }
{
    let engine = BesideProfile {
        command,
        options,
        first,
    };
    run_engine(alloc, &engine, source, sink)
}

fn beside_blocks<R: ByteSource, W: ByteSink>(
    alloc: Global,
    command: BlocksCommand,
    options: Options,
    first: &[u8],
    source: &mut R,
    sink: &mut W,
) -> Result<Status, ToolFault>
    ensures { Runs (answers_beside_blocks command options first.now) (R.state source.old) (R.state source.new)
        W.state sink.old sink.new result }
{
    let engine = BesideBlocks {
        command,
        options,
        first,
    };
    run_engine(alloc, &engine, source, sink)
}
