//! The commands: the words and the help of each.
ghost use Rattle.std.specs.Prelude.{◌≡◌, IfOk};
ghost use Rattle.command_words.specs.AcceptedWords.{HasWords, name_of, words_of};
ghost use Rattle.command_words.specs.Calls.{IsNamed};

use self::shared_help::Words;
use clap::Command;
use std::alloc::{AllocError, Global};
use tool_call::{CommandName, options_of};

pub mod check;
pub mod check_fit;
pub mod fit;
pub mod footprint;
pub mod peaks;
pub mod profile;
pub mod replay;
pub mod run;
pub mod score;
pub mod shared_help;
pub mod tune;

/// The words of a command for clap, with its options and its help.
#[inline(always)]
pub fn clap_words<'a>(alloc: Global, name: CommandName) -> Result<Command<'a>, AllocError>
    ensures { IfOk result (λ command. HasWords command (words_of name)) }
{
    name_and_about(name).command(alloc, options_of(name), text_after(name))
}

/// The command of this name.
pub fn command_named(name: &str) -> Option<CommandName>
    ensures { IsNamed name.now result }
{
    match name {
        score::NAME => Some(CommandName::Score),
        tune::NAME => Some(CommandName::Tune),
        check::NAME => Some(CommandName::Check),
        footprint::NAME => Some(CommandName::Footprint),
        fit::NAME => Some(CommandName::Fit),
        check_fit::NAME => Some(CommandName::CheckFit),
        peaks::NAME => Some(CommandName::Peaks),
        profile::NAME => Some(CommandName::Profile),
        replay::NAME => Some(CommandName::Replay),
        run::NAME => Some(CommandName::Run),
        _ => None,
    }
}

fn name_and_about(name: CommandName) -> Words
    ensures { result.name.now ≡ name_of name }
{
    match name {
        CommandName::Score => score::WORDS,
        CommandName::Tune => tune::WORDS,
        CommandName::Check => check::WORDS,
        CommandName::Footprint => footprint::WORDS,
        CommandName::Fit => fit::WORDS,
        CommandName::CheckFit => check_fit::WORDS,
        CommandName::Peaks => peaks::WORDS,
        CommandName::Profile => profile::WORDS,
        CommandName::Replay => replay::WORDS,
        CommandName::Run => run::WORDS,
    }
}

// The text after the options in the command's own help. It is no part of the words, so that the proofs that read those don't read it.
fn text_after(name: CommandName) -> &'static str {
    match name {
        CommandName::Score => score::AFTER,
        CommandName::Tune => tune::AFTER,
        CommandName::Check => check::AFTER,
        CommandName::Footprint => footprint::AFTER,
        CommandName::Fit => fit::AFTER,
        CommandName::CheckFit => check_fit::AFTER,
        CommandName::Peaks => peaks::AFTER,
        CommandName::Profile => profile::AFTER,
        CommandName::Replay => replay::AFTER,
        CommandName::Run => run::AFTER,
    }
}
