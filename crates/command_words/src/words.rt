//! The words of the command line, and the call that they mean.
ghost use Rattle.std.specs.Prelude.{◌≡◌, IfOk, MatchResult, map, string_bytes};
ghost use Rattle.clap.specs.Words.{app_of, kind_of};
ghost use Rattle.clap.specs.declared.error.kind.ErrorKind.TheVariants.{InvalidValue};
ghost use Rattle.command_words.specs.AcceptedWords.{program, top};
ghost use Rattle.command_words.specs.Words.{AreRefused, IsNoText, Mean};

use crate::call::call_of;
use crate::commands::clap_words;
use crate::refusal::Refusal;
use clap::Command;
use clap::error::ErrorKind;
use std::alloc::{AllocError, Global};
use tool_call::{COMMANDS, Call};

const ABOUT: &str = "\
Find the table of at most K size classes that wastes least, or takes least, for what a program
allocates, prove that it does, and run the program's allocations on a heap with memory tags.";

const AFTER: &str = "\
All input is read from standard input; no file is opened. `mte_tool COMMAND --help` explains a
command's input and output.

A fault is one line on standard error, `error CODE NAME`, with ` line L` after it where it is in
line L of the input; lines are counted from 1. Refused words are reported in clap's words.

Exit status:
  0  done
  1  done, and the verdict is no
  2  the words, an option or the input are refused
  3  there is no memory, or a read or a write failed

docs/FORMATS.md in the repository has the formats and all codes.";

const NOT_TEXT: &str = "a word of the command line is not UTF-8";

// the program's words, with its commands
fn command<'a>(alloc: Global) -> Result<Command<'a>, AllocError>
    ensures { IfOk result (λ command. app_of command ≡ program) }
{
    let mut command = top_words(alloc);
    for name in COMMANDS {
        match clap_words(alloc, *name) {
            Ok(words) => command = command.subcommand(words)?,
            Err(error) => return Err(error),
        }
    }
    Ok(command)
}

// the words of the program itself: one of its commands has to be named
fn top_words<'a>(alloc: Global) -> Command<'a>
    ensures { app_of result ≡ top }
{
    Command::new(alloc, "mte_tool")
        .version("1.0.0")
        .about(ABOUT)
        .after_help(AFTER)
        .subcommand_required(true)
        .arg_required_else_help(true)
}

/// The call that these words mean. The first word is the program's name.
pub fn read_call(alloc: Global, words: &[String]) -> Result<Call, Refusal>
    ensures { MatchResult result (Mean (map string_bytes words.now)) (AreRefused (map string_bytes words.now)) }
{
    let matches = command(alloc)?.try_get_matches_from(words)?;
    Ok(call_of(&matches)?)
}

/// The refusal of a command line that has a word that is not UTF-8.
pub fn no_text(alloc: Global) -> Refusal
    ensures { IsNoText result }
{
    match no_text_error(alloc) {
        Ok(error) => error.into(),
        Err(error) => error.into(),
    }
}

fn no_text_error(alloc: Global) -> Result<clap::Error, AllocError>
    ensures { IfOk result (λ error. kind_of error ≡ InvalidValue) }
{
    let mut command = command(alloc)?;
    command.error(ErrorKind::InvalidValue, NOT_TEXT)
}
