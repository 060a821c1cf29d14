//! The program: its words, its streams, and how it ends.
ghost use Rattle.std.specs.Prelude.{◌≡◌, ⊤, IfErr, MatchResult, map, string_bytes};
ghost use Rattle.command_words.specs.Words.{AreRefused, IsNoText, Mean};
ghost use Rattle.mte_tool.specs.RefusedRun.{EndsWithout, IsToldEnd, IsShown, TellsSome};
ghost use Rattle.mte_tool.specs.Told.{IsSilent, IsWaitingAtMost, Tells, option_line};
ghost use Rattle.mte_tool.specs.WholeRun.{AreNew, HasRun};
ghost use Rattle.mte_tool.specs.declared.end.End.TheVariants.{Ended};

use crate::end::End;
use crate::lines::{tell, tell_fault, write_text};
use crate::running::{CallEnd, run_call_of};
use clap::error::ErrorKind;
use command_words::{OptionFault, Refusal, no_text, read_call};
use mte_engine::{ByteSink, ByteSource, Status, ToolFault};
use std::alloc::Global;
use std::io;
use std::rt::Env;

const WAITS: &str =
    "mte_tool: reading standard input; Ctrl-D ends it, and `--help` after the command says what it takes\n";

// where clap's text of refused words is not to be had, as there is no memory for it
const NO_TEXT: &str = "error: the words are refused, and there is no memory to say why\n";

const TIP: &str =
    "\ntip: the input is standard input, and no file is named: mte_tool COMMAND < FILE\n";

/// Runs the program on the words of its command line, or on why they can't be read, from the source to the sink. If it refuses the words
/// or the command fails, it tells why on `errors`. Before it reads the source from a terminal, it says there that it waits.
pub fn run<S: ByteSource, W: ByteSink, E: ByteSink>(
    alloc: Global,
    words: Result<Vec<String>, Refusal>,
    at_terminal: bool,
    source: &mut S,
    sink: &mut W,
    errors: &mut E,
) -> End
    requires { AreNew (S.state source.old) (W.state sink.old) (E.state errors.old) }
    ensures { MatchResult words
        (λ read. HasRun (Mean (map string_bytes read.items)) (AreRefused (map string_bytes read.items))
        (S.state source.new) (W.state sink.new) (E.state errors.new) result)
        (λ refusal. HasRun (λ call. ⊥) (λ why. why ≡ refusal)
        (S.state source.new) (W.state sink.new) (E.state errors.new) result) }
{
    match words {
        Ok(words) => run_words(alloc, words.as_slice(), at_terminal, source, sink, errors),
        Err(refusal) => refuse(alloc, &refusal, sink, errors),
    }
}

/// Runs the call that these words mean, from the source to the sink.
pub fn run_words<S: ByteSource, W: ByteSink, E: ByteSink>(
    alloc: Global,
    words: &[String],
    at_terminal: bool,
    source: &mut S,
    sink: &mut W,
    errors: &mut E,
) -> End
    requires { AreNew (S.state source.old) (W.state sink.old) (E.state errors.old) }
    ensures { HasRun (Mean (map string_bytes words.now)) (AreRefused (map string_bytes words.now))
        (S.state source.new) (W.state sink.new) (E.state errors.new) result }
{
    tell_waiting(alloc, words, at_terminal, errors);
    match run_call_of(alloc, words, source, sink) {
        CallEnd::Done(status) => End::Ended(Ok(status)),
        CallEnd::Failed(fault) => fail(fault, errors),
        CallEnd::Refused(refusal) => refuse(alloc, &refusal, sink, errors),
    }
}

// Says at a terminal that the program waits, if the words mean a call. They are read here for this alone: `run_call_of` reads the words
// itself, so that its contract covers the whole run.
fn tell_waiting<E: ByteSink>(alloc: Global, words: &[String], at_terminal: bool, errors: &mut E)
    requires { IsSilent (E.state errors.old) }
    ensures { IsWaitingAtMost (E.state errors.new) }
{
    if at_terminal && read_call(alloc, words).is_ok() {
        tell(WAITS, errors);
    }
}

/// The words of the command line; the error is that memory ran out or that a word is no text.
pub fn words<R: Env + AllocGlobal>(rt: &R) -> Result<Vec<String>, Refusal>
    ensures { IfErr result IsNoText }
{
    match std::env::args(rt) {
        Ok(words) => Ok(words.collect(rt.alloc())?),
        Err(error) if error.kind() == io::ErrorKind::OutOfMemory => Err(Refusal::OutOfMemory),
        Err(_) => Err(no_text(rt.alloc())),
    }
}

// tells a command's fault
fn fail<E: ByteSink>(fault: ToolFault, errors: &mut E) -> End
    ensures { IsToldEnd fault (E.state errors.old) (E.state errors.new) result }
{
    tell_fault(fault, errors);
    End::Ended(Err(fault))
}

// tells why no command runs, or writes the help that was asked for
fn refuse<W: ByteSink, E: ByteSink>(
    alloc: Global,
    refusal: &Refusal,
    sink: &mut W,
    errors: &mut E,
) -> End
    ensures { EndsWithout refusal.now W.state sink.old sink.new (E.state errors.old) (E.state errors.new) result }
{
    match refusal {
        Refusal::OutOfMemory => fail(ToolFault::OutOfMemory, errors),
        Refusal::Options(fault) => {
            tell_option_fault(*fault, errors);
            End::Refused
        }
        Refusal::Words(error) if error.use_stderr() => {
            tell_mistake(alloc, error, errors);
            End::Refused
        }
        Refusal::Words(error) => match error.to_string(alloc) {
            // clap's text is not empty, but its contract doesn't say so
            Ok(text) if !text.is_empty() => show(text.as_str(), sink, errors),
            _ => fail(ToolFault::OutOfMemory, errors),
        },
    }
}

// tells an option's fault
fn tell_option_fault<E: ByteSink>(fault: OptionFault, errors: &mut E)
    ensures { Tells (option_line fault) (E.state errors.old) (E.state errors.new) }
{
    match fault {
        OptionFault::BadOption => tell("error 83 BadOption\n", errors),
    }
}

// tells what clap says of words that are refused
fn tell_mistake<E: ByteSink>(alloc: Global, error: &clap::Error, errors: &mut E)
    ensures { TellsSome (E.state errors.old) (E.state errors.new) }
{
    match error.to_string(alloc) {
        Ok(text) if !text.is_empty() => {
            let is_told = write_text(text.as_str(), errors).is_ok();
            if is_told && error.kind() == ErrorKind::UnknownArgument {
                tell(TIP, errors);
            }
        }
        _ => tell(NO_TEXT, errors),
    }
}

// writes the help that was asked for
fn show<W: ByteSink, E: ByteSink>(text: &str, sink: &mut W, errors: &mut E) -> End
    ensures { IsShown text.now (W.state sink.old) (W.state sink.new) (E.state errors.old) (E.state errors.new) result }
{
    match write_text(text, sink) {
        Ok(()) => End::Shown,
        Err(_) => fail(ToolFault::WriteFault, errors),
    }
}
