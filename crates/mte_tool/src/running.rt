//! The call that the words of the command line mean, run by its engine.
ghost use Rattle.std.specs.Prelude.{◌≡◌, IfOk, MatchResult, map, string_bytes};
ghost use Rattle.command_words.specs.Words.{AreRefused, Mean};
ghost use Rattle.mte_engine.specs.Calls.{answers_of};
ghost use Rattle.mte_engine.specs.Outcome.{Runs};
ghost use Rattle.mte_tool.specs.Calls.{MatchEnd};
ghost use Rattle.mte_tool.specs.declared.running.CallEnd.TheVariants.{Refused};
ghost use Rattle.tool_call.specs.Options.{IsValid};

use command_words::{Refusal, read_call};
use mte_engine::{ByteSink, ByteSource, Call, Status, ToolFault, run_call};
use std::alloc::Global;

/// How the words of a command line came out.
#[derive(Debug, Drop)]
pub enum CallEnd {
    /// The call that they mean has run.
    Done(Status),
    /// The call that they mean has failed.
    Failed(ToolFault),
    /// They mean no call, or memory ran out while they were read. No call ran.
    Refused(Refusal),
}

/// Runs the call that these words mean. The first word is the program's name. If the words are refused, source and sink are unchanged.
pub fn run_call_of<R: ByteSource, W: ByteSink>(
    alloc: Global,
    words: &[String],
    source: &mut R,
    sink: &mut W,
) -> CallEnd
    ensures { MatchEnd result
        (λ end. (call : Call) × Mean (map string_bytes words.now) call
        × Runs (answers_of call) (R.state source.old) (R.state source.new) W.state sink.old sink.new end)
        (λ refusal. AreRefused (map string_bytes words.now) refusal × (source.new ≡ source.old)
        × (sink.new ≡ sink.old)) }
{
    run_read(alloc, read_call(alloc, words), source, sink)
}

// runs the call that was read, or passes on why there is none
fn run_read<R: ByteSource, W: ByteSink>(
    alloc: Global,
    read: Result<Call, Refusal>,
    source: &mut R,
    sink: &mut W,
) -> CallEnd
    requires { IfOk read (λ call. IsValid call) }
    ensures { MatchResult read
        (λ call. MatchEnd result
        (Runs (answers_of call) (R.state source.old) (R.state source.new) W.state sink.old sink.new) (λ refusal. ⊥))
        (λ refusal. (result ≡ Refused refusal) × (source.new ≡ source.old) × (sink.new ≡ sink.old)) }
{
    match read {
        Ok(call) => match run_call(call, alloc, source, sink) {
            Ok(status) => CallEnd::Done(status),
            Err(fault) => CallEnd::Failed(fault),
        },
        Err(refusal) => CallEnd::Refused(refusal),
    }
}
