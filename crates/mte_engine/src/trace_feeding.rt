//! Traces as the engines read them: fed in pieces, and ended.
ghost use Rattle.std.specs.Prelude.{◌≡◌, ◌≤◌, length, false, OnOk};
ghost use Rattle.trace_reader.specs.TraceLine.{most_events};
ghost use Rattle.trace_reader.specs.Reading.{fed, finished, is_finished};
ghost use Rattle.mte_engine.specs.Parts.{AreFewLines};
ghost use Rattle.mte_engine.specs.Traces.{HasEnded};

use crate::fault::{AnswerError, InputFault};
use std::alloc::AllocError;
use trace_reader::{Observer, TraceError, TraceReader};

/// Feeds a piece of a trace, whose events the observer sees. The reader keeps a fault of its text.
pub fn feed<O: Observer>(
    reader: &mut TraceReader,
    piece: &[u8],
    observer: &mut O,
) -> Result<(), AllocError>
    requires { is_finished reader.old ≡ false }
    ensures fed { OnOk result (reader.new ≡ fed reader.old piece.now) }
    ensures unfinished { is_finished reader.new ≡ false }
    ensures seen { OnOk result
        (O.has_seen observer.old reader.old.events → O.has_seen observer.new reader.new.events) }
{
    match reader.feed_observed(piece, observer) {
        Err(TraceError::OutOfMemory) => Err(AllocError),
        _ => Ok(()),
    }
}

/// Ends a trace that follows this many lines of its input, and whose last event the observer may see.
pub fn end<O: Observer>(
    reader: &mut TraceReader,
    lines: u64,
    observer: &mut O,
) -> Result<(), AnswerError>
    requires open { is_finished reader.old ≡ false }
    requires few { AreFewLines lines }
    ensures events { OnOk result (reader.new ≡ finished reader.old) }
    ensures ended { HasEnded lines (finished reader.old).state result }
    ensures few { OnOk result (length reader.new.events ≤ most_events) }
    ensures seen { OnOk result
        (O.has_seen observer.old reader.old.events → O.has_seen observer.new reader.new.events) }
{
    match reader.finish_observed(observer) {
        Ok(()) => Ok(()),
        Err(TraceError::OutOfMemory) => Err(AnswerError::OutOfMemory),
        Err(TraceError::Line(number, fault)) => Err(AnswerError::Input(InputFault::Trace(
            lines + u64::from(number),
            fault,
        ))),
    }
}
