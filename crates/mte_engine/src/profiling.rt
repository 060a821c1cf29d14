//! `profile`: how often each size is requested in a trace.
ghost use Rattle.mte_engine.specs.Outcome.{GivesAnswer, Runs};
ghost use Rattle.mte_engine.specs.Profile.{profile_answers};
ghost use Rattle.byte_streams.specs.TextLeft.{text_left};
ghost use Rattle.mte_engine.specs.Traces.{KeepsCounts};
ghost use Rattle.std.specs.Prelude.{◌≡◌, List, ℕ, false};
ghost use Rattle.trace_reader.specs.Reading.{is_finished};

use crate::engine::{Engine, Status, run_engine};
use crate::fault::{AnswerError, ToolFault};
use crate::trace_counting::{count_out, count_rest, feed_counted};
use crate::trace_feeding::end;
use byte_streams::{ByteSink, ByteSource, Input, Text};
use line_text::first_line;
use profile_count::Profile;
use std::alloc::{AllocError, Global};
use tool_call::Options;
use trace_reader::{NoObserver, TraceReader};

/// Reads a trace, and writes the profile of its requests: how often each size was requested by a malloc, a calloc or a realloc, also where
/// a replay would refuse it. Of the trace it keeps no more than the events of one piece and the unfinished line.
///
/// Faults of the input (`Input`), in this order: that it is too long; the first faulty line of the trace. `ToolFault` has the other faults,
/// and what the sink took when one comes.
pub fn profile<R: ByteSource, W: ByteSink>(
    alloc: Global,
    options: Options,
    source: &mut R,
    sink: &mut W,
) -> Result<Status, ToolFault>
    ensures { Runs (profile_answers options)
        (R.state source.old) (R.state source.new) W.state sink.old sink.new result }
{
    run_engine(alloc, &ProfileEngine { options }, source, sink)
}

// the options of `profile`
#[derive(Drop)]
struct ProfileEngine {
    options: Options,
}

impl Engine for ProfileEngine {
    type Input = CountedTrace;

    type Output = Text;

    ghost answers = { λ e. profile_answers e.options };

    fn input(&self, alloc: Global) -> Result<CountedTrace, AllocError> {
        let profile = Profile::new(alloc)?;
        Ok(CountedTrace {
            reader: TraceReader::new(alloc),
            profile,
        })
    }

    fn answer(&self, alloc: Global, input: CountedTrace) -> Result<(Text, Status), AnswerError> {
        profile_of_trace(alloc, self.options, input)
    }
}

// a trace of which only the counts are kept
#[derive(Drop)]
struct CountedTrace {
    reader: TraceReader,
    profile: Profile,
    ghost open: { is_finished reader ≡ false },
}

impl Input for CountedTrace {
    ghost has_taken = { λ input bytes. KeepsCounts input.reader input.profile bytes };

    fn take(&mut self, piece: &[u8]) -> Result<(), AllocError> {
        let mut text = piece;
        while let Some((line, after)) = first_line(text) {
            feed_counted(&mut self.reader, &mut self.profile, line)?;
            feed_counted(&mut self.reader, &mut self.profile, b"\n")?;
            text = count_rest(&mut self.reader, &mut self.profile, after)?;
        }
        feed_counted(&mut self.reader, &mut self.profile, text)
    }
}

// the answer to a trace
fn profile_of_trace(
    alloc: Global,
    options: Options,
    input: CountedTrace,
) -> Result<(Text, Status), AnswerError>
    ensures { (bytes : List ℕ) → KeepsCounts input.reader input.profile bytes →
        GivesAnswer text_left (profile_answers options bytes) result }
{
    let CountedTrace {
        mut reader,
        mut profile,
    } = input;
    end(&mut reader, 0, &mut NoObserver)?;
    count_out(&mut reader, &mut profile);
    let mut text = Vec::new(alloc);
    profile.write(&mut text)?;
    Ok((Text::new(text), Status::Done))
}
