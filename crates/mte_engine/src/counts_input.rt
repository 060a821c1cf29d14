//! An input that is a timeline or another text. Of a timeline the events are kept, and no text.
ghost use Rattle.std.specs.Prelude.{◌≡◌, ◌++◌, List, ℕ, IfOk, OnOk, [], false};
ghost use Rattle.history_count.specs.HistoryText.{history_of};
ghost use Rattle.history_count.specs.Timelines.Pieces.{IsReadingOf};
ghost use Rattle.history_count.specs.Timelines.TimelineText.{head_line, timeline_of};
ghost use Rattle.line_text.specs.Lines.{ended};
ghost use Rattle.mte_engine.specs.Parts.{AreFewLines, GivesPart, history_part, timeline_part};
ghost use Rattle.mte_engine.specs.CountsInput.{GivesCounts, HasTakenCounts};

use crate::fault::{AnswerError, InputFault};
use crate::input_parts::{begins_timeline, read_history, read_timeline};
use byte_streams::{Input, WholeText};
use history_count::{History, HistoryFault, TIMELINE, Timeline, TimelineError, TimelineReader};
use line_text::first_line;
use std::alloc::{AllocError, Global};

/// What was read of a timeline; or a text, until its first line is known to be that of a timeline.
#[derive(Drop)]
pub(crate) struct CountsInput {
    text: WholeText,
    // whether the text began as a timeline does, and the reader was fed all that came after that line
    is_timeline: bool,
    reader: TimelineReader,
}

impl CountsInput {
    /// An input that has taken no bytes.
    pub(crate) fn new(alloc: Global) -> Result<CountsInput, AllocError>
        ensures { IfOk result (λ input. HasTakenCounts input []) }
    {
        Ok(CountsInput {
            text: WholeText::new(alloc),
            is_timeline: false,
            reader: TimelineReader::new(alloc)?,
        })
    }

    // has the reader go on if the text is known to be a timeline's
    fn begin(&mut self) -> Result<(), AllocError>
        requires { self.old.is_timeline ≡ false }
        ensures { OnOk result
            ((bytes : List ℕ) → HasTakenCounts self.old bytes → HasTakenCounts self.new bytes) }
    {
        let Some((line, rest)) = first_line(&self.text.text) else {
            return Ok(());
        };
        if line != TIMELINE {
            return Ok(());
        }
        self.reader.feed(rest)?;
        self.is_timeline = true;
        Ok(())
    }
}

impl Input for CountsInput {
    ghost has_taken = { HasTakenCounts };

    fn take(&mut self, piece: &[u8]) -> Result<(), AllocError> {
        if self.is_timeline {
            return self.reader.feed(piece);
        }
        // a longer text has another first line
        let may_begin = self.text.text.len() <= TIMELINE.len();
        self.text.take(piece)?;
        if may_begin {
            return self.begin();
        }
        Ok(())
    }
}

/// A timeline, or a text that does not begin as one.
#[derive(Drop)]
pub(crate) enum Counts {
    Timeline(Timeline),
    Text(Vec<u8>),
}

/// What an input is, which follows this many lines of its input.
pub(crate) fn read_counts(
    alloc: Global,
    input: CountsInput,
    before: u64,
) -> Result<Counts, AnswerError>
    requires { AreFewLines before }
    ensures { (bytes : List ℕ) → HasTakenCounts input bytes → GivesCounts result before bytes }
{
    let CountsInput {
        text,
        is_timeline,
        reader,
    } = input;
    if is_timeline {
        return Ok(Counts::Timeline(end_timeline(reader, before)?));
    }
    let text = text.text;
    if begins_timeline(&text) {
        return Ok(Counts::Timeline(read_timeline(alloc, &text, before)?));
    }
    Ok(Counts::Text(text))
}

/// The timeline that an input is, which follows this many lines of its input.
pub(crate) fn read_as_timeline(
    alloc: Global,
    input: CountsInput,
    before: u64,
) -> Result<Timeline, AnswerError>
    requires { AreFewLines before }
    ensures { (bytes : List ℕ) → HasTakenCounts input bytes
        → GivesPart result (timeline_part before (timeline_of bytes)) }
{
    let CountsInput {
        text,
        is_timeline,
        reader,
    } = input;
    if is_timeline {
        return end_timeline(reader, before);
    }
    read_timeline(alloc, &text.text, before)
}

/// The history that an input is, which follows this many lines of its input.
pub(crate) fn read_as_history(
    alloc: Global,
    input: CountsInput,
    before: u64,
) -> Result<History, AnswerError>
    requires { AreFewLines before }
    ensures { (bytes : List ℕ) → HasTakenCounts input bytes
        → GivesPart result (history_part before (history_of bytes)) }
{
    let CountsInput {
        text,
        is_timeline,
        reader: _,
    } = input;
    if is_timeline {
        return Err(AnswerError::Input(InputFault::History(before + 1, HistoryFault::BadSnapshots)));
    }
    read_history(alloc, &text.text, before)
}

/// The timeline that was read, which follows this many lines of its input.
pub(crate) fn end_timeline(reader: TimelineReader, lines: u64) -> Result<Timeline, AnswerError>
    requires { AreFewLines lines }
    ensures { (bytes : List ℕ) → IsReadingOf reader bytes
        → GivesPart result (timeline_part lines (timeline_of (ended head_line ++ bytes))) }
{
    match reader.finish() {
        Ok(timeline) => Ok(timeline),
        Err(TimelineError::OutOfMemory) => Err(AnswerError::OutOfMemory),
        Err(TimelineError::Line(number, fault)) => Err(AnswerError::Input(InputFault::Timeline(
            lines + u64::from(number),
            fault,
        ))),
    }
}
