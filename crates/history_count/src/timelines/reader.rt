//! A timeline that comes in pieces.
ghost use Rattle.std.specs.Prelude.{◌≡◌, ◌≤◌, ◌+◌, ◌++◌, ◌∷◌, [], List, ℕ, IfOk, None, OnOk, length};
ghost use Rattle.line_text.specs.Lines.{IsLine, ended};
ghost use Rattle.history_count.specs.Timelines.Pieces.{AreWholeLines, IsFed, IsReadingOf, nothing_read};
ghost use Rattle.history_count.specs.declared.timelines.fault.TimelineError.TheVariants.{Line};
ghost use Rattle.history_count.specs.Timelines.TimelineText.{GivesTimeline, head_line, timeline_of};

use crate::timelines::counting::zeros;
use crate::timelines::fault::{TimelineError, TimelineFault};
use crate::timelines::live::SIZES;
use crate::timelines::taking::{LONGEST_LINE, take_lines, whole_lines};
use crate::timelines::timeline::Timeline;
use line_text::{first_line, lines_in};
use std::alloc::{AllocError, Global};
use std::marker::Model;
use tuner_theory::{GREATEST_COUNT, SizeEvent};

/// Reads the lines after a timeline's first one, which come in pieces of any size. Of the text it keeps only the bytes of the unfinished line,
/// at most 6.
#[derive(Debug, Drop)]
pub struct TimelineReader {
    events: Vec<SizeEvent>,
    // how many blocks of each size are live
    live: Vec<u32>,
    // what was read of the unfinished line
    rest: Vec<u8>,
    // the fault of the line after those of the events, if it was found
    fault: Option<TimelineFault>,
}

impl Model for TimelineReader {
    ghost use Rattle.std.specs.Prelude.{◌≤◌, length};
    ghost use Rattle.line_text.specs.Lines.{IsLine};
    ghost use Rattle.history_count.specs.Timelines.Pieces.{AreCountsUnless, Reading};
    ghost use Rattle.history_count.specs.Timelines.Runs.{IsRun};
    ghost use Rattle.history_count.specs.declared.timelines.taking.TheConstants.{LONGEST_LINE};

    ghost Value = { Reading };

    ghost view = { λ r. record { events = r.events.items; fault = r.fault; rest = r.rest.items } };

    ghost invariant = { λ r. IsRun r.events.items × AreCountsUnless r.fault r.events.items r.live.items
        × IsLine r.rest.items × (length r.rest.items ≤ LONGEST_LINE) };
}

impl TimelineReader {
    /// A reader that has read nothing. The only error is that the allocator refuses memory.
    pub fn new(alloc: Global) -> Result<TimelineReader, AllocError>
        ensures { IfOk result (λ reader. reader ≡ nothing_read) }
    {
        Ok(TimelineReader {
            events: Vec::new(alloc),
            live: zeros(alloc, SIZES)?,
            rest: Vec::new(alloc),
            fault: None,
        })
    }

    /// Reads the next piece of the text, which may begin and end within a line. The reader keeps a fault of the text until `finish`. The only
    /// error is that the allocator refuses memory.
    pub fn feed(&mut self, piece: &[u8]) -> Result<(), AllocError>
        ensures { OnOk result
            ((bytes : List ℕ) → IsReadingOf self.old bytes → IsReadingOf self.new (bytes ++ piece.now)) }
    {
        let Some((end, after)) = first_line(piece) else {
            return self.keep(piece);
        };
        self.keep(end)?;
        self.end_line()?;
        let (whole, rest) = whole_lines(after);
        self.take(whole)?;
        self.keep(rest)
    }

    /// Ends the text, whose last line may lack its newline. Errors: the first faulty line of the timeline with its fault, or `OutOfMemory`.
    pub fn finish(self) -> Result<Timeline, TimelineError>
        ensures { (bytes : List ℕ) → IsReadingOf self bytes
            → GivesTimeline result (timeline_of (ended head_line ++ bytes)) }
    {
        let TimelineReader {
            mut events,
            mut live,
            rest,
            fault,
        } = self;
        if let Some(fault) = fault {
            return Err(error_after(&events, fault));
        }
        match take_lines(&mut events, &mut live, lines_in(&rest))? {
            None => Ok(Timeline::new(events)),
            Some(fault) => Err(error_after(&events, fault)),
        }
    }

    // appends bytes without a newline to the unfinished line
    fn keep(&mut self, bytes: &[u8]) -> Result<(), AllocError>
        requires { IsLine bytes.now }
        ensures { OnOk result (IsFed self.old bytes.now self.new) }
    {
        if self.fault.is_some() {
            return Ok(());
        }
        if bytes.len() > LONGEST_LINE - self.rest.len() {
            self.fault = Some(TimelineFault::BadTimeline);
            return Ok(());
        }
        self.rest.extend_from_slice(bytes)
    }

    // ends the unfinished line by a newline
    fn end_line(&mut self) -> Result<(), AllocError>
        ensures fed { OnOk result (IsFed self.old (10 ∷ []) self.new) }
        ensures start { OnOk result (self.new.fault ≡ None → self.new.rest ≡ []) }
    {
        if self.fault.is_some() {
            return Ok(());
        }
        self.rest.push(b'\n')?;
        let taken = take_lines(&mut self.events, &mut self.live, lines_in(&self.rest));
        self.rest.clear();
        self.fault = taken?;
        Ok(())
    }

    // takes whole lines, each with its newline, where no line is unfinished
    fn take(&mut self, text: &[u8]) -> Result<(), AllocError>
        requires start { self.old.fault ≡ None → self.old.rest ≡ [] }
        requires whole { AreWholeLines text.now }
        ensures { OnOk result (IsFed self.old text.now self.new) }
    {
        if self.fault.is_some() {
            return Ok(());
        }
        self.fault = take_lines(&mut self.events, &mut self.live, lines_in(text))?;
        Ok(())
    }
}

// the fault of the line after those of the events
fn error_after(events: &[SizeEvent], fault: TimelineFault) -> TimelineError
    requires { length events.now ≤ GREATEST_COUNT }
    ensures { result ≡ Line (length events.now + 2) fault }
{
    TimelineError::Line(events.len() as u32 + 2, fault)
}
