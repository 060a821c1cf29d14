ghost use Rattle.std.specs.Prelude.{◌≡◌, ◌≢◌, ◌≤◌, ◌+◌, [], ◌∷◌, ◌++◌, drop, length, slice_get, false, true, All, Err, IfErr, IfNone, IfOk, IfSome, MatchResult, OnOk, is_ok};
ghost use Rattle.line_text.specs.Lines.{IsLine, ended};
ghost use Rattle.trace_reader.specs.declared.fault.TraceError.TheVariants.{OutOfMemory};
ghost use Rattle.trace_event.specs.Ranges.{IsInRange};
ghost use Rattle.line_text.specs.Prefixes.{IsPrefix};
ghost use Rattle.trace_reader.specs.Reached.{HasReached, IsOnTheWay, answer_of};
ghost use Rattle.trace_reader.specs.Reading.State.{Failed};
ghost use Rattle.trace_reader.specs.TraceLine.{event_line};
ghost use Rattle.trace_reader.specs.Reading.{fed, finished, is_finished, nothing_read, IsJudgementIn, is_at_start, is_open, line_ended, with_judged};

use crate::batch::{BATCH, events_in_front};
use crate::event_queue::EventQueue;
use crate::events::Events;
use crate::fault::{TraceError, TraceFault};
use crate::kept_event::KeptEvent;
use crate::line::{LONGEST_LINE, MOST_EVENTS, event_in};
use crate::observer::{NoObserver, Observer};
use crate::one_pass::{ImmediateCaller, first_event};
use crate::status::Status;
use arrayvec::ArrayVec;
use line_text::first_line;
use std::alloc::Global;
use std::marker::Model;
use trace_event::Event;

/// Reads a trace that comes in pieces of any size. It keeps the events that were not yet taken out, and of the text only the bytes of the
/// unfinished line, at most 80.
#[derive(Debug, Drop)]
pub struct TraceReader {
    // the events that were not yet taken out
    events: EventQueue,
    // how many whole lines were read
    lines: u32,
    // what was read of the unfinished line
    rest: ArrayVec<u8, LONGEST_LINE>,
    status: Status,
}

impl Model for TraceReader {
    ghost use Rattle.std.specs.Prelude.{◌≤◌, All, length};
    ghost use Rattle.trace_event.specs.Ranges.{IsInRange};
    ghost use Rattle.trace_reader.specs.Reading.{Reading};

    ghost Value = { Reading };

    ghost use Rattle.trace_reader.specs.Status.{state_of};
    ghost use Rattle.trace_reader.specs.TraceLine.{most_events};

    ghost view = { λ r. record { events = r.events; state = state_of r.status r.lines r.rest.items } };

    ghost invariant = { λ r.
        (r.lines ≤ most_events) × (length r.events ≤ r.lines) × All IsInRange r.events };
}

impl TraceReader {
    /// A reader that has read nothing. It takes no memory yet.
    pub fn new(alloc: Global) -> TraceReader
        ensures { result ≡ nothing_read }
    {
        TraceReader {
            events: EventQueue::new(alloc),
            lines: 0,
            rest: ArrayVec::new(),
            status: Status::Open,
        }
    }

    /// Reads the next piece of the text, which may begin and end within a line. `next_event` takes out the events of the whole lines.
    /// It must not be called after `finish` has succeeded.
    ///
    /// Errors: the first faulty line with its fault, or `OutOfMemory`. After the first error the reader accepts no more input: each later
    /// call returns that error. The events read so far can still be taken out; they are a prefix of the trace's.
    pub fn feed(&mut self, piece: &[u8]) -> Result<(), TraceError>
        requires { is_finished self.old ≡ false }
        ensures answer { result ≡ answer_of self.new.state }
        ensures failed { (error : TraceError) → self.old.state ≡ Failed error → self.new ≡ self.old }
        ensures reading { result ≢ Err OutOfMemory → self.new ≡ fed self.old piece.now }
        ensures kept { IsPrefix self.old.events self.new.events }
        ensures prefix { IsPrefix self.new.events (fed self.old piece.now).events }
        ensures unfinished { is_finished self.new ≡ false }
    {
        self.feed_observed(piece, &mut NoObserver)
    }

    /// `feed`, with an observer that sees the events, each before it is kept. If it saw those that waited before, it has then seen those that
    /// wait, unless memory ran out.
    pub fn feed_observed<O: Observer>(
        &mut self,
        piece: &[u8],
        observer: &mut O,
    ) -> Result<(), TraceError>
        requires { is_finished self.old ≡ false }
        ensures reached { HasReached self.old (fed self.old piece.now) self.new result }
        ensures failed { (error : TraceError) → self.old.state ≡ Failed error → self.new ≡ self.old }
        ensures unfinished { is_finished self.new ≡ false }
        ensures seen { result ≢ Err OutOfMemory →
            O.has_seen observer.old self.old.events → O.has_seen observer.new self.new.events }
    {
        if let Status::Failed(error) = self.status {
            return Err(error);
        }
        let mut text = piece;
        while let Some((line, after)) = first_line(text) {
            self.end_line(line, observer)?;
            text = self.take_events(after, observer)?;
        }
        self.keep(text)
    }

    /// Ends the text. Its last line may lack its newline. The errors are those of `feed`. It must not be called again after it has
    /// succeeded.
    pub fn finish(&mut self) -> Result<(), TraceError>
        requires { is_finished self.old ≡ false }
        ensures answer { result ≡ answer_of self.new.state }
        ensures failed { (error : TraceError) → self.old.state ≡ Failed error → self.new ≡ self.old }
        ensures reading { result ≢ Err OutOfMemory → self.new ≡ finished self.old }
        ensures kept { IsPrefix self.old.events self.new.events }
        ensures prefix { IsPrefix self.new.events (finished self.old).events }
        ensures finished { is_finished self.new ≡ is_ok result }
        ensures few { OnOk result (length self.new.events ≤ MOST_EVENTS) }
    {
        self.finish_observed(&mut NoObserver)
    }

    /// `finish`, with an observer, as in `feed_observed`.
    pub fn finish_observed<O: Observer>(&mut self, observer: &mut O) -> Result<(), TraceError>
        requires { is_finished self.old ≡ false }
        ensures reached { HasReached self.old (finished self.old) self.new result }
        ensures failed { (error : TraceError) → self.old.state ≡ Failed error → self.new ≡ self.old }
        ensures finished { is_finished self.new ≡ is_ok result }
        ensures few { OnOk result (length self.new.events ≤ MOST_EVENTS) }
        ensures seen { O.has_seen observer.old self.old.events → O.has_seen observer.new self.new.events }
    {
        if let Status::Failed(error) = self.status {
            return Err(error);
        }
        if !self.rest.is_empty() {
            self.judge_rest(observer)?;
        }
        self.status = Status::Finished;
        Ok(())
    }

    /// Whether `finish` has succeeded. Then `feed` and `finish` must not be called again.
    pub fn is_finished(&self) -> bool
        ensures { result ≡ is_finished self.now }
    {
        matches!(self.status, Status::Finished)
    }

    /// Takes out the first event that was read and not yet taken out. `None` if there is none at present.
    /// The room of the events that were taken out is used again once it has returned `None`.
    pub fn next_event(&mut self) -> Option<Event>
        ensures event { result ≡ slice_get self.old.events 0 }
        ensures rest { self.new.events ≡ drop 1 self.old.events }
        ensures state { self.new.state ≡ self.old.state }
        ensures range { IfSome result IsInRange }
    {
        self.events.pop()
    }

    /// Takes out the first `n` of the events that wait (`events`).
    pub fn skip(&mut self, n: usize)
        requires { n ≤ length self.old.events }
        ensures events { self.new.events ≡ drop n self.old.events }
        ensures state { self.new.state ≡ self.old.state }
    {
        self.events.skip(n);
    }

    /// Whether the reader is open and stands at the start of a line: no line is unfinished. Then `read_event` may be called.
    pub fn is_at_start(&self) -> bool
        ensures { result ≡ is_at_start self.now }
    {
        matches!(self.status, Status::Open) && self.rest.is_empty()
    }

    /// Reads the first line of a text if it spells an event, and hands out the event at once; the events that wait are left where they are.
    /// Returns the text after the line, too. `None`, with nothing read, leaves the line to `feed`: it may spell an event all the same.
    #[inline(always)]
    pub fn read_event<'a>(&mut self, text: &'a [u8]) -> Option<(Event, &'a [u8])>
        requires { is_at_start self.old ≡ true }
        ensures line { IfSome result (λ found. text.now ≡ event_line found.0 ++ 10 ∷ found.1.now) }
        ensures event { IfSome result (λ found.
            record { events = self.old.events ++ found.0 ∷ []; state = self.new.state }
            ≡ fed self.old (ended (event_line found.0))) }
        ensures events { self.new.events ≡ self.old.events }
        ensures start { is_at_start self.new ≡ true }
        ensures none { IfNone result (self.new ≡ self.old) }
    {
        if self.lines == MOST_EVENTS {
            return None;
        }
        let (event, after) = first_event::<ImmediateCaller>(text)?;
        self.lines += 1;
        Some((event, after))
    }

    /// The events that were read and not yet taken out, in order.
    pub fn events(&self) -> Events<'_>
        ensures events { result ≡ self.now.events }
        ensures range { All IsInRange result }
    {
        self.events.events()
    }

    // Takes the events of the lines in front of a text, up to the first line that is not read in one pass, and returns the text from there.
    fn take_events<'a, O: Observer>(
        &mut self,
        text: &'a [u8],
        observer: &mut O,
    ) -> Result<&'a [u8], TraceError>
        requires { is_open self.old ≡ true }
        ensures way { MatchResult result
            (λ rest. IsOnTheWay self.old text.now self.new rest.now)
            (λ error. HasReached self.old (fed self.old text.now) self.new (Err error)) }
        ensures shorter { IfOk result (λ rest. length rest.now ≤ length text.now) }
        ensures memory { IfErr result (λ error. error ≡ OutOfMemory) }
        ensures seen { OnOk result
            (O.has_seen observer.old self.old.events → O.has_seen observer.new self.new.events) }
    {
        if !self.rest.is_empty() {
            return Ok(text);
        }
        let mut batch = [KeptEvent::Free { v: 0 }; BATCH];
        let mut rest = text;
        loop {
            let (count, after) = self.take_batch(&mut batch, rest, observer)?;
            if count == 0 {
                return Ok(after);
            }
            rest = after;
        }
    }

    // Takes the events of the lines in front of a text, as many as a batch has room for and up to the first line that is not read in one
    // pass. Returns how many they are, and the text after them.
    #[inline(always)]
    fn take_batch<'a, O: Observer>(
        &mut self,
        batch: &mut [KeptEvent; BATCH],
        text: &'a [u8],
        observer: &mut O,
    ) -> Result<(usize, &'a [u8]), TraceError>
        requires { is_at_start self.old ≡ true }
        ensures way { MatchResult result
            (λ taken. IsOnTheWay self.old text.now self.new taken.1.now)
            (λ error. HasReached self.old (fed self.old text.now) self.new (Err error)) }
        ensures start { IfOk result (λ _. is_at_start self.new ≡ true) }
        ensures shorter { IfOk result (λ taken. taken.0 + length taken.1.now ≤ length text.now) }
        ensures memory { IfErr result (λ error. error ≡ OutOfMemory) }
        ensures seen { OnOk result
            (O.has_seen observer.old self.old.events → O.has_seen observer.new self.new.events) }
    {
        let room = (MOST_EVENTS - self.lines) as usize;
        let (count, after) = events_in_front(batch, observer, room.min(BATCH), text);
        if self.events.extend(&batch[..count]).is_err() {
            self.status = Status::Failed(TraceError::OutOfMemory);
            return Err(TraceError::OutOfMemory);
        }
        self.lines += count as u32;
        Ok((count, after))
    }

    // ends the unfinished line with these bytes and a newline
    fn end_line<O: Observer>(&mut self, end: &[u8], observer: &mut O) -> Result<(), TraceError>
        requires open { is_open self.old ≡ true }
        requires line { IsLine end.now }
        ensures reached { HasReached self.old (line_ended self.old end.now) self.new result }
        ensures seen { O.has_seen observer.old self.old.events → O.has_seen observer.new self.new.events }
    {
        if self.rest.is_empty() {
            let judged = event_in(self.lines + 1, end);
            return self.add(judged, observer);
        }
        self.keep(end)?;
        self.judge_rest(observer)
    }

    // judges the unfinished line as a whole line
    fn judge_rest<O: Observer>(&mut self, observer: &mut O) -> Result<(), TraceError>
        requires { is_open self.old ≡ true }
        ensures reached { HasReached self.old (line_ended self.old []) self.new result }
        ensures seen { O.has_seen observer.old self.old.events → O.has_seen observer.new self.new.events }
    {
        let judged = event_in(self.lines + 1, self.rest.as_slice());
        self.add(judged, observer)
    }

    // keeps the event of the line that was judged, or stops at its fault
    fn add<O: Observer>(
        &mut self,
        judged: Result<Event, TraceFault>,
        observer: &mut O,
    ) -> Result<(), TraceError>
        requires open { is_open self.old ≡ true }
        requires judged { IsJudgementIn self.old.state judged }
        ensures reached { HasReached self.old (with_judged self.old judged) self.new result }
        ensures seen { O.has_seen observer.old self.old.events → O.has_seen observer.new self.new.events }
    {
        match judged {
            Ok(event) => {
                if self.events.push(event).is_err() {
                    return self.fail(TraceError::OutOfMemory);
                }
                observer.see(&event);
                self.lines += 1;
                self.rest.clear();
                Ok(())
            }
            Err(fault) => self.fail(TraceError::Line(self.lines + 1, fault)),
        }
    }

    // appends bytes without a newline to the unfinished line
    fn keep(&mut self, bytes: &[u8]) -> Result<(), TraceError>
        requires open { is_open self.old ≡ true }
        requires line { IsLine bytes.now }
        ensures answer { result ≡ answer_of self.new.state }
        ensures reading { self.new ≡ fed self.old bytes.now }
        ensures events { self.new.events ≡ self.old.events }
    {
        let number = self.lines + 1;
        if self.rest.try_extend_from_slice(bytes).is_err() {
            return self.fail(TraceError::Line(number, TraceFault::LineTooLong));
        }
        Ok(())
    }

    // stops at an error
    fn fail(&mut self, error: TraceError) -> Result<(), TraceError>
        ensures answer { result ≡ Err error }
        ensures failed { self.new ≡ record { events = self.old.events; state = Failed error } }
    {
        self.status = Status::Failed(error);
        Err(error)
    }
}
