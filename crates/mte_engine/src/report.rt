//! The report of a replay, as an engine writes it.
ghost use Rattle.replay_theory.specs.Report.{totals_text};
ghost use Rattle.mte_engine.specs.Replay.{report_on};
ghost use Rattle.mte_engine.specs.declared.report.TheConstants.{BUFFER};
ghost use Rattle.heap_theory.specs.Config.{IsConfig};
ghost use Rattle.mte_engine.specs.ReportFrom.{AreFewEvents, report_from, report_unless};
ghost use Rattle.trace_event.specs.Ranges.{IsInRange};
ghost use Rattle.trace_reader.specs.TraceLine.{most_events};
ghost use Rattle.std.specs.Prelude.{◌≡◌, ◌+◌, ◌≤◌, ◌++◌, drop, length, take, vec_len, true, All, IfOk};

use arrayvec::ArrayVec;
use byte_streams::{Output, with_zeros};
use class_table::ClassTable;
use replay_core::{Config, LINE_ROOM, Replay, TOTALS_ROOM};
use std::alloc::{AllocError, Global};
use trace_reader::{Events, TraceReader};

// the most bytes of the report that are ready at a time
const BUFFER: usize = 65_536;

/// A text, and then the report on the events in a reader: a line for each event that has one, and the totals. It replays the events as
/// their lines are written.
#[derive(Drop)]
pub struct Report {
    replay: Replay,
    reader: TraceReader,
    buffer: Vec<u8>,
    filled: usize,
    written: usize,
    is_whole: bool,
    ghost in_filled: { written ≤ filled },
    ghost in_buffer: { filled ≤ vec_len buffer },
    ghost room: { BUFFER ≤ vec_len buffer },
    ghost few: { AreFewEvents replay reader.events },
    ghost ready: { written ≡ filled → is_whole ≡ true },
}

impl Report {
    ghost use Rattle.mte_engine.specs.ReportLeft.{report_left};

    /// This text, and then the report on the events in the reader, on a new heap over the table. The call takes all memory that the report
    /// will need; the only error is that the allocator refuses it.
    pub fn new(
        alloc: Global,
        table: &ClassTable,
        config: Config,
        mut reader: TraceReader,
        text: Vec<u8>,
    ) -> Result<Report, AllocError>
        requires config { IsConfig config }
        requires few { length reader.events ≤ most_events }
        ensures { IfOk result (λ report.
            report_left report ≡ text.items ++ report_on config table.now reader.events) }
    {
        let from = text.len();
        let mut buffer = with_zeros(text, BUFFER)?;
        let mut replay = Replay::new(alloc, table, config)?;
        let (filled, is_whole) = fill(&mut replay, &mut reader, &mut buffer, from);
        Ok(Report {
            replay,
            reader,
            buffer,
            filled,
            written: 0,
            is_whole,
        })
    }
}

impl Output for Report {
    ghost use Rattle.mte_engine.specs.ReportLeft.{report_left};

    ghost rest = { report_left };

    ghost ready = { λ r. drop r.written (take r.filled r.buffer.items) };

    fn piece(&self) -> &[u8] {
        &self.buffer[self.written..self.filled]
    }

    fn advance(&mut self, n: usize) {
        self.written += n;
        if self.written == self.filled && !self.is_whole {
            let (filled, is_whole) = fill(&mut self.replay, &mut self.reader, &mut self.buffer, 0);
            self.written = 0;
            self.filled = filled;
            self.is_whole = is_whole;
        }
    }
}

// Replays events and writes their lines into a text from byte `from` on, until the text is full or all events are replayed. After the last
// event it writes the totals. Returns where it ended, and whether it has written the totals.
fn fill(
    replay: &mut Replay,
    reader: &mut TraceReader,
    text: &mut [u8],
    from: usize,
) -> (usize, bool)
    requires few { AreFewEvents replay.old reader.old.events }
    requires room { from + BUFFER ≤ length text.old }
    ensures end { result.0 ≤ length text.old }
    ensures report { take result.0 text.new ++ report_unless result.1 replay.new reader.new.events
        ≡ take from text.old ++ report_from replay.old reader.old.events }
    ensures some { result.0 ≤ from → result.1 ≡ true }
    ensures few { AreFewEvents replay.new reader.new.events }
{
    let events = reader.events();
    let (end, done) = write_lines(replay, &events, text, from);
    let is_whole = done == events.len();
    reader.skip(done);
    if is_whole {
        return (write_totals(replay, text, end), true);
    }
    (end, false)
}

// Replays events in order and writes their lines into a text from byte `from` on, until the text is full or all events are replayed.
// Returns where it ended, and how many events were replayed.
fn write_lines(
    replay: &mut Replay,
    events: &Events<'_>,
    text: &mut [u8],
    from: usize,
) -> (usize, usize)
    requires few { AreFewEvents replay.old events.now }
    requires range { All IsInRange events.now }
    requires room { from + BUFFER ≤ length text.old }
    ensures end { result.0 + TOTALS_ROOM ≤ length text.old }
    ensures done { result.1 ≤ length events.now }
    ensures report { take result.0 text.new ++ report_from replay.new (drop result.1 events.now)
        ≡ take from text.old ++ report_from replay.old events.now }
    ensures some { result.0 ≤ from → result.1 ≡ length events.now }
    ensures few { AreFewEvents replay.new (drop result.1 events.now) }
{
    let full = text.len() - LINE_ROOM - TOTALS_ROOM;
    let mut end = from;
    let mut done = 0;
    // the label names the loop's invariant in proofs/
    'lines: while end < full && done < events.len() {
        let event = events.at(done);
        end = replay.step_at(&event, text, end);
        done += 1;
    }
    (end, done)
}

// writes the totals, for which there must be room, and returns where they end
fn write_totals(replay: &Replay, text: &mut [u8], at: usize) -> usize
    requires { at + TOTALS_ROOM ≤ length text.old }
    ensures end { result ≤ at + TOTALS_ROOM }
    ensures text { take result text.new ≡ take at text.old ++ totals_text replay.now.totals }
{
    let mut totals = ArrayVec::new();
    replay.totals().write(&mut totals);
    let end = at + totals.len();
    text[at..end].copy_from_slice(&totals);
    end
}
