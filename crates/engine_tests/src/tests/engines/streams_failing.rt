//! Reads and writes that fail, or move a byte at a time, or never end.
use super::score_texts::SCORE;
use super::support::RepeatedByte;
use super::worked_replays::{NO_CLASS, NO_CLASS_REPORT, REPORT, TRACE, TUNED};
use crate::tests::calls::{call, call_on};
use crate::tests::streams::{sink, source};
use crate::tests::support::{end_text, same};
use mte_engine::{Call, History, StreamSink, StreamSource};
use std::io::{ErrorKind, Read, Write};
use std::process::Abort;
use std::test::Fail;

const INPUT: &[u8] = b"classes 4\n16 3\n40 1\n";

// an engine, an input, and what it writes for it
#[derive(Clone, Copy)]
struct Case(Call, &'static str, &'static str);

const SHEET: &str = "classes 2 4\nlimit 2\nwaste 8\nrow 104 8\nrow 8 8\n16 3\n40 1\n";

const FIT: &str =
    "classes 2 4\nlimit 2\nfootprint 160\nrow 192 64\nrow 160 64\nsnapshots 2\n16 3 0\n40 0 1\n";

const CASES: &[Case] = &[
    Case(SCORE, "classes 4\n16 3\n40 1\n", "waste 104\n"),
    Case(
        call!(Tune, limit: 2),
        "16 3\n40 1\n",
        "classes 2 4\nlimit 2\nwaste 8\nrow 104 8\nrow 8 8\n",
    ),
    Case(call!(Check), SHEET, "optimal\n"),
    Case(
        call!(Footprint),
        "classes 2 4\nsnapshots 2\n16 3 0\n40 0 1\n",
        "footprint 160\n",
    ),
    Case(
        call!(Fit, limit: 2),
        "snapshots 2\n16 3 0\n40 0 1\n",
        "classes 2 4\nlimit 2\nfootprint 160\nrow 192 64\nrow 160 64\n",
    ),
    Case(call!(CheckFit), FIT, "optimal\n"),
    Case(
        call!(Peaks),
        "classes 2\ntimeline\n16\n",
        "peaks 1\nmoments 1\nlive 32\nfreed 0\n",
    ),
    Case(
        call!(Profile),
        "malloc 1 40\ncalloc 2 16369\n",
        "40 1\nlarge 1\n",
    ),
    Case(call!(Replay), NO_CLASS, NO_CLASS_REPORT),
    Case(
        call!(Replay, quarantine: 64),
        "classes 2 4\nmalloc 1 16\nstore 1 16 1 aa\nmalloc 2 0\nload 1 32 1\nfree 1\nload 1 0 1\n",
        REPORT,
    ),
    Case(call!(Run, limit: 2, quarantine: 64), TRACE, TUNED),
];

// A function that names a long constant takes seconds to prove for it, so this one alone does.
fn cases() -> &'static [Case] {
    CASES
}

// the most bytes that a read and a write move, and how many reads and writes succeed before one fails
#[derive(Debug, Clone, Copy)]
struct Streams {
    read: usize,
    reads: Option<u64>,
    write: usize,
    writes: Option<u64>,
}

const WHOLE: Streams = Streams {
    read: usize::MAX,
    reads: None,
    write: usize::MAX,
    writes: None,
};

// Calls the engine over such streams: how it ends, and what is written.
fn ends(
    rt: &(impl Abort + AllocGlobal),
    call: Call,
    input: &str,
    streams: Streams,
    wanted: &str,
    written: &[u8],
) -> Result<(), Fail> {
    let mut from = source(input.as_bytes());
    from.most = streams.read;
    from.until_failure = streams.reads;
    let mut to = sink(rt.alloc())?;
    to.most = streams.write;
    to.until_failure = streams.writes;
    let end = call_on(rt, call, &mut from, &mut to);
    let ends = end_text(rt.alloc(), end)?;
    same(rt, &ends.as_str(), &wanted, &(input, streams));
    same(rt, &to.text.as_slice(), &written, &(input, streams));
    Ok(())
}

// The read after so many reads of a byte each fails. A call of the sink would fail too.
fn read_fails(
    rt: &(impl Abort + AllocGlobal),
    call: Call,
    input: &str,
    reads: usize,
) -> Result<(), Fail> {
    let streams = Streams {
        read: 1,
        reads: Some(reads as u64),
        writes: Some(0),
        ..WHOLE
    };
    ends(rt, call, input, streams, "error 81 ReadFault", b"")
}

// The last read is the one that finds the end.
#[test]
fn each_read_fails_in_turn(rt: HostRuntime) -> Result<(), Fail> {
    for Case(call, input, _) in cases() {
        for reads in 0..=input.len() {
            read_fails(&rt, *call, input, reads)?;
        }
    }
    Ok(())
}

// The write after so many bytes, of a byte each, fails.
fn write_fails(rt: &(impl Abort + AllocGlobal), case: Case, room: usize) -> Result<(), Fail> {
    let Case(call, input, written) = case;
    let streams = Streams {
        write: 1,
        writes: Some(room as u64),
        ..WHOLE
    };
    assert!(rt; room <= written.len());
    let before = &written.as_bytes()[..room];
    ends(rt, call, input, streams, "error 82 WriteFault", before)
}

// Each write fails in turn, of a byte each.
#[test]
fn each_write_fails_in_turn(rt: HostRuntime) -> Result<(), Fail> {
    for case in cases() {
        for room in 0..case.2.len() {
            write_fails(&rt, *case, room)?;
        }
    }
    Ok(())
}

// a writer of std that takes a byte at each of its first calls, and then none
#[derive(Drop)]
struct LimitedWriter {
    text: Vec<u8>,
    room: usize,
}

impl Write for LimitedWriter {
    fn write(&mut self, buf: &[u8]) -> std::io::Result<usize> {
        if self.text.len() >= self.room || buf.is_empty() {
            return Ok(0);
        }
        match self.text.push(buf[0]) {
            Ok(()) => Ok(1),
            Err(_) => Err(ErrorKind::OutOfMemory.into()),
        }
    }

    fn flush(&mut self) -> std::io::Result<()> {
        Ok(())
    }
}

// The write after so many bytes, of a byte each, takes none.
fn takes_nothing(rt: &(impl Abort + AllocGlobal), case: Case, room: usize) -> Result<(), Fail> {
    let Case(call, input, written) = case;
    let mut filling = LimitedWriter {
        text: Vec::new(rt.alloc()),
        room,
    };
    fails_once(rt, call, input, &mut filling)?;
    assert!(rt; room <= written.len());
    let before = &written.as_bytes()[..room];
    same(rt, &filling.text.as_slice(), &before, &(input, room));
    Ok(())
}

fn fails_once(
    rt: &(impl Abort + AllocGlobal),
    call: Call,
    input: &str,
    filling: &mut LimitedWriter,
) -> Result<(), Fail> {
    let mut to = StreamSink::new(filling);
    let end = call_on(rt, call, &mut source(input.as_bytes()), &mut to);
    let ends = end_text(rt.alloc(), end)?;
    same(rt, &ends.as_str(), &"error 82 WriteFault", &input);
    Ok(())
}

#[test]
fn a_write_that_takes_nothing_fails(rt: HostRuntime) -> Result<(), Fail> {
    for case in cases() {
        for room in 0..case.2.len() {
            takes_nothing(&rt, *case, room)?;
        }
    }
    Ok(())
}

#[test]
fn a_byte_at_a_time(rt: HostRuntime) -> Result<(), Fail> {
    let streams = Streams {
        read: 1,
        write: 1,
        ..WHOLE
    };
    for Case(call, input, written) in cases() {
        ends(&rt, *call, input, streams, "done", written.as_bytes())?;
    }
    Ok(())
}

// Calls the engine on so many bytes `a`, or on them for ever; so many come at once. It ends so, and writes nothing.
fn ends_on_letters(
    rt: &(impl Abort + AllocGlobal),
    call: Call,
    left: Option<usize>,
    most: usize,
    wanted: &str,
) -> Result<(), Fail> {
    let mut from = RepeatedByte {
        left,
        reads: History::new(),
        most,
    };
    let mut to = sink(rt.alloc())?;
    let end = call_on(rt, call, &mut from, &mut to);
    let ends = end_text(rt.alloc(), end)?;
    same(rt, &ends.as_str(), &wanted, &(left, most));
    assert!(rt; to.text.is_empty());
    Ok(())
}

#[test]
fn a_source_that_never_ends(rt: HostRuntime) -> Result<(), Fail> {
    for Case(call, _, _) in cases() {
        ends_on_letters(&rt, *call, None, usize::MAX, "error 80 InputTooLong")?;
    }
    Ok(())
}

const REPLAY: Call = call!(Replay);

// how many letters there are, how many come at once, and how the engine ends
const LETTERS: &[(Call, Option<usize>, usize, &str)] = &[
    (
        SCORE,
        Some(67_108_864),
        usize::MAX,
        "error 23 BadLine line 1",
    ),
    (SCORE, Some(67_108_864), 1, "error 23 BadLine line 1"),
    (SCORE, Some(67_108_865), usize::MAX, "error 80 InputTooLong"),
    (SCORE, Some(67_108_865), 1, "error 80 InputTooLong"),
    (SCORE, None, 1, "error 80 InputTooLong"),
    (
        REPLAY,
        Some(67_108_864),
        usize::MAX,
        "error 23 BadLine line 1",
    ),
    (
        REPLAY,
        Some(67_108_865),
        usize::MAX,
        "error 80 InputTooLong",
    ),
    (
        call!(Profile),
        Some(67_108_864),
        usize::MAX,
        "error 73 LineTooLong line 1",
    ),
    (
        call!(Profile),
        Some(67_108_865),
        usize::MAX,
        "error 80 InputTooLong",
    ),
];

#[test]
fn the_most_input_and_one_byte_more(rt: HostRuntime) -> Result<(), Fail> {
    for (call, left, most, wanted) in LETTERS {
        ends_on_letters(&rt, *call, *left, *most, wanted)?;
    }
    Ok(())
}

// a reader and a writer of std that only fail
#[derive(Drop)]
struct FailingStream;

impl Read for FailingStream {
    fn read(&mut self, _buf: &mut [u8]) -> std::io::Result<usize> {
        Err(ErrorKind::Other.into())
    }
}

impl Write for FailingStream {
    fn write(&mut self, _buf: &[u8]) -> std::io::Result<usize> {
        Err(ErrorKind::Other.into())
    }

    fn flush(&mut self) -> std::io::Result<()> {
        Ok(())
    }
}

#[test]
fn a_failing_standard_reader(rt: HostRuntime) -> Result<(), Fail> {
    let mut from = StreamSource::new(FailingStream);
    let mut to = sink(rt.alloc())?;
    let end = call_on(&rt, SCORE, &mut from, &mut to);
    let ends = end_text(rt.alloc(), end)?;
    same(&rt, &ends.as_str(), &"error 81 ReadFault", &"the end");
    Ok(())
}

#[test]
fn a_failing_standard_writer(rt: HostRuntime) -> Result<(), Fail> {
    let mut to = StreamSink::new(FailingStream);
    let end = call_on(&rt, SCORE, &mut source(INPUT), &mut to);
    let ends = end_text(rt.alloc(), end)?;
    same(&rt, &ends.as_str(), &"error 82 WriteFault", &"the end");
    Ok(())
}

// A reader and a writer of std that move a byte at a time. One call is interrupted, and those after it succeed again: whoever tries once more
// goes on as if nothing had failed.
#[derive(Drop)]
struct InterruptedStream<'a> {
    rest: &'a [u8],
    text: Vec<u8>,
    calls: usize,
    interrupted: usize,
}

// A call more; whether it is the one that is interrupted.
fn is_interrupted(calls: &mut usize, interrupted: usize) -> bool {
    let now = *calls;
    *calls = now.saturating_add(1);
    now == interrupted
}

impl Read for InterruptedStream<'_> {
    fn read(&mut self, buf: &mut [u8]) -> std::io::Result<usize> {
        if is_interrupted(&mut self.calls, self.interrupted) {
            return Err(ErrorKind::Interrupted.into());
        }
        if buf.is_empty() || self.rest.is_empty() {
            return Ok(0);
        }
        buf[0] = self.rest[0];
        self.rest = &self.rest[1..];
        Ok(1)
    }
}

impl Write for InterruptedStream<'_> {
    fn write(&mut self, buf: &[u8]) -> std::io::Result<usize> {
        if is_interrupted(&mut self.calls, self.interrupted) {
            return Err(ErrorKind::Interrupted.into());
        }
        if buf.is_empty() {
            return Ok(0);
        }
        match self.text.push(buf[0]) {
            Ok(()) => Ok(1),
            Err(_) => Err(ErrorKind::OutOfMemory.into()),
        }
    }

    fn flush(&mut self) -> std::io::Result<()> {
        Ok(())
    }
}

// a stream of which the call after so many is interrupted
fn interrupted_stream<'a>(
    rt: &impl AllocGlobal,
    input: &'a str,
    interrupted: usize,
) -> InterruptedStream<'a> {
    InterruptedStream {
        rest: input.as_bytes(),
        text: Vec::new(rt.alloc()),
        calls: 0,
        interrupted,
    }
}

// Calls the engine over this reader: a read fails, and nothing is written.
fn read_fault(
    rt: &(impl Abort + AllocGlobal),
    call: Call,
    reader: &mut InterruptedStream<'_>,
) -> Result<(), Fail> {
    let mut to = sink(rt.alloc())?;
    let end = call_on(rt, call, &mut StreamSource::new(reader), &mut to);
    let ends = end_text(rt.alloc(), end)?;
    same(rt, &ends.as_str(), &"error 81 ReadFault", &"the end");
    assert!(rt; to.text.is_empty());
    Ok(())
}

// The read after so many is the last: none is made in the place of the one that failed.
fn reads_no_more(
    rt: &(impl Abort + AllocGlobal),
    call: Call,
    input: &str,
    reads: usize,
) -> Result<(), Fail> {
    let mut reader = interrupted_stream(rt, input, reads);
    read_fault(rt, call, &mut reader)?;
    same(rt, &reader.calls, &reads.saturating_add(1), &(input, reads));
    Ok(())
}

#[test]
fn a_read_that_fails_once(rt: HostRuntime) -> Result<(), Fail> {
    for Case(call, input, _) in cases() {
        for reads in 0..=input.len() {
            reads_no_more(&rt, *call, input, reads)?;
        }
    }
    Ok(())
}

// Calls the engine over this writer: a write fails.
fn write_fault(
    rt: &(impl Abort + AllocGlobal),
    call: Call,
    input: &str,
    writer: &mut InterruptedStream<'_>,
) -> Result<(), Fail> {
    let mut to = StreamSink::new(writer);
    let end = call_on(rt, call, &mut source(input.as_bytes()), &mut to);
    let ends = end_text(rt.alloc(), end)?;
    same(rt, &ends.as_str(), &"error 82 WriteFault", &input);
    Ok(())
}

// The write after so many bytes is the last, and the writer has the bytes before it.
fn writes_no_more(rt: &(impl Abort + AllocGlobal), case: Case, writes: usize) -> Result<(), Fail> {
    let Case(call, input, written) = case;
    let mut writer = interrupted_stream(rt, "", writes);
    write_fault(rt, call, input, &mut writer)?;
    assert!(rt; writes <= written.len());
    let before = &written.as_bytes()[..writes];
    same(rt, &writer.text.as_slice(), &before, &(input, writes));
    same(
        rt,
        &writer.calls,
        &writes.saturating_add(1),
        &(input, writes),
    );
    Ok(())
}

#[test]
fn a_write_that_fails_once(rt: HostRuntime) -> Result<(), Fail> {
    for case in cases() {
        for writes in 0..case.2.len() {
            writes_no_more(&rt, *case, writes)?;
        }
    }
    Ok(())
}
