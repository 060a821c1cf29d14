//! Traces in pieces: events and errors do not depend on where a text is cut.
use super::support::same;
use std::alloc::Global;
use std::process::Abort;
use std::test::Fail;
use trace_reader::{Event, TraceError, TraceFault, TraceReader};

// The last line has no newline.
const ACCESSES: &[u8] = b"malloc 1 100\nmalloc 2 1\nmalloc 3 1009\nmalloc 4 16369\nload 1 96 16\n\
load 1 104 16\nload 2 0 1\nload 1 -16 1\nload 1 -17 1\nload 1 1008 1";

// 81 letters.
const LETTERS: &[u8] = &[b'a'; 81];

fn load(v: u16, off: i32, len: u8) -> Event {
    Event::Load { v, off, len }
}

// What a reader gave: all events, and what its last call answered.
#[derive(Drop)]
struct ReaderOutput {
    events: Vec<Event>,
    answer: Result<(), TraceError>,
}

// What pieces give, whose events are taken out after each of them. An error stays to the end.
fn read_pieces(rt: &impl Abort, alloc: Global, pieces: &[&[u8]]) -> Result<ReaderOutput, Fail> {
    let mut reader = TraceReader::new(alloc);
    let mut events = Vec::new(alloc);
    let mut answer = Ok(());
    for piece in pieces {
        answer = feed(rt, &mut reader, piece, answer);
        take_events(&mut reader, &mut events)?;
    }
    let answer = finish(rt, &mut reader, answer);
    take_events(&mut reader, &mut events)?;
    Ok(ReaderOutput { events, answer })
}

// feeds a piece after one that was answered so
fn feed(
    rt: &impl Abort,
    reader: &mut TraceReader,
    piece: &[u8],
    before: Result<(), TraceError>,
) -> Result<(), TraceError> {
    assert!(rt; !reader.is_finished());
    let fed = reader.feed(piece);
    assert!(rt; before.is_ok() || fed == before, "an error stays");
    fed
}

fn finish(
    rt: &impl Abort,
    reader: &mut TraceReader,
    before: Result<(), TraceError>,
) -> Result<(), TraceError> {
    assert!(rt; !reader.is_finished());
    let finished = reader.finish();
    assert!(rt;
        before.is_ok() || finished == before,
        "an error stays at the end"
    );
    same(rt, &reader.is_finished(), &finished.is_ok(), &"finished");
    finished
}

fn take_events(reader: &mut TraceReader, events: &mut Vec<Event>) -> Result<(), Fail> {
    for _ in 0..1000 {
        match reader.next_event() {
            Some(event) => events.push(event)?,
            None => break,
        }
    }
    Ok(())
}

// A text gives these events and this answer, whole, byte by byte, and in two pieces at each place.
fn gives(
    rt: &impl Abort,
    alloc: Global,
    text: &[u8],
    events: &[Event],
    answer: Result<(), TraceError>,
) -> Result<(), Fail> {
    let mut bytes = Vec::new(alloc);
    for place in 0..text.len() {
        bytes.push(&text[place..place + 1])?;
    }
    agrees(rt, alloc, &bytes, events, answer)?;
    for place in 0..text.len() {
        let (front, after) = text.split_at(place);
        agrees(rt, alloc, &[front, after], events, answer)?;
    }
    agrees(rt, alloc, &[text], events, answer)
}

// What is read of the pieces is what was wanted. Where memory was refused, its events are the first of those.
fn agrees(
    rt: &impl Abort,
    alloc: Global,
    pieces: &[&[u8]],
    events: &[Event],
    answer: Result<(), TraceError>,
) -> Result<(), Fail> {
    let seen = read_pieces(rt, alloc, pieces)?;
    if seen.answer == Err(TraceError::OutOfMemory) {
        assert!(rt; events.starts_with(seen.events.as_slice()));
        seen.answer?;
    }
    same(rt, &seen.answer, &answer, &"the answer");
    same(rt, &seen.events.as_slice(), &events, &"the events");
    Ok(())
}

#[test]
fn accesses_in_pieces(rt: HostRuntime) -> Result<(), Fail> {
    let events = [
        Event::Malloc { v: 1, n: 100 },
        Event::Malloc { v: 2, n: 1 },
        Event::Malloc { v: 3, n: 1009 },
        Event::Malloc { v: 4, n: 16369 },
        load(1, 96, 16),
        load(1, 104, 16),
        load(2, 0, 1),
        load(1, -16, 1),
        load(1, -17, 1),
        load(1, 1008, 1),
    ];
    gives(&rt, rt.alloc(), ACCESSES, &events, Ok(()))
}

#[test]
fn every_kind_of_event(rt: HostRuntime) -> Result<(), Fail> {
    let text = b"malloc 0 0\ncalloc 1023 2147483647\nrealloc 7 32\nfree 1023\n\
load 1 -1048576 64\nstore 2 1048576 1 a0\naddg 6 5 63 15\nsubg 3 3 0 0\n";
    let events = [
        Event::Malloc { v: 0, n: 0 },
        Event::Calloc {
            v: 1023,
            n: 2_147_483_647,
        },
        Event::Realloc { v: 7, n: 32 },
        Event::Free { v: 1023 },
        load(1, -1_048_576, 64),
        Event::Store {
            v: 2,
            off: 1_048_576,
            len: 1,
            byte: 0xa0,
        },
        Event::Addg {
            v: 6,
            w: 5,
            u6: 63,
            u4: 15,
        },
        Event::Subg {
            v: 3,
            w: 3,
            u6: 0,
            u4: 0,
        },
    ];
    gives(&rt, rt.alloc(), text, &events, Ok(()))
}

#[test]
fn eighty_first_byte_is_a_fault_at_once(rt: HostRuntime) -> Result<(), Fail> {
    let mut reader = TraceReader::new(rt.alloc());
    reader.feed(&LETTERS[..80])?;
    same(
        &rt,
        &reader.feed(b"a"),
        &Err(TraceError::Line(1, TraceFault::LineTooLong)),
        &"the 81st byte",
    );
    Ok(())
}
