//! A trace that is fed and ended.
use super::support::report_two_refusals;
use crate::tests::support::same;
use std::process::Abort;
use std::test::Fail;
use trace_reader::{Event, TraceError, TraceReader};

const TRACE: &str =
    "free 0\nfree 1\nfree 2\nfree 3\nfree 4\nfree 5\nfree 6\nfree 7\nfree 8\nfree 9";

#[test]
fn a_trace_that_is_fed(rt: HostRuntime) -> Result<(), Fail> {
    for _attempt in 0..2 {
        let mut reader = TraceReader::new(rt.alloc());
        match reader.feed(TRACE.as_bytes()) {
            Ok(()) => {
                assert!(rt; reader.finish().is_ok());
                are_frees(&rt, &reader, 10);
                return Ok(());
            }
            Err(error) => {
                assert!(rt; error == TraceError::OutOfMemory);
                let read = reader.events().len();
                assert!(rt; read < 9);
                stays_refused(&rt, &mut reader);
                are_frees(&rt, &reader, read);
            }
        }
    }
    report_two_refusals(&rt)
}

#[test]
fn a_trace_that_is_ended(rt: HostRuntime) -> Result<(), Fail> {
    for _attempt in 0..2 {
        let mut reader = TraceReader::new(rt.alloc());
        assert!(rt; reader.feed(b"free 0").is_ok());
        match reader.finish() {
            Ok(()) => {
                are_frees(&rt, &reader, 1);
                return Ok(());
            }
            Err(error) => {
                assert!(rt; error == TraceError::OutOfMemory && !reader.is_finished());
                stays_refused(&rt, &mut reader);
                are_frees(&rt, &reader, 0);
            }
        }
    }
    report_two_refusals(&rt)
}

// each later call answers that memory was refused
fn stays_refused(rt: &impl Abort, reader: &mut TraceReader) {
    assert!(rt; !reader.is_finished());
    assert!(rt; reader.feed(b"free 0\n") == Err(TraceError::OutOfMemory));
    assert!(rt; reader.finish() == Err(TraceError::OutOfMemory));
}

// the events that wait are the first of the trace
fn are_frees(rt: &impl Abort, reader: &TraceReader, count: usize) {
    let events = reader.events();
    same(rt, &events.len(), &count, &"events");
    for v in 0..events.len() {
        assert!(rt; events.at(v) == Event::Free { v: (v % 10) as u16 });
    }
}
