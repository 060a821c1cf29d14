//! Traces of a million events.
use super::worked_replays::MILLION_FREES;
use crate::tests::calls::{answers, call};
use mte_engine::Call;
use std::alloc::{AllocError, Global};
use std::test::Fail;

const LONG_LINE: &[u8] =
    b"aaaaaaaaaaaaaaaaaaaaaaaaaaaaaaaaaaaaaaaaaaaaaaaaaaaaaaaaaaaaaaaaaaaaaaaaaaaaaaaaa";

// a million lines `free 0`
fn million_frees(alloc: Global) -> Result<Vec<u8>, AllocError> {
    let mut text = Vec::with_capacity(alloc, 7_000_100)?;
    for _line in 0..1_000_000 {
        text.extend_from_slice(b"free 0\n")?;
    }
    Ok(text)
}

// what follows a million events, and how `profile` ends
const LAST: &[(&[u8], &str)] = &[
    (b"", "done"),
    (b"free 0", "error 74 TooManyEvents line 1000001"),
    (LONG_LINE, "error 73 LineTooLong line 1000001"),
];

#[test]
fn a_million_events_and_one_more(rt: HostRuntime) -> Result<(), Fail> {
    let mut trace = million_frees(rt.alloc())?;
    for (last, wanted) in LAST {
        trace.truncate(7_000_000);
        trace.extend_from_slice(last)?;
        answers(&rt, call!(Profile), &trace, "", wanted)?;
    }
    Ok(())
}

#[test]
fn a_run_of_a_million_events(rt: HostRuntime) -> Result<(), Fail> {
    let trace = million_frees(rt.alloc())?;
    let call = call!(Run, limit: 1);
    answers(&rt, call, &trace, MILLION_FREES, "done")
}
