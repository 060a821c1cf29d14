//! Histories.
use crate::tests::support::same;
use history_count::{History, HistoryError};
use std::process::Abort;

#[test]
fn a_history_that_is_read(rt: HostRuntime) {
    assert!(rt; is_read(&rt) || is_read(&rt), "refused twice");
}

// whether the history is read
fn is_read(rt: &(impl Abort + AllocGlobal)) -> bool {
    match History::read(rt.alloc(), b"snapshots 2\n16 4 0\n40 2 3\nlarge 0 1\n") {
        Ok(history) => {
            same(rt, &history.peaks().count(40), &3, &"the peak of 40");
            true
        }
        Err(error) => {
            assert!(rt; error == HistoryError::OutOfMemory);
            false
        }
    }
}
