//! The engines: where a growth is refused, the sink is as it was.
use super::support::{PROFILE, SHEET, report_two_refusals};
use crate::tests::calls::{call, call_on};
use crate::tests::engines::score_texts::SCORE;
use crate::tests::engines::worked_replays::{REPORT, TRACE};
use crate::tests::streams::{sink, source};
use crate::tests::support::same;
use mte_engine::{Call, MemorySink, Status, ToolFault};
use std::process::Abort;
use std::test::Fail;

const HISTORY: &str = "snapshots 2\n16 3 0\n40 0 1\n";

const FIT: &str = "classes 2 4\nlimit 2\nfootprint 160\nrow 192 64\nrow 160 64\n";

#[test]
fn scoring_a_table(rt: HostRuntime) -> Result<(), Fail> {
    answers(&rt, SCORE, "classes 4\n16 3\n40 1\n", "waste 104\n")
}

#[test]
fn tuning(rt: HostRuntime) -> Result<(), Fail> {
    answers(&rt, call!(Tune, limit: 2), PROFILE, SHEET)
}

#[test]
fn checking_a_sheet(rt: HostRuntime) -> Result<(), Fail> {
    let mut input = String::from_str(rt.alloc(), SHEET)?;
    input.push_str(PROFILE)?;
    answers(&rt, call!(Check), &input, "optimal\n")
}

#[test]
fn taking_a_footprint(rt: HostRuntime) -> Result<(), Fail> {
    let mut input = String::from_str(rt.alloc(), "classes 2 4\n")?;
    input.push_str(HISTORY)?;
    answers(&rt, call!(Footprint), &input, "footprint 160\n")
}

#[test]
fn fitting_a_history(rt: HostRuntime) -> Result<(), Fail> {
    answers(&rt, call!(Fit, limit: 2), HISTORY, FIT)
}

#[test]
fn checking_a_fit(rt: HostRuntime) -> Result<(), Fail> {
    let mut input = String::from_str(rt.alloc(), FIT)?;
    input.push_str(HISTORY)?;
    answers(&rt, call!(CheckFit), &input, "optimal\n")
}

#[test]
fn checking_a_fit_over_a_timeline(rt: HostRuntime) -> Result<(), Fail> {
    let input = "classes 2\nlimit 1\nfootprint 32\nrow 32\nmoments 1\ntimeline\n16\n-16\n";
    answers(&rt, call!(CheckFit), input, "optimal\n")
}

#[test]
fn counting_peaks(rt: HostRuntime) -> Result<(), Fail> {
    let input = "classes 2 4\ntimeline\n16\n16\n-16\n40\n";
    answers(
        &rt,
        call!(Peaks),
        input,
        "peaks 2 1\nmoments 2 4\nlive 96\nfreed 1\n",
    )
}

#[test]
fn profiling_a_trace(rt: HostRuntime) -> Result<(), Fail> {
    let trace = "malloc 1 40\ncalloc 2 16369\n";
    answers(&rt, call!(Profile), trace, "40 1\nlarge 1\n")
}

#[test]
fn replaying_a_trace(rt: HostRuntime) -> Result<(), Fail> {
    let mut input = String::from_str(rt.alloc(), "classes 2 4\n")?;
    input.push_str(TRACE)?;
    answers(&rt, call!(Replay, quarantine: 64), &input, REPORT)
}

#[test]
fn running_a_trace(rt: HostRuntime) -> Result<(), Fail> {
    let sheet = "classes 2\nlimit 2\nwaste 16\nrow 16\nrow 16\n";
    let mut written = String::from_str(rt.alloc(), sheet)?;
    written.push_str(REPORT)?;
    let call = call!(Run, limit: 2, quarantine: 64);
    answers(&rt, call, TRACE, &written)
}

// the engine answers and writes this, in the second attempt at the latest
fn answers(
    rt: &(impl Abort + AllocGlobal),
    call: Call,
    input: &str,
    written: &str,
) -> Result<(), Fail> {
    for _attempt in 0..2 {
        let mut to = sink(rt.alloc())?;
        let end = call_on(rt, call, &mut source(input.as_bytes()), &mut to);
        if is_answered(rt, end, &to, written) {
            return Ok(());
        }
    }
    report_two_refusals(rt)
}

// whether the engine answered and wrote this; where it was refused memory, nothing was written
fn is_answered(
    rt: &impl Abort,
    end: Result<Status, ToolFault>,
    sink: &MemorySink,
    written: &str,
) -> bool {
    match end {
        Ok(status) => {
            assert!(rt; status == Status::Done);
            same(rt, &sink.text.as_slice(), &written.as_bytes(), &"the text");
            true
        }
        Err(fault) => {
            assert!(rt; matches!(fault, ToolFault::OutOfMemory) && sink.text.is_empty());
            false
        }
    }
}
