//! `run` from text to text.
use self::Answer::{Done, Fault};
use super::pieces::{Case, check};
use super::worked_replays::{
    AFTER_FIVE, AFTER_FOUR, AFTER_ONE, AFTER_ONE_OF_15, AFTER_SIX, AFTER_THREE, AFTER_TWO,
    NO_EVENTS, NO_REQUESTS, TRACE, TUNED, TUNED_BY_FOURS,
};
use crate::tests::calls::{answers, call};
use mte_engine::Call;
use std::process::Abort;
use std::test::Fail;

const fn run_call(limit: u8, step: u8) -> Call {
    call!(Run, limit: limit, step: step, quarantine: 64)
}

#[test]
fn runs(rt: HostRuntime) -> Result<(), Fail> {
    check(&rt, run_call(2, 1), &[Case(TRACE, TUNED, "done")])?;
    check(&rt, run_call(2, 4), &[Case(TRACE, TUNED_BY_FOURS, "done")])?;
    check(&rt, run_call(1, 1), NO_REQUESTS)
}

// the lines of the accesses that fault
const ACCESSES: &[&str] = &[
    "2 fault tag granule 2 memory 0 pointer 1 in header\n",
    "4 fault tag granule 3 memory 2 pointer 1 in other\n",
    "6 fault tag granule 1 memory 3 pointer 1 in dead\n",
];

// What the engine answers to a prefix of the trace: this sheet, the lines of so many accesses and these totals, or a fault.
#[derive(Clone, Copy)]
enum Answer {
    Done(&'static str, usize, &'static str),
    Fault(&'static str),
}

const EMPTY: &str = "classes\nlimit 2\nwaste 0\nrow\nrow\n";

const OF_15: &str = "classes 2\nlimit 2\nwaste 15\nrow 15\nrow 15\n";

const OF_16: &str = "classes 2\nlimit 2\nwaste 0\nrow 0\nrow 0\n";

const OF_16_AND_0: &str = "classes 2\nlimit 2\nwaste 16\nrow 16\nrow 16\n";

// The answers below these lengths of the prefix, from the one before on; worked out by hand.
const ANSWERS: &[(usize, Answer)] = &[
    (1, Done(EMPTY, 0, NO_EVENTS)),
    (10, Fault("error 70 BadWord line 1")),
    (11, Done(OF_15, 0, AFTER_ONE_OF_15)),
    (13, Done(OF_16, 0, AFTER_ONE)),
    (26, Fault("error 70 BadWord line 2")),
    (27, Fault("error 71 BadNumber line 2")),
    (29, Done(OF_16, 1, AFTER_TWO)),
    (38, Fault("error 70 BadWord line 3")),
    (40, Done(OF_16_AND_0, 1, AFTER_THREE)),
    (50, Fault("error 70 BadWord line 4")),
    (52, Done(OF_16_AND_0, 2, AFTER_FOUR)),
    (57, Fault("error 70 BadWord line 5")),
    (59, Done(OF_16_AND_0, 2, AFTER_FIVE)),
    (68, Fault("error 70 BadWord line 6")),
    (70, Done(OF_16_AND_0, 3, AFTER_SIX)),
];

// what is written, and how the engine ends
fn report(rt: &impl AllocGlobal, answer: &Answer) -> Result<(String, &'static str), Fail> {
    match answer {
        Done(sheet, accesses, totals) => {
            let mut written = String::from_str(rt.alloc(), sheet)?;
            for access in ACCESSES.iter().take(*accesses) {
                written.push_str(access)?;
            }
            written.push_str(totals)?;
            Ok((written, "done"))
        }
        Fault(ends) => Ok((String::new(rt.alloc()), ends)),
    }
}

#[test]
fn each_front_of_an_input(rt: HostRuntime) -> Result<(), Fail> {
    let mut first = 0;
    for (end, answer) in ANSWERS {
        answers_fronts(&rt, first, *end, answer)?;
        first = *end;
    }
    Ok(())
}

// the answer to each prefix from one length on, below another
fn answers_fronts(
    rt: &(impl Abort + AllocGlobal),
    first: usize,
    end: usize,
    answer: &Answer,
) -> Result<(), Fail> {
    let (written, wanted) = report(rt, answer)?;
    for len in first..end {
        assert!(rt; len <= TRACE.len());
        answers(
            rt,
            run_call(2, 1),
            &TRACE.as_bytes()[..len],
            &written,
            wanted,
        )?;
    }
    Ok(())
}
