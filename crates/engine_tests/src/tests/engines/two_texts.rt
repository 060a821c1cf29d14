//! The calls over two texts: what each answers, and the faults of the first text, and those of the second by its own lines.
use super::worked_replays::NO_EVENTS;
use crate::tests::calls::{answers_on, call};
use mte_engine::Call;
use std::process::Abort;
use std::test::Fail;

// a first text and another, what is written for them, and how it ends
type Case = (&'static [u8], &'static [u8], &'static str, &'static str);

fn run(rt: &(impl Abort + AllocGlobal), groups: &[(Call, &[Case])]) -> Result<(), Fail> {
    for (call, cases) in groups {
        run_all(rt, *call, cases)?;
    }
    Ok(())
}

fn run_all(rt: &(impl Abort + AllocGlobal), call: Call, cases: &[Case]) -> Result<(), Fail> {
    for (first, input, written, wanted) in cases {
        answers_on(rt, call, (first, input), written, wanted)?;
    }
    Ok(())
}

const SCORES: &[Case] = &[
    (b"classes 2 8", b"9 1000\n24 70", "waste 13160\n", "done"),
    (b"classes 2\n", b"17 1\n", "not serving 17\n", "no"),
    (
        b"classes 2 8\n9 1000\n",
        b"24 70\n",
        "",
        "error 23 BadLine line 1",
    ),
    (b"", b"24 70\n", "", "error 23 BadLine line 1"),
    (b"classes 1 2\n9 1\n", b"", "", "error 21 OutOfRange line 1"),
    (
        b"classes 2 8\n",
        b"9 1\n9 1\n",
        "",
        "error 31 NotAscending line 2",
    ),
];

// the last: of a sheet without its newline, and of one with lines of a profile after its rows
const CHECKS: &[Case] = &[
    (
        b"classes 2 4\nlimit 2\nwaste 8\nrow 104 8\nrow 8 8",
        b"16 3\n40 1",
        "optimal\n",
        "done",
    ),
    (
        b"classes 2 4\nlimit 2\nwaste 8\nrow 104 8\nrow 9 8\n",
        b"16 3\n40 1\n",
        "refused 46 Edge\n",
        "no",
    ),
    (
        b"classes 2 4\nlimit 2\n",
        b"waste 8\n16 3\n",
        "",
        "error 48 BadSheet line 3",
    ),
    (
        b"classes 2 4\nlimit 2\nwaste 8\n",
        b"row 104 8\n16 3\n",
        "",
        "error 30 BadLine line 1",
    ),
    (
        b"classes 2 4\nlimit 2\nwaste 8\nrow 104 8\nrow 8 8\n",
        b"16 3\n40 0\n",
        "",
        "error 32 CountOutOfRange line 2",
    ),
    (
        b"classes 64 1001\nlimit 2\nwaste 10009790\nrow 10234670 10075000 10000000\nrow 10009790 1",
        b"16 1000000\n33 10\n1000 5\n15990 1000000\n",
        "refused 42 WasteWrong\n",
        "no",
    ),
    (
        b"classes 2 64\nlimit 2\nwaste 18000\nrow 1029000 18000 0 0\nrow 18000 0 0 0\n0 1000000000\n",
        b"33 1000\n1000 1000\n",
        "",
        "error 48 BadSheet line 6",
    ),
];

const FOOTPRINTS: &[Case] = &[
    (
        b"classes 4",
        b"snapshots 2\n16 3 0\n40 0 1\n",
        "footprint 192\n",
        "done",
    ),
    (
        b"classes 4\n",
        b"timeline\n16\n40\n-16",
        "footprint 128\n",
        "done",
    ),
    (
        b"classes 4\nsnapshots 1\n",
        b"16 1\n",
        "",
        "error 23 BadLine line 1",
    ),
    (
        b"classes 4\n",
        b"timeline\n-16\n",
        "",
        "error 38 NotLive line 2",
    ),
];

const PEAKS: &[Case] = &[
    (
        b"classes 4",
        b"timeline\n16\n40\n-16",
        "peaks 2\nmoments 2\nlive 128\nfreed 1\n",
        "done",
    ),
    (
        b"classes 4\n",
        b"timeline\n-16\n",
        "",
        "error 38 NotLive line 2",
    ),
];

const FIT: &[u8] = b"classes 2 4\nlimit 2\nfootprint 160\nrow 192 64\nrow 160 64\n";

const OVER: &[u8] = b"classes 2\nlimit 1\nfootprint 32\nrow 32\nmoments 1";

const FIT_CHECKS: &[Case] = &[
    (FIT, b"snapshots 2\n16 3 0\n40 0 1\n", "optimal\n", "done"),
    (OVER, b"timeline\n16\n-16\n", "optimal\n", "done"),
    (
        b"classes 2\nlimit 1\nfootprint 32\nrow 32\n16 1\n",
        b"snapshots 1\n",
        "",
        "error 36 BadFit line 5",
    ),
    (
        b"classes 2\nlimit 1\nfootprint 32\nrow 32\nmoments 1\nmoments 1\n",
        b"timeline\n16\n",
        "",
        "error 36 BadFit line 6",
    ),
    (
        b"classes 2\nlimit 1\nfootprint 32\nrow 32\nmoments x",
        b"timeline\n16\n",
        "",
        "error 36 BadFit line 5",
    ),
    (
        b"classes 2\nlimit 1\n",
        b"footprint 32\nsnapshots 1\n",
        "",
        "error 36 BadFit line 3",
    ),
    (
        OVER,
        b"snapshots 1\n16 1\n",
        "",
        "error 37 BadTimeline line 1",
    ),
    (FIT, b"timeline\n16\n", "", "error 34 BadSnapshots line 1"),
];

const REPLAYS: &[Case] = &[
    (
        b"classes 2 4\nmalloc 0 16\n",
        b"free 0\n",
        "",
        "error 23 BadLine line 1",
    ),
    (
        b"classes 2 4",
        b"malloc 0 16\nfree 1024\n",
        "",
        "error 72 OutOfRange line 2",
    ),
    (b"classes 2 4", b"", NO_EVENTS, "done"),
];

#[test]
fn two_texts_are_apart(rt: HostRuntime) -> Result<(), Fail> {
    run(&rt, &[(call!(Score), SCORES), (call!(Check), CHECKS)])?;
    run(
        &rt,
        &[
            (call!(Footprint), FOOTPRINTS),
            (call!(Peaks), PEAKS),
            (call!(CheckFit), FIT_CHECKS),
        ],
    )?;
    run(&rt, &[(call!(Replay), REPLAYS)])
}
