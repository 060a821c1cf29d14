//! `footprint`, `fit` and `check-fit` from text to text.
use crate::tests::calls::{Case, answer, call};
use mte_engine::Call;
use std::test::Fail;

// Three blocks of 16 bytes are live at the first snapshot, and one of 40 at the second. One class of 64 bytes takes 192 bytes for them; one
// of 32 and one of 64 take 96 and 64.
const FOOTPRINTS: &[Case] = &[
    (
        b"classes 2 4\nsnapshots 2\n16 3 0\n40 0 1\n",
        "footprint 160\n",
        "done",
    ),
    (
        b"classes 4\nsnapshots 2\n16 3 0\n40 0 1",
        "footprint 192\n",
        "done",
    ),
    (
        b"classes 2\nsnapshots 2\n16 3 0\n40 0 1\n",
        "not serving 40\n",
        "no",
    ),
    (b"classes\nsnapshots 64\n", "footprint 0\n", "done"),
    (
        b"classes 2\nsnapshots 2\n0 1 0\n16 0 1\nlarge 0 5\n",
        "footprint 32\n",
        "done",
    ),
    (
        b"classes 1024\nsnapshots 1\n0 1000000000\n16360 1000000000\n",
        "footprint 32768000000000\n",
        "done",
    ),
    (b"classes 2\n", "", "error 34 BadSnapshots line 2"),
    (b"", "", "error 23 BadLine line 1"),
    (
        b"classes 1\nsnapshots 0\n",
        "",
        "error 21 OutOfRange line 1",
    ),
    (
        b"classes 2\nsnapshots 1\n16 1\n16 1\n",
        "",
        "error 31 NotAscending line 4",
    ),
];

const FITS_OF_TWO: &[Case] = &[
    (
        b"snapshots 2\n16 3 0\n40 0 1\n",
        "classes 2 4\nlimit 2\nfootprint 160\nrow 192 64\nrow 160 64\n",
        "done",
    ),
    // one snapshot: the waste of 8 bytes, the requested 88, and 16 for each of the four blocks
    (
        b"snapshots 1\n16 3\n40 1\n",
        "classes 2 4\nlimit 2\nfootprint 160\nrow 256 64\nrow 160 64\n",
        "done",
    ),
    // the two sizes are never live together, so one class takes no more than its larger one
    (
        b"snapshots 2\n16 3 0\n40 0 3\n",
        "classes 4\nlimit 2\nfootprint 192\nrow 192 192\nrow 192 192\n",
        "done",
    ),
    (
        b"snapshots 1\nlarge 7\n",
        "classes\nlimit 2\nfootprint 0\nrow\nrow\n",
        "done",
    ),
];

const FITS_OF_ONE: &[Case] = &[(
    b"snapshots 2\n16 3 0\n40 0 1\n",
    "classes 4\nlimit 1\nfootprint 192\nrow 192 64\n",
    "done",
)];

const FITS_FOR_STEP_FOUR: &[Case] = &[(
    b"snapshots 2\n16 3 0\n40 0 1\n",
    "classes 4\nlimit 2\nstep 4\nfootprint 192\nrow 192\nrow 192\n",
    "done",
)];

const HISTORY_FAULTS: &[Case] = &[
    (b"", "", "error 34 BadSnapshots line 1"),
    (b"16 1\n", "", "error 34 BadSnapshots line 1"),
    (b"snapshots\n", "", "error 34 BadSnapshots line 1"),
    (b"snapshots 0\n", "", "error 34 BadSnapshots line 1"),
    (b"snapshots 1025\n", "", "error 34 BadSnapshots line 1"),
    (b"snapshots 02\n", "", "error 34 BadSnapshots line 1"),
    (b"snapshots 2 2\n", "", "error 34 BadSnapshots line 1"),
    (b"snapshots 2\n16 1\n", "", "error 35 WrongLength line 2"),
    (
        b"snapshots 2\n16 1 1 1\n",
        "",
        "error 35 WrongLength line 2",
    ),
    (b"snapshots 2\n16\n", "", "error 35 WrongLength line 2"),
    (
        b"snapshots 2\n40 1 1\n16 1\n",
        "",
        "error 35 WrongLength line 3",
    ),
    (b"snapshots 2\n16 x\n", "", "error 30 BadLine line 2"),
    (b"snapshots 2\n16 1 01\n", "", "error 30 BadLine line 2"),
    (b"snapshots 2\n16369 1 1\n", "", "error 30 BadLine line 2"),
    (b"snapshots 2\n\n", "", "error 30 BadLine line 2"),
    (
        b"snapshots 2\nlarge 1 1\n16 1 1\n",
        "",
        "error 30 BadLine line 3",
    ),
    (
        b"snapshots 2\n40 1 1\n16 0 0\n",
        "",
        "error 31 NotAscending line 3",
    ),
    (
        b"snapshots 2\n16 0 0\n",
        "",
        "error 32 CountOutOfRange line 2",
    ),
    (
        b"snapshots 2\nlarge 0 0\n",
        "",
        "error 32 CountOutOfRange line 2",
    ),
    (
        b"snapshots 2\n16 0 1000000001\n",
        "",
        "error 32 CountOutOfRange line 2",
    ),
    (
        b"snapshots 2\n16 18446744073709551617 1\n",
        "",
        "error 32 CountOutOfRange line 2",
    ),
];

// the best two classes, and fits with one thing changed
const VERDICTS: &[Case] = &[
    (
        b"classes 4 1024\nlimit 2\nforced 1024\nfootprint 192\nrow 49152 16384 0\nrow 192 64 0\nsnapshots 2\n16 3 0\n40 0 1\n",
        "optimal\n",
        "done",
    ),
    (
        b"classes 2 4\nlimit 2\nforced 1024\nfootprint 160\nrow 192 64\nrow 160 64\nsnapshots 2\n16 3 0\n40 0 1\n",
        "refused 41 NotServing\n",
        "no",
    ),
    (
        b"classes 2 4\nlimit 2\nfootprint 160\nrow 192 64\nrow 160 64\nsnapshots 2\n16 3 0\n40 0 1\n",
        "optimal\n",
        "done",
    ),
    (
        b"classes 2 4\nlimit 2\nstep 4\nfootprint 160\nrow 192\nrow 160\nsnapshots 2\n16 3 0\n40 0 1\n",
        "refused 39 OffStep\n",
        "no",
    ),
    (
        b"classes 2 4\nlimit 1\nfootprint 160\nrow 160 64\nsnapshots 2\n16 3 0\n40 0 1\n",
        "refused 40 OverLimit\n",
        "no",
    ),
    (
        b"classes 2\nlimit 2\nfootprint 96\nrow 96 64\nrow 96 64\nsnapshots 2\n16 3 0\n40 0 1\n",
        "refused 41 NotServing\n",
        "no",
    ),
    (
        b"classes 2 4\nlimit 2\nfootprint 159\nrow 192 64\nrow 159 64\nsnapshots 2\n16 3 0\n40 0 1\n",
        "refused 49 FootprintWrong\n",
        "no",
    ),
    (
        b"classes 2 4\nlimit 2\nfootprint 160\nrow 192 64\nsnapshots 2\n16 3 0\n40 0 1\n",
        "refused 43 Shape\n",
        "no",
    ),
    (
        b"classes 2 4\nlimit 2\nfootprint 160\nrow 193 64\nrow 160 64\nsnapshots 2\n16 3 0\n40 0 1\n",
        "refused 44 LastClass\n",
        "no",
    ),
    (
        b"classes 2 4\nlimit 2\nfootprint 160\nrow 192 64\nrow 160 65\nsnapshots 2\n16 3 0\n40 0 1\n",
        "refused 45 StageDrop\n",
        "no",
    ),
    (
        b"classes 2 4\nlimit 2\nfootprint 160\nrow 192 64\nrow 161 64\nsnapshots 2\n16 3 0\n40 0 1\n",
        "refused 46 Edge\n",
        "no",
    ),
    (
        b"classes 4\nlimit 2\nfootprint 192\nrow 192 64\nrow 160 64\nsnapshots 2\n16 3 0\n40 0 1\n",
        "refused 47 NotTight\n",
        "no",
    ),
    (
        b"classes 4\nlimit 2\nfootprint 192\nrow 192 192\nrow 192 192\nsnapshots 2\n16 3 0\n40 0 3\n",
        "optimal\n",
        "done",
    ),
    (
        b"classes 2 4\nlimit 2\nwaste 160\nrow 192 64\nrow 160 64\nsnapshots 2\n16 3 0\n40 0 1\n",
        "",
        "error 36 BadFit line 3",
    ),
    (b"", "", "error 36 BadFit line 1"),
    (
        b"classes 2\nlimit 1\nfootprint 0\nrow 0\n",
        "",
        "error 34 BadSnapshots line 5",
    ),
    (
        b"classes 2\nlimit 1\nfootprint 0\nrow 0\nsnapshots 1\n16 1\n16 1\n",
        "",
        "error 31 NotAscending line 7",
    ),
];

// class 1024 takes nothing where it has no block
const FITS_WITH_THE_LARGEST_CLASS: &[Case] = &[(
    b"snapshots 2\n16 3 0\n40 0 1\n",
    "classes 4 1024\nlimit 2\nforced 1024\nfootprint 192\nrow 49152 16384 0\nrow 192 64 0\n",
    "done",
)];

const GROUPS: &[(Call, &[Case])] = &[
    (call!(Footprint), FOOTPRINTS),
    (call!(Fit, limit: 2), FITS_OF_TWO),
    (call!(Fit, limit: 1), FITS_OF_ONE),
    (call!(Fit, limit: 2, step: 4), FITS_FOR_STEP_FOUR),
    (
        call!(Fit, limit: 2, largest_class: 1),
        FITS_WITH_THE_LARGEST_CLASS,
    ),
    (call!(Fit, limit: 2), HISTORY_FAULTS),
    (call!(CheckFit), VERDICTS),
];

#[test]
fn footprints_and_fits(rt: HostRuntime) -> Result<(), Fail> {
    answer(&rt, GROUPS)
}
