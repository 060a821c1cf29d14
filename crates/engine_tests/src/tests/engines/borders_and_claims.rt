//! Inputs where the options say how many lines the first text has, and the line that says what `optimal` shows.
use crate::tests::calls::{Case, answer, call};
use mte_engine::Call;
use std::test::Fail;

// Four requests of two sizes and 88 bytes, and three large ones; one class for both sizes wastes 104 bytes, two waste 8.
const CLAIMS: &[(Call, &[Case])] = &[
    (
        call!(Check, claim: 1),
        &[
            (
                b"classes 2 4\nlimit 2\nwaste 8\nrow 104 8\nrow 8 8\n16 3\n40 1\nlarge 3\n",
                "optimal\nclaim waste 8 limit 2 step 1 forced 0 sizes 2 requests 4 bytes 88 large 3\n",
                "done",
            ),
            (
                b"classes 4 1024\nlimit 2\nforced 1024\nwaste 104\nrow 65384 16328 0\nrow 104 8 0\n16 3\n40 1\n",
                "optimal\nclaim waste 104 limit 2 step 1 forced 1024 sizes 2 requests 4 bytes 88 large 0\n",
                "done",
            ),
            (
                b"classes 8\nlimit 1\nstep 8\nwaste 240\nrow 240\n16 1\n32 1\n48 1",
                "optimal\nclaim waste 240 limit 1 step 8 forced 0 sizes 3 requests 3 bytes 96 large 0\n",
                "done",
            ),
            // a size of 0 bytes is one, and the largest counts
            (
                b"classes 2 1024\nlimit 2\nwaste 16\nrow 16352 0\nrow 16 0\n0 1\n16368 1000000000\n",
                "optimal\nclaim waste 16 limit 2 step 1 forced 0 sizes 2 requests 1000000001 bytes 16368000000000 large 0\n",
                "done",
            ),
            (
                b"classes\nlimit 1\nwaste 0\nrow\n",
                "optimal\nclaim waste 0 limit 1 step 1 forced 0 sizes 0 requests 0 bytes 0 large 0\n",
                "done",
            ),
            (
                b"classes 2 4\nlimit 2\nwaste 9\nrow 104 8\nrow 8 8\n16 3\n40 1\n",
                "refused 42 WasteWrong\n",
                "no",
            ),
        ],
    ),
    (
        call!(CheckFit, claim: 1),
        &[
            (
                b"classes 2 4\nlimit 2\nfootprint 320\nrow 384 192\nrow 320 192\nsnapshots 3\n16 4 0 1\n40 2 3 0\nlarge 0 1 0\n",
                "optimal\nclaim footprint 320 limit 2 step 1 forced 0 snapshots 3\n",
                "done",
            ),
            (
                b"classes 2 4\nlimit 2\nfootprint 128\nrow 192 64\nrow 128 64\nmoments 3\ntimeline\n16\n16\n40\n-16\nlarge\n",
                "optimal\nclaim footprint 128 limit 2 step 1 forced 0 events 5\n",
                "done",
            ),
        ],
    ),
];

// The first text has five lines, or with a line of moments six.
const BORDERS: &[(Call, &[Case])] = &[
    (
        call!(Check, first_lines: 5, claim: 1),
        &[
            (
                b"classes 2 4\nlimit 2\nwaste 8\nrow 104 8\nrow 8 8\n16 3\n40 1\n",
                "optimal\nclaim waste 8 limit 2 step 1 forced 0 sizes 2 requests 4 bytes 88 large 0\n",
                "done",
            ),
            (
                b"classes 2 4\nlimit 2\nwaste 8\nrow 104 8\nrow 8 8",
                "refused 42 WasteWrong\n",
                "no",
            ),
            // a line of the profile is among the first five
            (
                b"classes 2 4\nlimit 2\nwaste 8\nrow 104 8\n0 1000000\n16 3\n40 1\n",
                "",
                "error 48 BadSheet line 5",
            ),
            (
                b"classes 2 4\nlimit 2\nwaste 8\nrow 104 8\n",
                "",
                "error 48 BadSheet line 5",
            ),
            (b"", "", "error 48 BadSheet line 1"),
            // a sixth line of the sheet's form is the profile's
            (
                b"classes 2 4\nlimit 3\nwaste 8\nrow 104 8\nrow 8 8\nrow 8 8\n16 3\n",
                "",
                "error 30 BadLine line 6",
            ),
            (
                b"classes 2 4\nlimit 2\nwaste 8\nrow 104 8\nrow 8 8\n16 3\n16 1\n",
                "",
                "error 31 NotAscending line 7",
            ),
        ],
    ),
    (
        call!(CheckFit, first_lines: 5),
        &[
            (
                b"classes 2 4\nlimit 2\nfootprint 320\nrow 384 192\nrow 320 192\nsnapshots 3\n16 4 0 1\n40 2 3 0\n",
                "optimal\n",
                "done",
            ),
            (
                b"classes 2 4\nlimit 2\nfootprint 320\nrow 384 192\nsnapshots 3\n16 4 0 1\n40 2 3 0\n",
                "",
                "error 36 BadFit line 5",
            ),
            (
                b"classes 2 4\nlimit 2\nfootprint 320\n",
                "",
                "error 36 BadFit line 4",
            ),
            (
                b"classes 2 4\nlimit 2\nfootprint 128\nrow 192 64\nrow 128 64\nmoments 3\ntimeline\n16\n",
                "",
                "error 34 BadSnapshots line 6",
            ),
        ],
    ),
    (
        call!(CheckFit, first_lines: 6, claim: 1),
        &[
            (
                b"classes 2 4\nlimit 2\nfootprint 128\nrow 192 64\nrow 128 64\nmoments 3\ntimeline\n16\n16\n40\n-16\nlarge\n",
                "optimal\nclaim footprint 128 limit 2 step 1 forced 0 events 5\n",
                "done",
            ),
            (
                b"classes 2 4\nlimit 2\nfootprint 128\nrow 192 64\nmoments 3\ntimeline\n16\n",
                "",
                "error 36 BadFit line 6",
            ),
            (
                b"classes 2 4\nlimit 2\nfootprint 128\nrow 192 64\nmoments 3",
                "",
                "error 36 BadFit line 6",
            ),
            (
                b"classes 2 4\nlimit 2\nfootprint 128\nrow 192 64\nrow 128 64\nmoments 3\ntimeline\n16\n-40\n",
                "",
                "error 38 NotLive line 9",
            ),
        ],
    ),
    (
        call!(Score, first_lines: 1),
        &[
            (b"classes 2 8\n9 1000\n24 70", "waste 13160\n", "done"),
            (b"", "", "error 23 BadLine line 1"),
        ],
    ),
    (
        call!(Score, first_lines: 2),
        &[
            (b"classes 2 8\n9 1000\n24 70", "", "error 23 BadLine line 1"),
            (
                b"classes 8 2\n9 1000\n24 70",
                "",
                "error 22 NotAscending line 1",
            ),
            (b"", "", "error 23 BadLine line 1"),
        ],
    ),
    (
        call!(Footprint, first_lines: 2),
        &[(
            b"classes 2 4\nsnapshots 1\n16 1\n",
            "",
            "error 23 BadLine line 1",
        )],
    ),
    (
        call!(Footprint, first_lines: 1),
        &[(
            b"classes 2 4\nsnapshots 1\n16 1\n",
            "footprint 32\n",
            "done",
        )],
    ),
    (
        call!(Peaks, first_lines: 64),
        &[(
            b"classes 2 4\ntimeline\n16\n",
            "",
            "error 23 BadLine line 1",
        )],
    ),
];

#[test]
fn claims_of_optimal(rt: HostRuntime) -> Result<(), Fail> {
    answer(&rt, CLAIMS)
}

#[test]
fn first_texts_of_so_many_lines(rt: HostRuntime) -> Result<(), Fail> {
    answer(&rt, BORDERS)
}
