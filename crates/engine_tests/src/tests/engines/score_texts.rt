//! `score` from text to text.
use crate::tests::calls::{Case, answer, call};
use mte_engine::Call;
use std::test::Fail;

/// `score`.
pub const SCORE: Call = call!(Score);

const SCORES: &[Case] = &[
    (b"classes 4\n16 3\n40 1\n", "waste 104\n", "done"),
    (b"classes 2\n17 1\n", "not serving 17\n", "no"),
    (b"classes 2\n16 1\n17 1\n4000 9\n", "not serving 17\n", "no"),
    (b"classes 4\n16 3\n40 1", "waste 104\n", "done"),
    (b"classes\n", "waste 0\n", "done"),
    (b"classes", "waste 0\n", "done"),
    (b"classes\n0 1\n", "not serving 0\n", "no"),
    (b"classes 2\n0 1\n", "waste 16\n", "done"),
    (b"classes 1024\n16360 1\nlarge 1\n", "waste 8\n", "done"),
    (b"classes 2\nlarge 1000000000\n", "waste 0\n", "done"),
    (
        b"classes 1024\n8 1000000000\n",
        "waste 16360000000000\n",
        "done",
    ),
    (b"classes 2 4\n16 3\n40 1\n", "waste 8\n", "done"),
];

const CLASS_LINE_FAULTS: &[Case] = &[
    (b"", "", "error 23 BadLine line 1"),
    (b"\n16 1\n", "", "error 23 BadLine line 1"),
    (b"class 2\n", "", "error 23 BadLine line 1"),
    (b"Classes 2\n", "", "error 23 BadLine line 1"),
    (b" classes 2\n", "", "error 23 BadLine line 1"),
    (b"classes  2\n", "", "error 23 BadLine line 1"),
    (b"classes 2 \n", "", "error 23 BadLine line 1"),
    (b"classes\t2\n", "", "error 23 BadLine line 1"),
    (b"classes 2\r\n", "", "error 23 BadLine line 1"),
    (b"classes 02\n", "", "error 23 BadLine line 1"),
    (b"classes -2\n", "", "error 23 BadLine line 1"),
    (b"classes 1\n", "", "error 21 OutOfRange line 1"),
    (b"classes 1025\n", "", "error 21 OutOfRange line 1"),
    (
        b"classes 18446744073709551618\n",
        "",
        "error 21 OutOfRange line 1",
    ),
    (b"classes 0\n", "", "error 21 OutOfRange line 1"),
    (b"classes 2 2\n", "", "error 22 NotAscending line 1"),
    (b"classes 3 2\n", "", "error 22 NotAscending line 1"),
    // 23 before 20, 20 before 21 and 22, and of these the one at the first faulty class
    (
        b"classes 9 9 9 9 9 9 9 9 9 9 9 9 9 9 9 9 9 9 9 9 9 9 9 9 9 9 9 9 9 9 9 9 x\n",
        "",
        "error 23 BadLine line 1",
    ),
    (
        b"classes 9 9 9 9 9 9 9 9 9 9 9 9 9 9 9 9 9 9 9 9 9 9 9 9 9 9 9 9 9 9 9 9 1\n",
        "",
        "error 20 TooMany line 1",
    ),
    (
        b"classes 9 9 9 9 9 9 9 9 9 9 9 9 9 9 9 9 9 9 9 9 9 9 9 9 9 9 9 9 9 9 9 9\n",
        "",
        "error 22 NotAscending line 1",
    ),
    (b"classes 4 1\n", "", "error 21 OutOfRange line 1"),
    (b"classes 4 3 1\n", "", "error 22 NotAscending line 1"),
    (b"classes 4 1025 3\n", "", "error 21 OutOfRange line 1"),
    // the class line's fault before the profile's
    (b"classes 1\n16 0\n", "", "error 21 OutOfRange line 1"),
    (b"classes 2 x\nx\n", "", "error 23 BadLine line 1"),
];

const PROFILE_FAULTS: &[Case] = &[
    (
        b"classes 4\n40 1\n16 3\n",
        "",
        "error 31 NotAscending line 3",
    ),
    (
        b"classes 4\n16 1\n16 3\n",
        "",
        "error 31 NotAscending line 3",
    ),
    (b"classes 4\n16 0\n", "", "error 32 CountOutOfRange line 2"),
    (
        b"classes 4\n16 1000000001\n",
        "",
        "error 32 CountOutOfRange line 2",
    ),
    (
        b"classes 4\nlarge 0\n",
        "",
        "error 32 CountOutOfRange line 2",
    ),
    (b"classes 4\n16369 1\n", "", "error 30 BadLine line 2"),
    (b"classes 4\n\n", "", "error 30 BadLine line 2"),
    (b"classes 4\n16 1\n\n", "", "error 30 BadLine line 3"),
    (b"classes 4\n16 1\r\n", "", "error 30 BadLine line 2"),
    (b"classes 4\n16\t1\n", "", "error 30 BadLine line 2"),
    (b"classes 4\n16\n", "", "error 30 BadLine line 2"),
    (b"classes 4\n16 1 1\n", "", "error 30 BadLine line 2"),
    (b"classes 4\n16 01\n", "", "error 30 BadLine line 2"),
    (b"classes 4\n-16 1\n", "", "error 30 BadLine line 2"),
    (b"classes 4\nLarge 1\n", "", "error 30 BadLine line 2"),
    (b"classes 4\nlarge x\n", "", "error 30 BadLine line 2"),
    // a line after the large requests, whatever it is
    (b"classes 4\nlarge 1\n16 1\n", "", "error 30 BadLine line 3"),
    (
        b"classes 4\nlarge 1\nlarge 0\n",
        "",
        "error 30 BadLine line 3",
    ),
    // numbers of any length are numbers: a size of 20 digits is no size, a count of 200 no count
    (
        b"classes 4\n18446744073709551616 1\n",
        "",
        "error 30 BadLine line 2",
    ),
    (
        b"classes 4\n16 18446744073709551617\n",
        "",
        "error 32 CountOutOfRange line 2",
    ),
    (
        b"classes 4\n16 11111111111111111111111111111111111111111111111111111111111111111111111111111111111111111111111111111111111111111111111111111111111111111111111111111111111111111111111111111111111111111111111111111111\n",
        "",
        "error 32 CountOutOfRange line 2",
    ),
    // two faults in a line, and in two lines
    (b"classes 4\n40 1\n16369 0\n", "", "error 30 BadLine line 3"),
    (
        b"classes 4\n40 1\n16 0\n",
        "",
        "error 31 NotAscending line 3",
    ),
    (
        b"classes 4\n40 0\n16 x\n",
        "",
        "error 32 CountOutOfRange line 2",
    ),
];

const GROUPS: &[(Call, &[Case])] = &[
    (SCORE, SCORES),
    (SCORE, CLASS_LINE_FAULTS),
    (SCORE, PROFILE_FAULTS),
];

#[test]
fn scores(rt: HostRuntime) -> Result<(), Fail> {
    answer(&rt, GROUPS)
}
