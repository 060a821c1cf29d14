//! `tune` from text to text.
use self::Case::{Fault, Tuned, WithLargest};
use crate::tests::calls::{answers, call};
use mte_engine::Call;
use std::process::Abort;
use std::test::Fail;

// an input and the answer to it
#[derive(Clone, Copy)]
enum Case {
    /// The limit and the step, the input, and the sheet.
    Tuned(u8, u8, &'static [u8], &'static str),
    /// The input, and the sheet with class 1024 at limit 2 and step 1.
    WithLargest(&'static [u8], &'static str),
    /// The input, and the fault at limit 2 and step 1.
    Fault(&'static [u8], &'static str),
}

fn check(rt: &(impl Abort + AllocGlobal), cases: &[Case]) -> Result<(), Fail> {
    for case in cases {
        let (limit, step, largest_class, input, written, wanted) = match case {
            Tuned(limit, step, input, written) => (*limit, *step, 0, *input, *written, "done"),
            WithLargest(input, written) => (2, 1, 1, *input, *written, "done"),
            Fault(input, wanted) => (2, 1, 0, *input, "", *wanted),
        };
        answers(
            rt,
            call!(Tune, limit: limit, step: step, largest_class: largest_class),
            input,
            written,
            wanted,
        )?;
    }
    Ok(())
}

const TUNES: &[Case] = &[
    Tuned(
        1,
        1,
        b"16 3\n40 1\n",
        "classes 4\nlimit 1\nwaste 104\nrow 104 8\n",
    ),
    Tuned(
        2,
        1,
        b"16 3\n40 1\n",
        "classes 2 4\nlimit 2\nwaste 8\nrow 104 8\nrow 8 8\n",
    ),
    Tuned(
        2,
        1,
        b"16 3\n40 1",
        "classes 2 4\nlimit 2\nwaste 8\nrow 104 8\nrow 8 8\n",
    ),
    Tuned(
        32,
        1,
        b"16 3\n40 1\n",
        "\
classes 2 4
limit 32
waste 8
row 104 8
row 8 8
row 8 8
row 8 8
row 8 8
row 8 8
row 8 8
row 8 8
row 8 8
row 8 8
row 8 8
row 8 8
row 8 8
row 8 8
row 8 8
row 8 8
row 8 8
row 8 8
row 8 8
row 8 8
row 8 8
row 8 8
row 8 8
row 8 8
row 8 8
row 8 8
row 8 8
row 8 8
row 8 8
row 8 8
row 8 8
row 8 8
",
    ),
    Tuned(1, 1, b"", "classes\nlimit 1\nwaste 0\nrow\n"),
    // 3 and 4 waste 16 too: the tie falls to the lesser first class
    Tuned(
        2,
        1,
        b"16 1\n32 1\n48 1\n",
        "classes 2 4\nlimit 2\nwaste 16\nrow 48 16 0\nrow 16 0 0\n",
    ),
    Tuned(1, 1, b"0 1\n", "classes 2\nlimit 1\nwaste 16\nrow 16\n"),
    Tuned(
        1,
        1,
        b"16360 1\nlarge 1\n",
        "classes 1024\nlimit 1\nwaste 8\nrow 8\n",
    ),
    Tuned(1, 1, b"large 1\n", "classes\nlimit 1\nwaste 0\nrow\n"),
];

const TUNES_FOR_A_STEP: &[Case] = &[
    Tuned(
        2,
        2,
        b"16 1\n32 1\n48 1\n",
        "classes 2 4\nlimit 2\nstep 2\nwaste 16\nrow 48 16\nrow 16 16\n",
    ),
    Tuned(
        1,
        8,
        b"16 1\n32 1\n48 1\n",
        "classes 8\nlimit 1\nstep 8\nwaste 240\nrow 240\n",
    ),
    Tuned(
        2,
        4,
        b"16 3\n40 1\n",
        "classes 4\nlimit 2\nstep 4\nwaste 104\nrow 104\nrow 104\n",
    ),
];

// class 1024 serves whatever is above the other class, and so one class alone all
const TUNES_WITH_THE_LARGEST_CLASS: &[Case] = &[
    WithLargest(
        b"16 3\n40 1\n",
        "classes 4 1024\nlimit 2\nforced 1024\nwaste 104\nrow 65384 16328 0\nrow 104 8 0\n",
    ),
    WithLargest(
        b"16 3\n16368 1\n",
        "classes 2 1024\nlimit 2\nforced 1024\nwaste 0\nrow 49056 0\nrow 0 0\n",
    ),
    WithLargest(
        b"",
        "classes 1024\nlimit 2\nforced 1024\nwaste 0\nrow 0\nrow 0\n",
    ),
];

const FAULTS_OF_THE_PROFILE: &[Case] = &[
    Fault(b"40 1\n16 3\n", "error 31 NotAscending line 2"),
    Fault(b"16 0\n", "error 32 CountOutOfRange line 1"),
    Fault(b"16369 1\n", "error 30 BadLine line 1"),
    Fault(b"\n", "error 30 BadLine line 1"),
    Fault(b"classes 4\n16 3\n40 1\n", "error 30 BadLine line 1"),
];

#[test]
fn tunes(rt: HostRuntime) -> Result<(), Fail> {
    check(&rt, TUNES)?;
    check(&rt, TUNES_FOR_A_STEP)?;
    check(&rt, TUNES_WITH_THE_LARGEST_CLASS)?;
    check(&rt, FAULTS_OF_THE_PROFILE)
}
