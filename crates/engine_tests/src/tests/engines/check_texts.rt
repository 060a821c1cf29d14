//! `check` from text to text.
use self::Case::{Fault, Optimal, Refused};
use crate::tests::calls::{answers, call};
use mte_engine::Call;
use std::process::Abort;
use std::test::Fail;

// an input, and the answer to it
#[derive(Clone, Copy)]
enum Case {
    Optimal(&'static [u8]),
    Refused(&'static [u8], &'static str),
    Fault(&'static [u8], &'static str),
}

fn run(rt: &(impl Abort + AllocGlobal), groups: &[&[Case]]) -> Result<(), Fail> {
    for cases in groups {
        run_all(rt, cases)?;
    }
    Ok(())
}

fn run_all(rt: &(impl Abort + AllocGlobal), cases: &[Case]) -> Result<(), Fail> {
    for case in cases {
        let (input, written, wanted) = match case {
            Optimal(input) => (*input, "optimal\n", "done"),
            Refused(input, written) => (*input, *written, "no"),
            Fault(input, wanted) => (*input, "", *wanted),
        };
        answers(rt, call!(Check), input, written, wanted)?;
    }
    Ok(())
}

// One class for both sizes wastes 104 bytes, two waste 8.
const ONE_NUMBER_CHANGED: &[Case] = &[
    Optimal(
        b"classes 4 1024\nlimit 2\nforced 1024\nwaste 104\nrow 65384 16328 0\nrow 104 8 0\n16 3\n40 1\n",
    ),
    Refused(
        b"classes 4 1024\nlimit 2\nwaste 104\nrow 65384 16328 0\nrow 104 8 0\n16 3\n40 1\n",
        "refused 43 Shape\n",
    ),
    Refused(
        b"classes 2 4\nlimit 2\nforced 1024\nwaste 8\nrow 104 8\nrow 8 8\n16 3\n40 1\n",
        "refused 41 NotServing\n",
    ),
    Optimal(b"classes 2 4\nlimit 2\nwaste 8\nrow 104 8\nrow 8 8\n16 3\n40 1\n"),
    Refused(
        b"classes 2 4\nlimit 2\nwaste 8\nrow 104 8\nrow 9 8\n16 3\n40 1\n",
        "refused 46 Edge\n",
    ),
    Refused(
        b"classes 2 4\nlimit 2\nwaste 8\nrow 104 8\nrow 8 9\n16 3\n40 1\n",
        "refused 45 StageDrop\n",
    ),
    Refused(
        b"classes 2 4\nlimit 2\nwaste 8\nrow 104 9\nrow 8 8\n16 3\n40 1\n",
        "refused 44 LastClass\n",
    ),
    Refused(
        b"classes 2 4\nlimit 2\nwaste 9\nrow 104 8\nrow 8 8\n16 3\n40 1\n",
        "refused 42 WasteWrong\n",
    ),
    Refused(
        b"classes 2 4\nlimit 2\nwaste 8\nrow 104 8\n16 3\n40 1\n",
        "refused 43 Shape\n",
    ),
    Refused(
        b"classes 2 4\nlimit 1\nwaste 8\nrow 104 8\n16 3\n40 1\n",
        "refused 40 OverLimit\n",
    ),
    Refused(
        b"classes 2\nlimit 2\nwaste 0\nrow 104 8\nrow 8 8\n16 3\n40 1\n",
        "refused 41 NotServing\n",
    ),
    Refused(
        b"classes 4\nlimit 2\nwaste 104\nrow 0 0\nrow 0 0\n16 3\n40 1\n",
        "refused 47 NotTight\n",
    ),
];

const THE_LARGEST_NUMBERS: &[Case] = &[
    Refused(
        b"classes 2 4\nlimit 2\nwaste 8\nrow 104 18446744073709551615\nrow 8 8\n16 3\n40 1\n",
        "refused 44 LastClass\n",
    ),
    Refused(
        b"classes 2 4\nlimit 2\nwaste 8\nrow 104 8\nrow 18446744073709551615 8\n16 3\n40 1\n",
        "refused 45 StageDrop\n",
    ),
    Fault(
        b"classes 2 4\nlimit 2\nwaste 8\nrow 104 18446744073709551616\nrow 8 8\n16 3\n40 1\n",
        "error 48 BadSheet line 4",
    ),
];

// Three requests, which need 2, 3 and 4 granules; with a step of 2 the latter two need 4.
const STEPS: &[Case] = &[
    Optimal(b"classes 2 4\nlimit 2\nstep 2\nwaste 16\nrow 48 16\nrow 16 16\n16 1\n32 1\n48 1\n"),
    Refused(
        b"classes 2 4\nlimit 2\nwaste 16\nrow 48 16\nrow 16 16\n16 1\n32 1\n48 1\n",
        "refused 43 Shape\n",
    ),
    Fault(
        b"classes 2 4\nlimit 2\nstep 1\nwaste 16\nrow 48 16\nrow 16 16\n16 1\n32 1\n48 1\n",
        "error 48 BadSheet line 3",
    ),
    Fault(
        b"classes 2 4\nlimit 2\nstep 3\nwaste 16\nrow 48 16\nrow 16 16\n16 1\n32 1\n48 1\n",
        "error 48 BadSheet line 3",
    ),
    Refused(
        b"classes 2 3 4\nlimit 3\nstep 2\nwaste 0\nrow 48 16\nrow 16 16\nrow 16 16\n16 1\n32 1\n48 1\n",
        "refused 39 OffStep\n",
    ),
    // the class 3 is off the step, and there are too many
    Refused(
        b"classes 2 3 4\nlimit 2\nstep 2\nwaste 0\nrow 48 16\nrow 16 16\n16 1\n32 1\n48 1\n",
        "refused 39 OffStep\n",
    ),
    Optimal(b"classes 8\nlimit 1\nstep 8\nwaste 240\nrow 240\n16 1\n32 1\n48 1\n"),
];

// The number 160 is too much for the edge that passes over a place, and for no other.
const AN_EDGE_OVER_A_PLACE: &[Case] = &[Refused(
    b"classes 2 4\nlimit 2\nwaste 160\nrow 192 160 0\nrow 160 0 0\n16 1\n32 10\n48 1\n",
    "refused 46 Edge\n",
)];

// Each input breaks two conditions, one code after the other: the lesser is reported.
const THE_FIRST_OF_TWO: &[Case] = &[
    Refused(
        b"classes 3 4\nlimit 1\nstep 2\nwaste 0\nrow 0\n16 1\n",
        "refused 39 OffStep\n",
    ),
    Refused(
        b"classes 2 3\nlimit 1\nwaste 8\nrow 104 8\n16 3\n40 1\n",
        "refused 40 OverLimit\n",
    ),
    Refused(
        b"classes 2\nlimit 2\nwaste 1\nrow 104 8\nrow 8 8\n16 3\n40 1\n",
        "refused 41 NotServing\n",
    ),
    Refused(
        b"classes 2 4\nlimit 2\nwaste 9\nrow 104 8\n16 3\n40 1\n",
        "refused 42 WasteWrong\n",
    ),
    Refused(
        b"classes 2 4\nlimit 2\nwaste 8\nrow 105 8\n16 3\n40 1\n",
        "refused 43 Shape\n",
    ),
    Refused(
        b"classes 2 4\nlimit 2\nwaste 8\nrow 104 9\nrow 8 10\n16 3\n40 1\n",
        "refused 44 LastClass\n",
    ),
    Refused(
        b"classes 2 4\nlimit 2\nwaste 8\nrow 104 8\nrow 9 9\n16 3\n40 1\n",
        "refused 45 StageDrop\n",
    ),
    Refused(
        b"classes 4\nlimit 2\nwaste 104\nrow 104 8\nrow 9 8\n16 3\n40 1\n",
        "refused 46 Edge\n",
    ),
];

// What is answered below this length of the input, from the one before on: what is written, and how the engine ends.
#[derive(Clone, Copy)]
struct Front(usize, &'static str, &'static str);

const WHOLE: &[u8] = b"classes 2 4\nlimit 2\nwaste 8\nrow 104 8\nrow 8 8\n16 3\n40 1\n";

// worked out by hand
const FRONTS: &[Front] = &[
    Front(7, "", "error 48 BadSheet line 1"),
    Front(8, "", "error 48 BadSheet line 2"),
    Front(9, "", "error 48 BadSheet line 1"),
    Front(10, "", "error 48 BadSheet line 2"),
    Front(11, "", "error 48 BadSheet line 1"),
    Front(19, "", "error 48 BadSheet line 2"),
    Front(27, "", "error 48 BadSheet line 3"),
    Front(29, "refused 42 WasteWrong\n", "no"),
    Front(31, "", "error 30 BadLine line 4"),
    Front(32, "refused 42 WasteWrong\n", "no"),
    Front(33, "", "error 48 BadSheet line 4"),
    Front(36, "refused 42 WasteWrong\n", "no"),
    Front(37, "", "error 48 BadSheet line 4"),
    Front(39, "refused 42 WasteWrong\n", "no"),
    Front(41, "", "error 30 BadLine line 5"),
    Front(42, "refused 42 WasteWrong\n", "no"),
    Front(43, "", "error 48 BadSheet line 5"),
    Front(44, "refused 42 WasteWrong\n", "no"),
    Front(45, "", "error 48 BadSheet line 5"),
    Front(47, "refused 42 WasteWrong\n", "no"),
    Front(50, "", "error 30 BadLine line 6"),
    Front(52, "refused 42 WasteWrong\n", "no"),
    Front(55, "", "error 30 BadLine line 7"),
    Front(57, "optimal\n", "done"),
];

#[test]
fn each_front_of_an_input(rt: HostRuntime) -> Result<(), Fail> {
    let mut first = 0;
    for Front(end, written, wanted) in FRONTS {
        for len in first..*end {
            answers_front(&rt, len, written, wanted)?;
        }
        first = *end;
    }
    Ok(())
}

fn answers_front(
    rt: &(impl Abort + AllocGlobal),
    len: usize,
    written: &str,
    wanted: &str,
) -> Result<(), Fail> {
    assert!(rt; len <= WHOLE.len());
    answers(rt, call!(Check), &WHOLE[..len], written, wanted)
}

const SMALL_INPUTS: &[Case] = &[
    Fault(b"classes 2 4\nlimit 2\nstep 2", "error 48 BadSheet line 4"),
    Fault(
        b"classes 2 4\nlimit 2\nforced 512\nwaste 8\n",
        "error 48 BadSheet line 3",
    ),
    Fault(
        b"classes 2 4\nlimit 2\nforced 1024\nstep 2\nwaste 8\n",
        "error 48 BadSheet line 4",
    ),
    Fault(
        b"classes 2 4\nlimit 2\nstep 2\nforced 1024\n",
        "error 48 BadSheet line 5",
    ),
    Optimal(b"classes\nlimit 1\nwaste 0\nrow"),
    Optimal(b"classes\nlimit 1\nwaste 0\nrow\nlarge 3\n"),
];

// Where the sheet ends and the profile begins, and which line is reported.
const LINES_OF_BOTH_PARTS: &[Case] = &[
    Fault(
        b"classes 4 2\nlimit 2\nwaste 8\n16 0\n",
        "error 48 BadSheet line 1",
    ),
    Fault(
        b"classes 2 4\nlimit 33\nwaste 8\n16 0\n",
        "error 48 BadSheet line 2",
    ),
    Fault(
        b"classes 2 4\nlimit 2\nwaste 08\n16 0\n",
        "error 48 BadSheet line 3",
    ),
    // a first word that is not quite `row` is the profile's
    Fault(
        b"classes 2 4\nlimit 2\nwaste 8\nrow 104 8\nrows 1\n",
        "error 30 BadLine line 5",
    ),
    Fault(
        b"classes 2 4\nlimit 2\nwaste 8\nrow\t104 8\n",
        "error 30 BadLine line 4",
    ),
    Fault(
        b"classes 2 4\nlimit 2\nwaste 8\nrow 104 8\n\n16 3\n",
        "error 30 BadLine line 5",
    ),
    // a row that comes late, too
    Fault(
        b"classes 2 4\nlimit 2\nwaste 8\nrow 104 8\n16 3\nrow 8 8\n40 1\n",
        "error 30 BadLine line 6",
    ),
    // where it is, the line is the sheet's
    Fault(
        b"classes 2 4\nlimit 2\nwaste 8\nrow \n16 3\n",
        "error 48 BadSheet line 4",
    ),
    Fault(
        b"classes 2 4\nlimit 2\nwaste 8\nrow 104 x\n16 0\n",
        "error 48 BadSheet line 4",
    ),
    Fault(
        b"classes 2 4\nlimit 2\nstep 2\nwaste 8\nrow 104 8\n40 1\n16 3\n",
        "error 31 NotAscending line 7",
    ),
    Fault(
        b"classes 2 4\nlimit 2\nwaste 8\nrow 104 8\nrow 8 8\n16 0\n",
        "error 32 CountOutOfRange line 6",
    ),
    // 33 rows
    Fault(
        b"classes\nlimit 32\nwaste 0\nrow\nrow\nrow\nrow\nrow\nrow\nrow\nrow\nrow\nrow\nrow\nrow\nrow\nrow\nrow\nrow\nrow\nrow\nrow\nrow\nrow\nrow\nrow\nrow\nrow\nrow\nrow\nrow\nrow\nrow\nrow\nrow\nrow\n",
        "error 48 BadSheet line 36",
    ),
];

const GROUPS: &[&[Case]] = &[
    ONE_NUMBER_CHANGED,
    THE_LARGEST_NUMBERS,
    STEPS,
    AN_EDGE_OVER_A_PLACE,
    THE_FIRST_OF_TWO,
    SMALL_INPUTS,
    LINES_OF_BOTH_PARTS,
];

#[test]
fn checks(rt: HostRuntime) -> Result<(), Fail> {
    run(&rt, GROUPS)
}
