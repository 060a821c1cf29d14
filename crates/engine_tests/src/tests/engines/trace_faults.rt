//! Faulty traces, through each engine that reads one.
use super::pieces::{Case, check};
use crate::tests::calls::call;
use mte_engine::Call;
use std::test::Fail;

// each fault of a trace alone, in its order within a line, and in two lines
const FAULTS: &[Case] = &[
    Case("load 1 0\n", "", "error 70 BadWord line 1"),
    Case("malloc 01 1\n", "", "error 71 BadNumber line 1"),
    Case("load 1 -0 1\n", "", "error 71 BadNumber line 1"),
    Case("malloc 1024 1\n", "", "error 72 OutOfRange line 1"),
    Case(
        "aaaaaaaaaaaaaaaaaaaaaaaaaaaaaaaaaaaaaaaaaaaaaaaaaaaaaaaaaaaaaaaaaaaaaaaaaaaaaaaaa",
        "",
        "error 73 LineTooLong line 1",
    ),
    Case("malloc 1 16\nstore 1 16 1\n", "", "error 70 BadWord line 2"),
    Case(
        "malloc 1 16\nstore 1 16 1 a\n",
        "",
        "error 71 BadNumber line 2",
    ),
    Case("free 1\n\nmalloc 1024 1\n", "", "error 70 BadWord line 2"),
    Case("malloc 1024 01\n", "", "error 72 OutOfRange line 1"),
    Case("malloc 01 2147483648\n", "", "error 71 BadNumber line 1"),
    Case("free 1024\nfree 01\n", "", "error 72 OutOfRange line 1"),
    Case("free 01\nfree 1024", "", "error 71 BadNumber line 1"),
    Case("malloc 01 \n", "", "error 70 BadWord line 1"),
    Case("malloc 1 16\r\n", "", "error 71 BadNumber line 1"),
    Case("load 1 0 65\nfree 1", "", "error 72 OutOfRange line 1"),
    Case("store 1 0 1 A0", "", "error 71 BadNumber line 1"),
];

// the same where a class line comes first
const FAULTS_AFTER_A_LINE: &[Case] = &[
    Case("classes 2\nload 1 0\n", "", "error 70 BadWord line 2"),
    Case("classes 2\nmalloc 01 1", "", "error 71 BadNumber line 2"),
    Case(
        "classes 2\nfree 1\nmalloc 1024 1\n",
        "",
        "error 72 OutOfRange line 3",
    ),
    Case(
        "classes 2\naaaaaaaaaaaaaaaaaaaaaaaaaaaaaaaaaaaaaaaaaaaaaaaaaaaaaaaaaaaaaaaaaaaaaaaaaaaaaaaaa",
        "",
        "error 73 LineTooLong line 2",
    ),
];

#[test]
fn faults_of_traces(rt: HostRuntime) -> Result<(), Fail> {
    check(&rt, call!(Profile), FAULTS)?;
    let run = call!(Run, limit: 1);
    check(&rt, run, FAULTS)?;
    check(&rt, call!(Replay), FAULTS_AFTER_A_LINE)
}
