//! `replay` from text to text.
use super::pieces::{Case, check};
use super::worked_replays::{QUARANTINES, REALLOCS, TABLES, TAILS_AND_BYTES};
use crate::tests::calls::call;
use mte_engine::Call;
use std::test::Fail;

const REFUSALS: &[Case] = &[
    Case("", "", "error 23 BadLine line 1"),
    Case("\n", "", "error 23 BadLine line 1"),
    Case(
        "classes 2 2\nload 1 0\n",
        "",
        "error 22 NotAscending line 1",
    ),
    Case("load 1 0\nclasses 2 2\n", "", "error 23 BadLine line 1"),
];

#[test]
fn replays(rt: HostRuntime) -> Result<(), Fail> {
    let unquarantined = call!(Replay);
    check(&rt, unquarantined, TABLES)?;
    check(&rt, unquarantined, REFUSALS)?;
    check(&rt, unquarantined, TAILS_AND_BYTES)?;
    check(&rt, unquarantined, REALLOCS)?;
    check(&rt, call!(Replay, quarantine: 64), QUARANTINES)
}
