//! `profile` from text to text.
use super::pieces::{Case, check};
use crate::tests::calls::call;
use mte_engine::Call;
use std::test::Fail;

const PROFILES_OF_TRACES: &[Case] = &[
    Case(
        "malloc 1 16368\ncalloc 2 16369\n",
        "16368 1\nlarge 1\n",
        "done",
    ),
    Case("", "", "done"),
    Case("free 0\n", "", "done"),
    Case("malloc 1 0", "0 1\n", "done"),
    Case(
        "malloc 1 5\nstore 1 0 4 ab\nload 1 16 1\nrealloc 1 32\nload 1 16 1\naddg 2 1 0 0\nrealloc 1 33\nload 1 0 6\n\
                 load 2 0 1\nrealloc 2 8\nrealloc 1 65\nload 1 32 1\nrealloc 1 3\nload 1 0 4\nrealloc 3 16\nload 3 0 1\n",
        "3 1\n5 1\n8 1\n16 1\n32 1\n33 1\n65 1\n",
        "done",
    ),
];

#[test]
fn profiles_of_traces(rt: HostRuntime) -> Result<(), Fail> {
    check(&rt, call!(Profile), PROFILES_OF_TRACES)
}
