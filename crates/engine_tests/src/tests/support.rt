//! What the tests share.
use mte_engine::{Status, ToolFault};
use replay_core::Config;
use std::alloc::{AllocError, Global};
use std::fmt::Debug;
use std::process::Abort;

/// A heap of 64 granules with the seed 1 and no quarantine.
pub const HEAP: Config = Config {
    granules: 64,
    seed: 1,
    quarantine: 0,
};

/// Fails if the two values differ, with a message that has both and names the case. The proof of a test costs a second for each
/// `assert_eq!` in its body, and next to nothing for a call of this function.
pub fn same<T: PartialEq + Debug, C: Debug>(rt: &impl Abort, given: &T, wanted: &T, case: &C) {
    assert_eq!(rt; *given, *wanted, "{case:?}");
}

/// How an engine ended: `done`, `no`, or the fault as the program prints it.
pub fn end_text(alloc: Global, end: Result<Status, ToolFault>) -> Result<String, AllocError> {
    match end {
        Ok(Status::Done) => String::from_str(alloc, "done"),
        Ok(Status::No) => String::from_str(alloc, "no"),
        Err(fault) => format!(in alloc; "error {fault}"),
    }
}
