//! What the tests share.
ghost use Rattle.heap_theory.specs.Config.{IsConfig};

use std::fmt::Debug;
use std::process::Abort;
use tagged_heap::Config;

/// Fails if the two values differ, with a message that has both and names the case. The proof of a test costs a second for each
/// `assert_eq!` in its body, and next to nothing for a call of this function.
pub fn same<T: PartialEq + Debug, C: Debug>(rt: &impl Abort, given: &T, wanted: &T, case: &C) {
    assert_eq!(rt; *given, *wanted, "{case:?}");
}

/// The configuration of a heap of 64 granules with the seed 1. It aborts if the quarantine is out of range.
pub fn config(rt: &impl Abort, quarantine: u32) -> Config
    ensures { IsConfig result }
{
    assert!(rt; quarantine <= Config::MOST_QUARANTINE);
    Config {
        granules: 64,
        seed: 1,
        quarantine,
    }
}
