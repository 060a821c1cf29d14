//! The quarantine: freed slots that are held back from reuse, in a queue that is linked through the slots' own headers. The slot that was
//! freed first leaves first.
#![tactic(auto)]

pub mod laws;
mod quarantine;

pub use quarantine::Quarantine;
