//! What holds for every run of events. Each law is the contract of a function that does nothing.
//! The proofs of a crate above cite the lemmas that the laws follow from. No body needs to call a law.
pub mod hardening;
pub mod run;
