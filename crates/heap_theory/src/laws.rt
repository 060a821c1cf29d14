//! What holds for the heap's definitions. Each law is the contract of a function that does nothing.
//! The proofs of a crate above cite the lemmas that the laws follow from. No body needs to call a law.
pub mod headers;
pub mod heap;
