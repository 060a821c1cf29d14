//! What holds for the machine's definitions. Each law is the contract of a function that does nothing.

pub mod access;
pub mod addresses;
pub mod seed;
pub mod tags;
