//! The tests, by what they test; `support` has what they share.
mod calls;
mod codes;
mod engines;
mod memory;
mod streams;
mod support;
mod totals;
mod tuner;
