//! Tests of the engines, from text to text and over streams that fail; of the tuner and the checker and what is below them; and of each call
//! that takes memory. And callers of the libraries, to be copied.
#![tactic(auto)]

mod callers;
#[cfg(test)]
mod tests;

pub use callers::{NoTable, free_twice, is_best, least_waste, tuned_sheet};
