//! Tests of the memory, the machine, the heap, traces and the replay: worked values, and each call once. The crate has tests alone.
#![tactic(auto)]

#[cfg(test)]
mod tests;
