//! Tagged memory in one region of raw bytes: granules of sixteen bytes, each with an Allocation Tag of four bits, as in the
//! Arm ARM (DDI 0487), Memory Tagging Extension. The number of granules and their layout are this project's own.
#![tactic(auto)]

mod memory;

pub use memory::Memory;
