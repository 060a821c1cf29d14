//! What the hardened heap takes of its region, tied to the footprint of its table: definitions (in `specs/`), and their laws. It computes
//! nothing.
#![tactic(auto)]

pub mod laws;
