//! The theory of a run: what the events of a trace leave of a heap and of 1,024 variables, the report with its totals, and what hardens the
//! heap over every run (in `specs/`), and the laws of these. It computes nothing.
#![tactic(auto)]

pub mod laws;
