//! The events of a trace, and the ranges of their numbers (in `specs/`). It computes nothing.
#![tactic(auto)]

mod event;

pub use event::Event;
