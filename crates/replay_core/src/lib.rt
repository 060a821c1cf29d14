//! The replay of a trace on the hardened heap: events over 1,024 variables, one after the other, each with its line of the report, and the
//! totals over all of them.
//!
//! The rules stand in docs/HEAP.md and, as definitions, in `replay_theory`.
#![tactic(auto)]

mod access;
mod answer;
mod append;
mod event_fields;
mod event_numbers;
pub mod laws;
mod perform;
mod put;
mod replay;
mod report_line;
mod totals;

pub use event_fields::{is_in_range, request_size};
pub use replay::{LINE_ROOM, Replay};
pub use tagged_heap::Config;
pub use totals::{TOTALS_ROOM, Totals};
pub use trace_event::Event;
