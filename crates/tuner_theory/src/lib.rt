//! The theory of size-class tables: what a table wastes on a profile and takes of memory over a history, which tables waste or take least,
//! the certificates that show it, and the rows from which such a table is read off. Definitions, and laws that are contracts of functions
//! that do nothing.
#![tactic(auto)]

pub mod footprint_laws;
mod greatest_count;
pub mod laws;
mod most_snapshots;
mod size_event;
pub mod timeline_laws;
mod verdict;
pub mod window_laws;

pub use greatest_count::GREATEST_COUNT;
pub use most_snapshots::MOST_SNAPSHOTS;
pub use size_event::SizeEvent;
pub use verdict::{FitRefusal, Refusal, Verdict};
