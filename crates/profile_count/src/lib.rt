//! Profiles: how often each size was requested. They are counted request by request or read from a text, and written; and what a class
//! table wastes on one.
#![tactic(auto)]

mod counted_sizes;
mod entry;
mod fault;
pub mod laws;
mod profile;
mod reading;
mod waste_and_unserved;
mod writing;

pub use entry::{LARGE, two_words};
pub use fault::{CountFull, ProfileError, ProfileFault};
pub use profile::{Profile, no_counts};
pub use tuner_theory::GREATEST_COUNT;
pub use waste_and_unserved::class_end;
