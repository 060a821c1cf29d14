//! The checker of fits over timelines: whether no table takes less, over every moment of a recorded run.
mod checker;
mod moments_line;
mod verdict;

pub use checker::check_over;
pub use moments_line::{MOMENTS, moments_in, names_moments};
pub use verdict::{OverRefusal, OverVerdict};
