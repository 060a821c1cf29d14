//! The theory of a machine with memory tags: what addresses, tag choice, the seed register, granules, checked accesses and
//! the tag instructions are (in `specs/`), and their laws. Its one type is `Fault`, its constants are sizes and ranges, and it
//! computes nothing.
#![tactic(auto)]

mod fault;
pub mod laws;
mod sizes;

pub use fault::Fault;
pub use sizes::{
    FARTHEST_MOVE, FEWEST_GRANULES, GRANULE_BYTES, LARGEST_TAG_STEP, LONGEST_ACCESS, MOST_GRANULES,
    REGION_START,
};
