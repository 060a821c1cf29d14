//! One block of memory, reached through one raw pointer, that its owner reads and writes as a list of bytes.
#![tactic(auto)]

mod region;
mod short_fill;
mod zeros;

pub use region::RawRegion;
