//! Callers of the libraries, one for each use, to be copied: docs/LIBRARIES.md says which crates each stands on. The contract of each says
//! what its user gets from the contracts of the libraries.

mod checker;
mod engine;
mod heap;
mod tuner;

pub use checker::is_best;
pub use engine::tuned_sheet;
pub use heap::free_twice;
pub use tuner::{NoTable, least_waste};
