//! `score`, `tune` and `check` over arrays, for callers that have no text, as those of C. A profile is sizes, ascending, and the count of
//! each; a table is its classes; the rows of a certificate follow one another.
mod checking;
mod codes;
mod counting;
mod fault;
mod numbers;
mod rows;
mod scoring;
mod tuning;

pub use checking::check;
pub use fault::ArrayError;
pub use numbers::Numbers;
pub use scoring::score;
pub use tuning::{TunedNumbers, tune};
