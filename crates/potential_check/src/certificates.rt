//! Certificates as values: the spans of a profile and their wastes, and the certificate that shows a class table to be a best one by a cost.
mod certificate;
mod rows;
mod spans;

pub use certificate::{Certificate, Fit, Sheet};
pub use rows::{Rows, number_in_row};
pub use spans::Spans;
