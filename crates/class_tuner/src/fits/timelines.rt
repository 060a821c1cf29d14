//! The fitter over timelines: the class table of least footprint over every moment of a recorded run. It is fitted over some moments, to
//! which those are added at which it takes more, until it takes no more over the whole timeline.
mod moments;
mod round;
mod timeline_fit;

pub use timeline_fit::{FitOutcome, MOST_ROUNDS, TimelineFitResult, fit_over};
