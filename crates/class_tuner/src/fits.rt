//! The fitter: for a history, a limit and a step, the class table of least footprint with its certificate. Splitting a class can cost
//! more, so the rows are filled place by place, from the last place on, over all ends.
mod ends;
mod history_fit;
mod place;
mod place_filling;
mod timelines;

pub use history_fit::{FitResult, fit};
pub use place_filling::fill_places;
pub use timelines::{FitOutcome, MOST_ROUNDS, TimelineFitResult, fit_over};
