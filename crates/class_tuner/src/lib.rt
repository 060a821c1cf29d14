//! The tuner and the fitter: for a limit and a step, the class table of least waste for a profile, or in `fits` of least footprint for a
//! history or a timeline, with its certificate. The tuner fills the rows of the certificate by halving, over a source of costs that counts
//! its calls.
#![tactic(auto)]

mod cost_source;
mod costs;
mod fits;
mod halving;
pub mod laws;
mod read_off;
mod row_filling;
mod tuner_result;
mod tuning;

pub use cost_source::CostSource;
pub use costs::Costs;
pub use fits::{FitOutcome, FitResult, MOST_ROUNDS, TimelineFitResult, fill_places, fit, fit_over};
pub use row_filling::{FilledRows, fill_rows};
pub use tuner_result::TunerResult;
pub use tuning::{TuneResult, tune};
