//! The checker of fits: what the classes of a table take over a history, and the conditions on the rows that show that no table takes less;
//! and over a timeline, at every moment of a run.
mod history_spans;
mod on_history;
mod row_tests;
mod slack;
mod snapshot_sums;
mod span_costs;
mod timelines;

pub use history_spans::HistorySpans;
pub use on_history::check_fit;
pub use row_tests::{alike_with, test_rows};
pub use slack::{BLOCK, WHOLE_SLACK, lower_slack, no_bounds};
pub use span_costs::SpanCosts;
pub use timelines::{MOMENTS, OverRefusal, OverVerdict, check_over, moments_in, names_moments};
