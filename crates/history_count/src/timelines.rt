//! Timelines: the requests and frees of a run in their order, by size alone. They are read from a text; and what a class table takes of
//! memory over all moments of one.
mod counting;
mod fault;
mod footprint;
mod index;
mod largest;
mod line;
mod live;
mod peaks;
mod reader;
mod requested_sizes;
mod stretches;
mod sums;
mod taking;
mod timeline;
mod timeline_reading;

pub use fault::{TimelineError, TimelineFault};
pub use footprint::{Footprint, MeasuredTable, measure_over};
pub use index::TimelineIndex;
pub use line::TIMELINE;
pub use reader::TimelineReader;
pub use sums::{TablePeaks, table_peaks};
pub use timeline::Timeline;
