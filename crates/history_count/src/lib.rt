//! Histories: how many blocks of each size were live at each of some snapshots; and timelines: the requests and frees of a run in their
//! order, by size alone. They are read from texts; and what a class table takes of memory over one.
#![tactic(auto)]

mod class_sums;
mod counted_lines;
mod fault;
mod footprint;
mod history;
mod history_reading;
pub mod laws;
mod line;
mod line_sink;
mod of_rows;
mod timelines;

pub use class_sums::TableFootprint;
pub use fault::{HistoryError, HistoryFault};
pub use footprint::{blocks_between, line_from};
pub use history::{History, Lines};
pub use history_reading::footprint_of_text;
pub use timelines::{
    Footprint, MeasuredTable, TIMELINE, TablePeaks, Timeline, TimelineError, TimelineFault,
    TimelineIndex, TimelineReader, measure_over, table_peaks,
};
pub use tuner_theory::MOST_SNAPSHOTS;
