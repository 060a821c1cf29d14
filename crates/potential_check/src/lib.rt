//! Sheets and fits, which show a class table to be a best one: as values, in `certificates`, and as texts; and their checkers, that of fits
//! in `footprints`.
#![tactic(auto)]

mod certificates;
mod checker;
mod cost;
mod draft;
mod edge_walk;
mod fault;
mod footprints;
pub mod laws;
mod leading_sheet;
mod measured_load;
mod on_profile;
mod part;
mod reading;
mod row_conditions;
mod sheet_line;
mod sheet_on_spans;
mod writing;

pub use certificates::{Certificate, Fit, Rows, Sheet, Spans, number_in_row};
pub use cost::{Cost, CostKind, OfFootprint, OfWaste};
pub use fault::SheetError;
pub use footprints::{
    BLOCK, HistorySpans, MOMENTS, OverRefusal, OverVerdict, SpanCosts, WHOLE_SLACK, alike_with,
    check_fit, check_over, lower_slack, moments_in, names_moments, no_bounds, test_rows,
};
pub use leading_sheet::LeadingSheet;
pub use measured_load::RowTests;
pub use on_profile::check;
pub use reading::{read_leading_sheet, read_sheet};
pub use tuner_theory::{Refusal, Verdict};
pub use writing::{ROW_BYTES, append_line, append_table, write_row, write_sheet};
