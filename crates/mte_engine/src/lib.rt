//! The engines of the tool, each from a source of bytes to a sink of bytes: `score`, `tune` and `check` over profiles, `footprint`, `fit`
//! and `check_fit` over histories and timelines, `peaks` over timelines, `profile`, `replay` and `run` over traces. A program gives an
//! engine any `ByteSource` and `ByteSink`; `byte_streams`, of which this crate hands on what a caller needs, has a pair over memory and one
//! over the readers and writers of std. The contracts say that an engine writes the answer to the bytes that the source gave, and what it
//! has written when a write fails; when a failed read and a failed write are reported; and that after every fault but that of a write the
//! sink is unchanged.
#![tactic(auto)]

mod border;
mod call;
mod checking;
mod counts_input;
mod engine;
mod fault;
mod fit_checking;
mod fit_checking_over;
mod fit_engine;
mod input_parts;
pub mod laws;
mod leading_fit;
mod leading_fit_input;
mod line_and_counts;
mod measuring;
mod peaking;
mod profiling;
mod replaying;
mod report;
mod running;
mod scoring;
mod sheet_writing;
mod table_command;
mod timeline_fit_text;
mod timeline_footprint;
mod timeline_search;
mod trace_counting;
mod trace_feeding;
mod tuning;
mod two_texts;
mod verdict_text;

pub use byte_streams::{
    ByteSink, ByteSource, Failure, History, MOST_INPUT, MemorySink, MemorySource, StreamSink,
    StreamSource,
};
pub use call::{run_call, run_call_on};
pub use checking::{check, verdict_of};
pub use engine::Status;
pub use fault::{InputFault, ToolFault, fault_line};
pub use fit_checking::check_fit;
pub use fit_engine::fit;
pub use measuring::footprint;
pub use peaking::peaks;
pub use profiling::profile;
pub use replaying::replay;
pub use running::run;
pub use scoring::{TableScore, score, score_of};
pub use tool_call::{Call, CommandName, Options};
pub use tuning::{tune, tune_of};
