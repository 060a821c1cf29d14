//! Tests of the engines, from text to text: worked values, and calls that fail in the middle of an input or an output.
mod borders_and_claims;
mod check_texts;
mod fit_texts;
mod long_traces;
mod pieces;
mod profile_texts;
mod replay_texts;
mod run_texts;
pub mod score_texts;
mod streams_failing;
mod support;
mod timeline_texts;
mod trace_faults;
mod tune_texts;
mod two_texts;
pub mod worked_replays;
