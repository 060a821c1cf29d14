//! The words of the command line of `mte_tool`, and the call that they mean. It stands on no engine, so that the words are proved beside the
//! engines.
#![tactic(auto)]

mod call;
mod commands;
mod option_table;
mod options;
mod refusal;
mod words;

pub use refusal::{OptionFault, Refusal};
pub use words::{no_text, read_call};
