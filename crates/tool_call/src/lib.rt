//! A command of the tool with its options, as one value: what the words of a command line mean, what a caller from C passes, and what an
//! engine is asked for. It stands on no engine and no words, so that all know it.
#![tactic(auto)]

mod call;
mod options;
mod ranges;

pub use call::{COMMANDS, Call, CommandName};
pub use options::{OptionName, Options, options_of};
