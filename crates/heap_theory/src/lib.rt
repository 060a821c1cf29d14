//! The theory of the hardened heap: its state and calls, header words and the lists linked through them, and what its tags keep apart (in
//! `specs/`), and their laws. Its types are how a heap is set up, and the heap's results. It computes nothing.
#![tactic(auto)]

mod config;
pub mod laws;
mod place_kind;
mod refusal;

pub use config::Config;
pub use place_kind::PlaceKind;
pub use refusal::{FreeError, NullCause, ReallocError};
