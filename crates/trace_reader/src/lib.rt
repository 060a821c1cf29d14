//! Traces: the events that the lines of a text spell, read from the text in pieces of any size.
#![tactic(auto)]

mod batch;
mod event_queue;
mod events;
mod fault;
mod hex_values;
mod kept_event;
pub mod laws;
mod line;
mod observer;
mod one_pass;
mod reader;
mod status;
mod words;

pub use events::Events;
pub use fault::{TraceError, TraceFault};
pub use observer::{NoObserver, Observer};
pub use reader::TraceReader;
pub use trace_event::Event;
