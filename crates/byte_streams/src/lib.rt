//! Sources and sinks of bytes, and the two loops that read a whole input and write a whole text. `read_all` passes all bytes of a
//! `ByteSource` to an `Input`, within the limit of an input, and `write_all` writes an `Output` to a `ByteSink`, however few bytes each call
//! moves. A program gives them any source and sink; this crate has a pair over memory and one over the readers and writers of std. Each
//! source and sink keeps a `History` of its calls for the proofs, so the contracts say of every one what was read and written, and what was
//! written when a write fails.
#![tactic(auto)]

mod fault;
mod history;
mod input;
mod memory_streams;
mod output;
mod read_write_streams;
mod streams;
mod transfer;
mod zeros;

pub use fault::ReadError;
pub use history::History;
pub use input::{Input, WholeText};
pub use memory_streams::{MemorySink, MemorySource};
pub use output::{Output, Text};
pub use read_write_streams::{StreamSink, StreamSource};
pub use streams::{ByteSink, ByteSource, Failure};
pub use transfer::{MOST_INPUT, read_all, write_all};
pub use zeros::with_zeros;
