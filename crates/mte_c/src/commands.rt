//! Calls over inputs in memory, for callers that have no source and no sink. The input is what a `HandedText` holds and a slice, two texts
//! or the pieces of one, and the answer takes the place of what the text held. A call returns how it ended. The static library `mte_c` exports
//! them to C.
mod call_end;
mod calls;
mod faults;
mod handing;
mod structures;
mod two_parts;

pub use call_end::CallEnd;
pub use calls::call;
pub use faults::{code_of, line_of};
pub use structures::{Ending, command_numbered};
