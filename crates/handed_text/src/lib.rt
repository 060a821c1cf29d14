//! What C holds. A `HandedText` is a structure in C's memory: a pointer to a text of this library, or null, and the text's length.
//! `BoxParts` are the parts of a box, of which a handle is made. The pointers' proofs are those of `parts.rt` and `handle.rt`; what is built
//! on them is ordinary code. Handles to other types take the latter too (`proofs/LawLemmas/Handles.antt`). The constants are the numbers by
//! which C is told how a call ended.
#![tactic(auto)]

mod ends;
mod filling;
mod growth;
mod handle;
mod held_text;
pub mod laws;
mod parts;
mod text;

pub use ends::{BAD_OPTION, DONE, MISUSE, NO, OUT_OF_MEMORY, REFUSED};
pub use growth::{HELD_BYTES, OutOfMemory};
pub use parts::BoxParts;
pub use text::HandedText;
