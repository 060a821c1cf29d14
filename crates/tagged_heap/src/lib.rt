//! The heap, hardened with memory tags, after the Primary and the Quarantine of LLVM's Scudo: `malloc`, `calloc`, `free` and `realloc` over
//! one region of tagged memory. The headers, and the links of the class lists and of the quarantine, are words inside the region; no call
//! after `Heap::new` takes memory.
//!
//! Its rules stand in docs/HEAP.md and, as definitions, in `heap_theory`.
#![tactic(auto)]

mod access;
mod allocation;
mod freeing;
mod fresh_slots;
mod heap;
pub mod laws;
mod next_slot;
mod pointers;
mod read_header;
mod resizing;
mod slot_changes;
mod slots;
mod tags;

pub use heap::Heap;
pub use heap_theory::{Config, FreeError, NullCause, PlaceKind, ReallocError};
pub use slots::SlotFacts;
