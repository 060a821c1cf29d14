//! The heap for callers that hold it by a handle, as those of C do: for whoever tests an allocator against the model. A call on a handle
//! without a heap does nothing, and says so.
mod access;
mod calls;
mod freeing;
mod granules;
mod handed_heap;
mod handle;
mod held_heap;
mod outcome;
mod settings;

pub use calls::{addg, calloc, close, free, granule, load, malloc, new, realloc, store};
pub use handed_heap::HandedHeap;
pub use outcome::Outcome;
pub use settings::Settings;
