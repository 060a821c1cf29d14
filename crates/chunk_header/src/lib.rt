//! The headers of slots: a slot's state, size, tag, class, link and mark, as two words in its first granule.
#![tactic(auto)]

mod header;
mod slot_links;
mod stored_header;
mod words;

pub use header::{Header, State};
pub use slot_links::{link, set_link, set_link_at, unlink};
pub use stored_header::{class_in, is_header, read, set_freed, set_quarantined, write};
