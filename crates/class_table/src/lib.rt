//! Size classes: the class of a request, tables of classes, the text line that spells a table, and where the slots of a region lie.
#![tactic(auto)]

mod class_line;
mod counts;
mod fault;
pub mod laws;
mod layout;
mod sizes;
mod table;

pub use class_line::LINE_BYTES;
pub use fault::TableError;
pub use layout::{FEWEST_GRANULES, Layout, MOST_GRANULES, MOST_SLOTS, Slot};
pub use sizes::{
    GRANULE_BYTES, LARGEST_CLASS, LARGEST_COUNTED, MOST_NEEDS, SMALLEST_CLASS, is_step, loss, need,
    round_up, serves,
};
pub use table::{ClassTable, MOST_CLASSES};
