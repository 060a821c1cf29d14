//! The lists of released slots, one for each class, linked through the headers of their slots: the slot freed last is first.
#![tactic(auto)]

pub mod laws;
mod lists;

pub use lists::ClassLists;
