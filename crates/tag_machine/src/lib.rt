//! The modelled machine: memory with tags, the eight tag instructions, and loads and stores that check the tags first.
//!
//! Its rules stand in docs/MACHINE.md and, as definitions, in `machine_theory`.
#![tactic(auto)]

mod addresses;
mod checks;
mod chosen_tags;
mod draws;
mod machine;
mod mask_bits;
mod tag_choice;

pub use addresses::{logical_tag, place_of, with_tag};
pub use machine::Machine;
pub use machine_theory::laws::tags::law_choose_tag;
pub use machine_theory::{Fault, GRANULE_BYTES, REGION_START};
