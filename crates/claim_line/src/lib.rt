//! What a verdict `optimal` shows, as a value and as a line: what the table costs, of which tables none costs less, and what was counted.
#![tactic(auto)]

mod claim;
mod requests;

pub use claim::{
    Claim, InputCount, claim_on_profile, claim_over_history, claim_over_timeline, text_of_claim,
};
pub use requests::Requests;
