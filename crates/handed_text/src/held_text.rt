//! What a handle leads to.

/// A text in memory.
#[derive(Drop)]
pub struct HeldText {
    /// Its bytes.
    pub text: Vec<u8>,
    /// Whether a call left them, as its answer.
    pub is_answer: bool,
}
