//! What is kept of an input while it is read.
ghost use Rattle.std.specs.Prelude.{◌≡◌, ◌++◌, [], List, ℕ, OnOk};

use std::alloc::{AllocError, Global};

// the bytes that are moved at a time
const BLOCK: usize = 1_024;

/// Takes the bytes of an input, in pieces of any size. It keeps a fault of the text until it has taken the whole input.
pub trait Input: Drop {
    // These are the bytes that it took so far, in whatever pieces.
    ghost has_taken: { Self → List ℕ → Type 0 };

    /// Takes the next piece. The only error is that the allocator refuses memory.
    fn take(&mut self, piece: &[u8]) -> Result<(), AllocError>
        ensures { OnOk result ((bytes : List ℕ) → has_taken self.old bytes → has_taken self.new (bytes ++ piece.now)) };
}

/// The whole text of an input.
#[derive(Debug, Drop)]
pub struct WholeText {
    /// The bytes taken so far.
    pub text: Vec<u8>,
}

impl WholeText {
    /// No bytes yet.
    pub fn new(alloc: Global) -> WholeText
        ensures { result.text.items ≡ [] }
    {
        WholeText {
            text: Vec::new(alloc),
        }
    }
}

impl Input for WholeText {
    ghost has_taken = { λ input bytes. input.text.items ≡ bytes };

    fn take(&mut self, piece: &[u8]) -> Result<(), AllocError> {
        append(&mut self.text, piece)
    }
}

// Appends a piece to a text, block by block. The C library moves a longer one by a string instruction, in the same time; but callgrind
// counts that for each byte.
fn append(text: &mut Vec<u8>, piece: &[u8]) -> Result<(), AllocError>
    ensures { OnOk result (text.new.items ≡ text.old.items ++ piece.now) }
{
    text.reserve(piece.len())?;
    let mut rest = piece;
    while !rest.is_empty() {
        let (block, later) = rest.split_at(rest.len().min(BLOCK));
        text.extend_from_slice(block)?;
        rest = later;
    }
    Ok(())
}
