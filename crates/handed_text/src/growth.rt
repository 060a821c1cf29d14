//! Growths of memory, and the witness of one that was refused.
ghost use Rattle.std.specs.Prelude.{◌≡◌, ◌+◌, ◌≤◌, ℕ, IfErr, IfOk, OnOk, vec_capacity, vec_len};

use crate::held_text::HeldText;
use std::alloc::{AllocError, Global};
use std::marker::Model;
use std::mem::size_of;

/// The bytes of a block for a `HeldText`.
pub const HELD_BYTES: usize = 32;

/// A growth that the allocator refused. Contracts see it as the number of bytes that it asked for. No contract says when an allocator
/// refuses: that each of these stands for a refusal rests on the two functions below, which alone make one.
#[derive(Debug, Drop)]
pub struct OutOfMemory {
    bytes: usize,
}

impl Model for OutOfMemory {
    ghost Value = { ℕ };

    ghost view = { λ refused. refused.bytes };
}

impl From<OutOfMemory> for AllocError {
    fn from(_refused: OutOfMemory) -> AllocError {
        AllocError
    }
}

/// Makes room for `more` bytes after those of the text.
pub(crate) fn reserve(text: &mut Vec<u8>, more: usize) -> Result<(), OutOfMemory>
    ensures items { text.new.items ≡ text.old.items }
    ensures len { vec_len text.new ≡ vec_len text.old }
    ensures room { OnOk result (vec_len text.new + more ≤ vec_capacity text.new) }
    ensures asked { IfErr result (λ bytes. bytes ≡ more) }
{
    match text.reserve(more) {
        Ok(()) => Ok(()),
        Err(AllocError) => Err(OutOfMemory { bytes: more }),
    }
}

/// A block with this value.
pub(crate) fn box_text(alloc: Global, held: HeldText) -> Result<Box<HeldText>, OutOfMemory>
    ensures value { IfOk result (λ block. block.value ≡ held) }
    ensures asked { IfErr result (λ bytes. bytes ≡ HELD_BYTES) }
{
    match Box::new(alloc, held) {
        Ok(block) => Ok(block),
        Err(_) => Err(OutOfMemory {
            bytes: size_of::<HeldText>(),
        }),
    }
}
