//! A text that C holds.
ghost use Rattle.std.specs.Prelude.{◌≡◌, ◌++◌, ◌<◌, IfErr, OnErr, OnOk, length, vec_len};
ghost use Rattle.std.specs.Option.{ForNone, ForSome};

use crate::filling::fill;
use crate::growth::{OutOfMemory, box_text, reserve};
use crate::handle::Handle;
use crate::held_text::HeldText;
use crate::parts::BoxParts;
use std::alloc::Global;

/// A text with its length. All zeros is the empty text, which holds no memory. Dropping a text frees nothing: `clear` does.
#[repr(C)]
#[derive(Drop)]
pub struct HandedText {
    handle: Handle,
    length: usize,
    ghost long: { ForSome handle.held (λ held. (length ≡ vec_len held.text) × (0 < length)) },
    ghost empty: { ForNone handle.held (length ≡ 0) },
}

impl HandedText {
    ghost use Rattle.std.specs.Prelude.{None, [], drop, max, min, ◌-◌, ◌≤◌, false};
    ghost use Rattle.handed_text.specs.declared.growth.TheConstants.{HELD_BYTES};
    ghost use Rattle.handed_text.specs.Bytes.{IsLeft, bytes_of, filled, is_answer_of};

    /// The empty text.
    pub fn new() -> HandedText
        ensures { bytes_of result ≡ [] }
    {
        HandedText {
            handle: Handle::empty(),
            length: 0,
        }
    }

    /// Whether its bytes are the answer of a call.
    pub fn is_answer(&mut self, alloc: Global) -> bool
        ensures answer { result ≡ is_answer_of self.old }
        ensures bytes { bytes_of self.new ≡ bytes_of self.old }
        ensures kept { is_answer_of self.new ≡ is_answer_of self.old }
    {
        if self.length == 0 {
            return false;
        }
        let held = self.open(alloc);
        let is_answer = held.is_answer;
        self.close(held);
        is_answer
    }

    /// Its bytes. The empty text is left.
    pub fn take(&mut self, alloc: Global) -> Vec<u8>
        ensures bytes { result.items ≡ bytes_of self.old }
        ensures left { bytes_of self.new ≡ [] }
        ensures input { is_answer_of self.new ≡ false }
    {
        if self.length == 0 {
            return Vec::new(alloc);
        }
        let HeldText { text, is_answer: _ } = Box::into_inner(self.open(alloc));
        text
    }

    /// Takes these bytes, the answer of a call, in place of its own, whose memory it frees. If memory runs out, the empty text is left.
    pub fn put(&mut self, alloc: Global, text: Vec<u8>) -> Result<(), OutOfMemory>
        ensures put { OnOk result (bytes_of self.new ≡ text.items) }
        ensures empty { OnErr result (bytes_of self.new ≡ []) }
        ensures refused { IfErr result (λ bytes. bytes ≡ HELD_BYTES) }
        ensures left { IsLeft self.new }
    {
        self.clear(alloc);
        if !text.is_empty() {
            let answer = HeldText {
                text,
                is_answer: true,
            };
            self.close(box_text(alloc, answer)?);
        }
        Ok(())
    }

    /// Appends these bytes to an input. If memory runs out, the text stays as it is.
    pub fn append(&mut self, alloc: Global, piece: &[u8]) -> Result<(), OutOfMemory>
        requires { is_answer_of self.old ≡ false }
        ensures appended { OnOk result (bytes_of self.new ≡ bytes_of self.old ++ piece.now) }
        ensures kept { OnErr result (bytes_of self.new ≡ bytes_of self.old) }
        ensures refused { IfErr result (λ bytes. bytes ≤ max (length piece.now) HELD_BYTES) }
        ensures input { is_answer_of self.new ≡ false }
    {
        if self.length == 0 {
            let mut text = Vec::new(alloc);
            extend(&mut text, piece)?;
            return self.begin(alloc, text);
        }
        let mut held = self.open(alloc);
        let extended = extend(&mut held.text, piece);
        self.close(held);
        extended
    }

    /// Fills the room with the bytes from this place on, as many as there are and as fit. Returns how many.
    pub fn read(&mut self, alloc: Global, from: usize, room: &mut [u8]) -> usize
        ensures room { room.new ≡ filled (drop from (bytes_of self.old)) room.old }
        ensures count { result ≡ min (length room.old) (length (bytes_of self.old) - from) }
        ensures kept { bytes_of self.new ≡ bytes_of self.old }
        ensures answer { is_answer_of self.new ≡ is_answer_of self.old }
    {
        if self.length <= from {
            return 0;
        }
        let held = self.open(alloc);
        let n = fill(&held.text[from..], room);
        self.close(held);
        n
    }

    /// Frees its memory. The empty text is left.
    pub fn clear(&mut self, alloc: Global)
        ensures bytes { bytes_of self.new ≡ [] }
        ensures input { is_answer_of self.new ≡ false }
    {
        let _bytes = self.take(alloc);
    }

    // the first bytes of an input, put into the empty text
    fn begin(&mut self, alloc: Global, text: Vec<u8>) -> Result<(), OutOfMemory>
        requires { self.old.length ≡ 0 }
        ensures put { OnOk result (bytes_of self.new ≡ text.items) }
        ensures empty { OnErr result (bytes_of self.new ≡ []) }
        ensures refused { IfErr result (λ bytes. bytes ≡ HELD_BYTES) }
        ensures input { is_answer_of self.new ≡ false }
    {
        if !text.is_empty() {
            let held = HeldText {
                text,
                is_answer: false,
            };
            self.close(box_text(alloc, held)?);
        }
        Ok(())
    }

    // the box of a text that is not empty; the empty text is left
    fn open(&mut self, alloc: Global) -> Box<HeldText>
        requires { 0 < self.old.length }
        ensures bytes { result.value.text.items ≡ bytes_of self.old }
        ensures answer { result.value.is_answer ≡ is_answer_of self.old }
        ensures some { 0 < vec_len result.value.text }
        ensures left { self.new.handle.held ≡ None }
    {
        let HandedText { handle, length: _ } = std::mem::replace(self, HandedText::new());
        handle.into_parts(alloc).into_box()
    }

    // puts a box into the empty text
    fn close(&mut self, held: Box<HeldText>)
        requires empty { self.old.handle.held ≡ None }
        requires some { 0 < vec_len held.value.text }
        ensures bytes { bytes_of self.new ≡ held.value.text.items }
        ensures answer { is_answer_of self.new ≡ held.value.is_answer }
    {
        let length = held.text.len();
        *self = HandedText {
            handle: Handle::of_parts(BoxParts::of(held)),
            length,
        };
    }
}

// appends the piece to the text, which stays as it is if memory runs out
fn extend(text: &mut Vec<u8>, piece: &[u8]) -> Result<(), OutOfMemory>
    ensures extended { OnOk result (text.new.items ≡ text.old.items ++ piece.now) }
    ensures kept { OnErr result (text.new.items ≡ text.old.items) }
    ensures asked { IfErr result (λ bytes. bytes ≡ length piece.now) }
{
    reserve(text, piece.len())?;
    // with room there, this call does not fail
    let _ = text.extend_from_slice(piece);
    Ok(())
}
