//! Taking the first part of an input out of the text that the caller gave, and handing an answer out to it.
ghost use Rattle.std.specs.Prelude.{◌≡◌, ◌-◌, ◌^◌, [], None, false, true};
ghost use Rattle.std.specs.Option.{ForNone, ForSome};
ghost use Rattle.handed_text.specs.Bytes.{IsLeft, bytes_of, is_answer_of};
ghost use Rattle.mte_c.specs.Commands.Answered.{EndsWith, HandsOut};

use crate::commands::call_end::CallEnd;
use handed_text::HandedText;
use mte_engine::{History, MemorySink, Status, ToolFault};
use std::alloc::{AllocError, Global};

/// The bytes of the text, with which an input begins; the empty text is left. `None` and the text as it was if it holds an answer.
pub fn take_input(alloc: Global, text: &mut HandedText) -> Option<Vec<u8>>
    ensures taken { ForSome result (λ first. first.items ≡ bytes_of text.old) }
    ensures input { ForSome result (λ _. is_answer_of text.old ≡ false) }
    ensures left { ForSome result (λ _. bytes_of text.new ≡ []) }
    ensures answer { ForNone result (is_answer_of text.old ≡ true) }
    ensures bytes { ForNone result (bytes_of text.new ≡ bytes_of text.old) }
    ensures kept { ForNone result (is_answer_of text.new ≡ true) }
{
    if text.is_answer(alloc) {
        return None;
    }
    Some(text.take(alloc))
}

/// A sink that has taken nothing, and fails only if the allocator refuses memory.
pub fn new_sink(alloc: Global) -> MemorySink
    ensures text { result.text.items ≡ [] }
    ensures most { result.most ≡ 2 ^ 64 - 1 }
    ensures never { result.until_failure ≡ None }
{
    MemorySink {
        text: Vec::new(alloc),
        writes: History::new(),
        most: usize::MAX,
        until_failure: None,
    }
}

/// Puts the text of an engine's result into `text`: what it wrote, or the text of the input's fault. A write fails only if memory runs out,
/// and no read fails.
pub fn hand_out(
    alloc: Global,
    end: Result<Status, ToolFault>,
    written: Vec<u8>,
    text: &mut HandedText,
) -> CallEnd
    ensures answer { HandsOut end written.items result (bytes_of text.new) }
    ensures left { IsLeft text.new }
{
    match end {
        Ok(Status::Done) => end_with_text(alloc, CallEnd::Done, written, text),
        Ok(Status::No) => end_with_text(alloc, CallEnd::No, written, text),
        Err(ToolFault::Input(fault)) => match format!(in alloc; "{fault}") {
            Ok(shown) => end_with_text(alloc, CallEnd::Refused(fault), shown.into_bytes(), text),
            Err(AllocError) => out_of_memory(alloc, text),
        },
        Err(_) => out_of_memory(alloc, text),
    }
}

// this end with this text, unless memory runs out
fn end_with_text(alloc: Global, ended: CallEnd, written: Vec<u8>, text: &mut HandedText) -> CallEnd
    ensures text { EndsWith ended written.items result (bytes_of text.new) }
    ensures left { IsLeft text.new }
{
    match text.put(alloc, written) {
        Ok(()) => ended,
        Err(_) => CallEnd::OutOfMemory,
    }
}

fn out_of_memory(alloc: Global, text: &mut HandedText) -> CallEnd
    ensures end { result ≡ CallEnd.OutOfMemory }
    ensures text { bytes_of text.new ≡ [] }
{
    text.clear(alloc);
    CallEnd::OutOfMemory
}
