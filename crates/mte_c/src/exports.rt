//! The functions that C calls: a static library, with the commands here, and the calls over arrays and the heap in files of their own. A
//! command takes what `text` holds and its input, as two texts (`has_two_texts`) or as the pieces of one, and leaves the answer in `text`.
//! `library/pointers.c` looks for null pointers and numbers out of range before it calls them, and `include/mte_tool.h` declares that.

ghost use Rattle.std.specs.Prelude.{◌≡◌, ◌⊎◌, ◌++◌, [], drop, false, length, min, true, ◌-◌};
ghost use Rattle.handed_text.specs.Bytes.{bytes_of, filled, is_answer_of};
ghost use Rattle.mte_c.specs.Commands.Ending.{AnswersIfCall};
ghost use Rattle.mte_c.specs.Commands.Settings.{call_numbered};

mod arrays;
mod heap;

use crate::commands::{CallEnd, Ending, command_numbered};
use handed_text::{DONE, HandedText, MISUSE, OUT_OF_MEMORY};
use std::alloc::Global;
use tool_call::{Call, Options};

/// Runs the command of this number (`command_numbered`), which reads those of the options that are its own.
#[unsafe(no_mangle)]
pub extern "C" fn mte_c_call(
    alloc: Global,
    command: u8,
    options: Options,
    input: &[u8],
    text: &mut HandedText,
) -> Ending
    ensures { AnswersIfCall (call_numbered options command) text.old input.now text.new result }
{
    match command_numbered(command) {
        Some(name) => Ending::of(crate::commands::call(
            alloc,
            Call {
                command: name,
                options,
            },
            input,
            text,
        )),
        None => Ending::of(CallEnd::Misuse),
    }
}

/// Appends a piece to a text: the input in pieces. One that holds an answer is refused. Unless it ends with `DONE`, the text stays as it is.
#[unsafe(no_mangle)]
pub extern "C" fn mte_c_append(alloc: Global, piece: &[u8], text: &mut HandedText) -> u32
    ensures refused { is_answer_of text.old ≡ true → result ≡ MISUSE }
    ensures ends { is_answer_of text.old ≡ false → (result ≡ DONE) ⊎ (result ≡ OUT_OF_MEMORY) }
    ensures appended { result ≡ DONE → bytes_of text.new ≡ bytes_of text.old ++ piece.now }
    ensures kept { (result ≡ DONE → ⊥) → bytes_of text.new ≡ bytes_of text.old }
    ensures answer { is_answer_of text.new ≡ is_answer_of text.old }
{
    if text.is_answer(alloc) {
        return MISUSE;
    }
    match text.append(alloc, piece) {
        Ok(()) => DONE,
        Err(_) => OUT_OF_MEMORY,
    }
}

/// Copies the bytes of a text from this place on into the room, as many as there are and as fit. Returns how many.
#[unsafe(no_mangle)]
pub extern "C" fn mte_c_read(
    alloc: Global,
    text: &mut HandedText,
    from: usize,
    room: &mut [u8],
) -> usize
    ensures room { room.new ≡ filled (drop from (bytes_of text.old)) room.old }
    ensures count { result ≡ min (length room.old) (length (bytes_of text.old) - from) }
    ensures kept { bytes_of text.new ≡ bytes_of text.old }
    ensures answer { is_answer_of text.new ≡ is_answer_of text.old }
{
    text.read(alloc, from, room)
}

/// Frees the memory of a text. The empty text is left.
#[unsafe(no_mangle)]
pub extern "C" fn mte_c_free(alloc: Global, text: &mut HandedText)
    ensures bytes { bytes_of text.new ≡ [] }
    ensures input { is_answer_of text.new ≡ false }
{
    text.clear(alloc);
}
