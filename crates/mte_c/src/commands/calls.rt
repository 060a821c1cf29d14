//! A call over an input in memory.
ghost use Rattle.std.specs.Prelude.{◌≡◌, ◌++◌, true};
ghost use Rattle.handed_text.specs.Bytes.{IsLeft, bytes_of};
ghost use Rattle.mte_c.specs.Commands.Answered.{IsAnswered, IsAnsweredIf, IsAnsweredTo, IsCalled};
ghost use Rattle.mte_engine.specs.Calls.{answers_of, answers_on};
ghost use Rattle.tool_call.specs.Options.{IsValid, has_two_texts};

use crate::commands::call_end::CallEnd;
use crate::commands::handing::{hand_out, new_sink, take_input};
use crate::commands::two_parts::TwoParts;
use handed_text::HandedText;
use mte_engine::{Call, run_call, run_call_on};
use std::alloc::Global;

/// Runs the engine of a call on what the text holds and on `input`, and leaves the answer in the text. If the call's input is two texts,
/// these are the two; else they are the pieces of one. The end is `Misuse`, and the text stays as it is, if it holds an answer; else
/// `BadOption` if an option is out of its range.
pub fn call(alloc: Global, call: Call, input: &[u8], text: &mut HandedText) -> CallEnd
    ensures { IsCalled text.old text.new result (IsAnsweredIf (IsValid call)
        (IsAnsweredTo call (bytes_of text.old) input.now result (bytes_of text.new)) result (bytes_of text.new)) }
{
    let Some(first) = take_input(alloc, text) else {
        return CallEnd::Misuse;
    };
    if !call.is_valid() {
        return CallEnd::BadOption;
    }
    if call.command.has_two_texts() {
        return call_texts(alloc, call, first, input, text);
    }
    call_parts(alloc, call, first, input, text)
}

// a call on two texts
fn call_texts(
    alloc: Global,
    call: Call,
    first: Vec<u8>,
    input: &[u8],
    text: &mut HandedText,
) -> CallEnd
    requires valid { IsValid call }
    requires two { has_two_texts call.command ≡ true }
    ensures answer { IsAnswered (answers_on call first.items) input.now result (bytes_of text.new) }
    ensures left { IsLeft text.new }
{
    let mut source = TwoParts::new(input, &[]);
    let mut sink = new_sink(alloc);
    let end = run_call_on(call, alloc, &first, &mut source, &mut sink);
    hand_out(alloc, end, sink.text, text)
}

// a call on an input in two parts
fn call_parts(
    alloc: Global,
    call: Call,
    first: Vec<u8>,
    input: &[u8],
    text: &mut HandedText,
) -> CallEnd
    requires { IsValid call }
    ensures answer { IsAnswered (answers_of call) (first.items ++ input.now) result (bytes_of text.new) }
    ensures left { IsLeft text.new }
{
    let mut source = TwoParts::new(&first, input);
    let mut sink = new_sink(alloc);
    let end = run_call(call, alloc, &mut source, &mut sink);
    hand_out(alloc, end, sink.text, text)
}
