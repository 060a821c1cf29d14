//! Calls of the engines, so that one table runs them all.
use super::streams::{sink, source};
use super::support::{end_text, same};
use mte_engine::{ByteSink, ByteSource, Call, Options, Status, ToolFault, run_call, run_call_on};
use std::process::Abort;
use std::test::Fail;

/// The options of the tests: the program's own, on a heap of 64 granules that holds back no block.
pub const OPTIONS: Options = Options {
    granules: 64,
    quarantine: 0,
    ..Options::DEFAULTS
};

// the call of a command with these options, and some others
macro_rules! call {
    ($command:ident $(, $option:ident: $number:expr)*) => {
        mte_engine::Call {
            command: mte_engine::CommandName::$command,
            options: mte_engine::Options {
                $($option: $number,)*
                ..crate::tests::calls::OPTIONS
            },
        }
    };
}

pub(crate) use call;

/// Runs a call whose options are in their ranges.
pub fn call_on<R: ByteSource, W: ByteSink>(
    rt: &(impl Abort + AllocGlobal),
    call: Call,
    source: &mut R,
    sink: &mut W,
) -> Result<Status, ToolFault> {
    assert!(rt; call.is_valid());
    run_call(call, rt.alloc(), source, sink)
}

/// Calls the engine on a text: this is written for it, and it ends so.
pub fn answers(
    rt: &(impl Abort + AllocGlobal),
    call: Call,
    input: &[u8],
    written: &str,
    wanted: &str,
) -> Result<(), Fail> {
    let mut from = source(input);
    let mut to = sink(rt.alloc())?;
    let end = call_on(rt, call, &mut from, &mut to);
    let ends = end_text(rt.alloc(), end)?;
    same(rt, &ends.as_str(), &wanted, &input);
    same(rt, &to.text.as_slice(), &written.as_bytes(), &input);
    Ok(())
}

/// Calls the engine on a first text and another: this is written for them, and it ends so.
pub fn answers_on(
    rt: &(impl Abort + AllocGlobal),
    call: Call,
    (first, input): (&[u8], &[u8]),
    written: &str,
    wanted: &str,
) -> Result<(), Fail> {
    assert!(rt; call.is_valid());
    assert!(rt; call.command.has_two_texts());
    let mut to = sink(rt.alloc())?;
    let end = run_call_on(call, rt.alloc(), first, &mut source(input), &mut to);
    let ends = end_text(rt.alloc(), end)?;
    same(rt, &ends.as_str(), &wanted, &(first, input));
    same(
        rt,
        &to.text.as_slice(),
        &written.as_bytes(),
        &(first, input),
    );
    Ok(())
}

/// An input, what is written for it, and how the engine ends.
pub type Case = (&'static [u8], &'static str, &'static str);

/// Calls the engine on each text of a group.
pub fn answer(rt: &(impl Abort + AllocGlobal), groups: &[(Call, &[Case])]) -> Result<(), Fail> {
    for (call, cases) in groups {
        answer_all(rt, *call, cases)?;
    }
    Ok(())
}

fn answer_all(rt: &(impl Abort + AllocGlobal), call: Call, cases: &[Case]) -> Result<(), Fail> {
    for (input, written, wanted) in cases {
        answers(rt, call, input, written, wanted)?;
    }
    Ok(())
}

/// Calls the engine on a text: it ends so.
pub fn ends(
    rt: &(impl Abort + AllocGlobal),
    call: Call,
    input: &[u8],
    wanted: &str,
) -> Result<(), Fail> {
    let mut to = sink(rt.alloc())?;
    let end = call_on(rt, call, &mut source(input), &mut to);
    let ends = end_text(rt.alloc(), end)?;
    same(rt, &ends.as_str(), &wanted, &input);
    Ok(())
}
