//! An engine reads a whole input, works out its answer, and then writes the answer.
ghost use Rattle.std.specs.Prelude.{[], IfOk, List, ℕ, Result};
ghost use Rattle.mte_engine.specs.declared.fault.InputFault.{InputFault};
ghost use Rattle.mte_engine.specs.Outcome.{Answer, GivesAnswer, Runs};

use crate::fault::{AnswerError, ToolFault};
use byte_streams::{ByteSink, ByteSource, Input, Output, read_all, write_all};
use std::alloc::{AllocError, Global};

/// How an engine ended after it wrote its whole text.
#[derive(Debug, Clone, Copy, PartialEq, Eq)]
pub enum Status {
    /// Done.
    Done,
    /// Done, and the verdict is no.
    No,
}

/// The part of an engine between its source and its sink.
pub trait Engine {
    type Input: Input;

    type Output: Output;

    // What may be written for an input, with its status, or reported as its first fault.
    ghost answers: { Self → List ℕ → Result Answer InputFault → Type 0 };

    /// An input that has taken no bytes.
    fn input(&self, alloc: Global) -> Result<Self::Input, AllocError>
        ensures { IfOk result (λ input. Self.Input.has_taken input []) };

    /// The answer to the whole input, or its first fault. After this call the engine takes no more memory.
    fn answer(
        &self,
        alloc: Global,
        input: Self::Input,
    ) -> Result<(Self::Output, Status), AnswerError>
        ensures { (bytes : List ℕ) → Self.Input.has_taken input bytes →
            GivesAnswer Self.Output.rest (answers self.now bytes) result };
}

/// Reads the whole input, and writes the engine's answer to it.
pub fn run_engine<E: Engine, R: ByteSource, W: ByteSink>(
    alloc: Global,
    engine: &E,
    source: &mut R,
    sink: &mut W,
) -> Result<Status, ToolFault>
    ensures { Runs (E.answers engine.now) (R.state source.old) (R.state source.new) W.state sink.old sink.new result }
{
    let mut input = engine.input(alloc)?;
    read_all(alloc, source, &mut input)?;
    let (mut output, status) = engine.answer(alloc, input)?;
    write_all(&mut output, sink)?;
    Ok(status)
}
