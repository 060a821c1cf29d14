//! An input of a class line and the counts after it.
ghost use Rattle.std.specs.Prelude.{[], IfOk};
ghost use Rattle.mte_engine.specs.CountsInput.{HasTakenCounts, KeepsLineAnd};

use crate::counts_input::CountsInput;
use byte_streams::Input;
use line_text::first_line;
use std::alloc::{AllocError, Global};

/// The first line of an input, and the counts after it. A class line may have any length, so its bytes are kept until its end.
#[derive(Drop)]
pub(crate) struct LineAndCounts {
    pub(crate) line: Vec<u8>,
    pub(crate) line_has_ended: bool,
    pub(crate) counts: CountsInput,
}

impl LineAndCounts {
    /// An input that has taken no bytes.
    pub(crate) fn new(alloc: Global) -> Result<LineAndCounts, AllocError>
        ensures { IfOk result
            (λ input. KeepsLineAnd input.line_has_ended input.line.items (HasTakenCounts input.counts) []) }
    {
        Ok(LineAndCounts {
            line: Vec::new(alloc),
            line_has_ended: false,
            counts: CountsInput::new(alloc)?,
        })
    }
}

impl Input for LineAndCounts {
    ghost has_taken = { λ input bytes.
        KeepsLineAnd input.line_has_ended input.line.items (HasTakenCounts input.counts) bytes };

    fn take(&mut self, piece: &[u8]) -> Result<(), AllocError> {
        if self.line_has_ended {
            return self.counts.take(piece);
        }
        let Some((end, rest)) = first_line(piece) else {
            return self.line.extend_from_slice(piece);
        };
        self.line.extend_from_slice(end)?;
        self.line_has_ended = true;
        self.counts.take(rest)
    }
}
