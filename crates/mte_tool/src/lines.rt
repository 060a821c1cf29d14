//! Texts that the program itself gives to its streams: help, and the line of a fault.
ghost use Rattle.byte_streams.specs.Transfer.{HasWritten};
ghost use Rattle.mte_engine.specs.FaultText.{fault_line};
ghost use Rattle.mte_tool.specs.Told.{Tells};

use byte_streams::{ByteSink, Failure, Output, write_all};
use mte_engine::{ToolFault, fault_line};

// a text that is written from where it lies
#[derive(Drop)]
struct Piece<'a> {
    left: &'a [u8],
}

impl Output for Piece<'_> {
    ghost use Rattle.mte_tool.specs.Told.{left_of};

    ghost rest = { left_of };

    ghost ready = { left_of };

    fn piece(&self) -> &[u8] {
        self.left
    }

    fn advance(&mut self, n: usize) {
        self.left = &self.left[n..];
    }
}

/// Writes the whole text, unless a write fails.
pub fn write_text<W: ByteSink>(text: &str, sink: &mut W) -> Result<(), Failure>
    ensures { HasWritten text.now (W.state sink.old) (W.state sink.new) result }
{
    write_all(
        &mut Piece {
            left: text.as_bytes(),
        },
        sink,
    )
}

/// Writes the whole text to the error stream. If a write fails, nobody is left to be told.
pub fn tell<E: ByteSink>(text: &str, errors: &mut E)
    ensures { Tells text.now (E.state errors.old) (E.state errors.new) }
{
    let _ = write_text(text, errors);
}

/// Tells the line of a fault.
pub fn tell_fault<E: ByteSink>(fault: ToolFault, errors: &mut E)
    ensures { Tells (fault_line fault) (E.state errors.old) (E.state errors.new) }
{
    tell(fault_line(fault).as_str(), errors);
}
