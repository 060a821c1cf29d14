//! The two loops: reading a whole input, and writing a whole text.
ghost use Rattle.std.specs.Prelude.{◌≡◌, [], IfOk, vec_len};
ghost use Rattle.byte_streams.specs.Transfer.{HasRead, HasWritten, IsReadFewTimes};

use crate::fault::ReadError;
use crate::input::Input;
use crate::output::Output;
use crate::streams::{ByteSink, ByteSource, Failure};
use crate::zeros::with_zeros;
use std::alloc::{AllocError, Global};

/// The most bytes of an input.
pub const MOST_INPUT: usize = 67_108_864;

// the bytes that one read may give
const PIECE: usize = 65_536;

/// Passes all bytes of the source to the input, at most 67,108,864. Each turn takes at least one byte, ends or fails; so the call returns
/// even for a source that never ends.
pub fn read_all<R: ByteSource, I: Input>(
    alloc: Global,
    source: &mut R,
    input: &mut I,
) -> Result<(), ReadError>
    requires { I.has_taken input.old [] }
    ensures read { HasRead (I.has_taken input.new) (R.state source.old) (R.state source.new) result }
    ensures few { IsReadFewTimes (R.state source.old) (R.state source.new) }
{
    let mut piece = new_piece(alloc)?;
    let mut taken = 0;
    for _turn in 0..MOST_INPUT + 1 {
        let Ok(n) = source.read(&mut piece) else {
            return Err(ReadError::Failed);
        };
        if n == 0 {
            return Ok(());
        }
        if n > MOST_INPUT - taken {
            return Err(ReadError::TooLong);
        }
        input.take(&piece[..n])?;
        taken += n;
    }
    // not reached: each turn took a byte
    Err(ReadError::TooLong)
}

// room for a piece of the input
fn new_piece(alloc: Global) -> Result<Vec<u8>, AllocError>
    ensures { IfOk result (λ piece. vec_len piece ≡ PIECE) }
{
    with_zeros(Vec::new(alloc), PIECE)
}

/// Writes all pieces of the output. It takes no memory.
pub fn write_all<O: Output, W: ByteSink>(output: &mut O, sink: &mut W) -> Result<(), Failure>
    ensures { HasWritten (O.rest output.old) (W.state sink.old) (W.state sink.new) result }
{
    while !output.piece().is_empty() {
        let n = sink.write(output.piece())?;
        output.advance(n);
    }
    Ok(())
}
