//! A source without an end.
ghost use Rattle.std.specs.Prelude.{None};
ghost use Rattle.byte_streams.specs.Streams.{source_state};

use mte_engine::{ByteSource, Failure, History};

/// Gives the byte `a` for ever, or so often.
#[derive(Drop)]
pub struct RepeatedByte {
    /// How many bytes are still to come; none for ever.
    pub left: Option<usize>,
    /// What its reads gave.
    pub reads: History,
    /// The most bytes that a call moves; 0 stands for 1.
    pub most: usize,
}

impl ByteSource for RepeatedByte {
    ghost state = { λ s. source_state None s.reads };

    fn read(&mut self, buf: &mut [u8]) -> Result<usize, Failure> {
        let n = buf.len().min(self.most.max(1));
        let n = match self.left {
            None => n,
            Some(left) => {
                let n = n.min(left);
                self.left = Some(left - n);
                n
            }
        };
        buf[..n].fill(b'a');
        self.reads = self.reads.and_moved(buf, n);
        Ok(n)
    }
}
