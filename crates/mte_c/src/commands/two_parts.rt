//! A source over two slices.
ghost use Rattle.std.specs.Prelude.{◌≡◌, ◌++◌, Some};
ghost use Rattle.byte_streams.specs.Streams.{source_state};

use mte_engine::{ByteSource, Failure, History};

/// The source over two slices, one after the other. It never fails.
#[derive(Drop)]
pub struct TwoParts<'a> {
    first: &'a [u8],
    second: &'a [u8],
    reads: History,
}

impl<'a> TwoParts<'a> {
    /// The source over these slices.
    pub fn new(first: &'a [u8], second: &'a [u8]) -> TwoParts<'a>
        ensures first { result.first.now ≡ first.now }
        ensures second { result.second.now ≡ second.now }
    {
        TwoParts {
            first,
            second,
            reads: History::new(),
        }
    }
}

impl<'a> ByteSource for TwoParts<'a> {
    ghost state = { λ s. source_state (Some (s.first.now ++ s.second.now)) s.reads };

    fn read(&mut self, buf: &mut [u8]) -> Result<usize, Failure> {
        if self.first.is_empty() {
            self.first = self.second;
            self.second = &[];
        }
        let n = self.first.len().min(buf.len());
        let (front, rest) = self.first.split_at(n);
        buf[..n].copy_from_slice(front);
        self.first = rest;
        self.reads = self.reads.and_moved(buf, n);
        Ok(n)
    }
}
