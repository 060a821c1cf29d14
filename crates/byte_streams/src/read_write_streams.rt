//! A source and a sink over any reader and writer of std. They know the bytes that the reader or the writer knows:
//! of a slice or a vector all, of a file or a standard stream none.
ghost use Rattle.std.specs.Prelude.{◌≡◌, [], false};
ghost use Rattle.byte_streams.specs.Streams.{sink_state, source_state};

use crate::history::History;
use crate::streams::{ByteSink, ByteSource, Failure};
use std::io::{Read, Write};

/// The source over a reader.
#[derive(Drop)]
pub struct StreamSource<R> {
    reader: R,
    // what the reader's calls gave
    reads: History,
}

impl<R> StreamSource<R> {
    /// A source that nobody has read.
    pub fn new(reader: R) -> StreamSource<R>
        ensures reader { result.reader ≡ reader }
        ensures given { result.reads.bytes ≡ [] }
        ensures reads { result.reads.calls ≡ 0 }
        ensures failed { result.reads.failed ≡ 0 }
    {
        StreamSource {
            reader,
            reads: History::new(),
        }
    }
}

impl<R: Read> ByteSource for StreamSource<R> {
    ghost state = { λ s. source_state (R.remaining s.reader) s.reads };

    fn read(&mut self, buf: &mut [u8]) -> Result<usize, Failure> {
        match self.reader.read(buf) {
            Ok(n) => {
                self.reads = self.reads.and_moved(buf, n);
                Ok(n)
            }
            Err(_) => {
                self.reads = self.reads.and_failed();
                Err(Failure)
            }
        }
    }
}

/// The sink over a writer.
#[derive(Drop)]
pub struct StreamSink<W> {
    writer: W,
    // what the writer's calls took
    writes: History,
}

impl<W> StreamSink<W> {
    /// A sink to which nobody has written.
    pub fn new(writer: W) -> StreamSink<W>
        ensures writer { result.writer ≡ writer }
        ensures written { result.writes.bytes ≡ [] }
        ensures failed { result.writes.failed ≡ 0 }
    {
        StreamSink {
            writer,
            writes: History::new(),
        }
    }
}

impl<W: Write> ByteSink for StreamSink<W> {
    ghost state = { λ s. sink_state (W.contents s.writer) s.writes };

    fn write(&mut self, bytes: &[u8]) -> Result<usize, Failure> {
        match self.writer.write(bytes) {
            Ok(n) if n > 0 || bytes.is_empty() => {
                self.writes = self.writes.and_moved(bytes, n);
                Ok(n)
            }
            // the writer failed, or took none of the bytes
            _ => {
                self.writes = self.writes.and_failed();
                Err(Failure)
            }
        }
    }
}
