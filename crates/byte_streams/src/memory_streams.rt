//! A source and a sink over memory. Either can be set to fail at a call, and to move few bytes at a time.
ghost use Rattle.std.specs.Io.KnownBytes.{ReadConsumes, WriteAppends};
ghost use Rattle.std.specs.Prelude.{◌≡◌, ◌↔◌, ◌+◌, ◌++◌, ◌<◌, ◌≤◌, IfErr, IfOk, IsTrue, Some, length, max, min};
ghost use Rattle.byte_streams.specs.Moved.{failures, is_end, moved};
ghost use Rattle.byte_streams.specs.Streams.{MovesInMemory, one_call_fewer, sink_state, source_state};

use crate::history::History;
use crate::streams::{ByteSink, ByteSource, Failure};

/// The source over a slice.
#[derive(Drop)]
pub struct MemorySource<'a> {
    /// The bytes that are still to come.
    pub rest: &'a [u8],
    /// What its reads gave.
    pub reads: History,
    /// The most bytes that a call moves; 0 stands for 1.
    pub most: usize,
    /// How many calls succeed before one fails, if one is to.
    pub until_failure: Option<u64>,
}

impl<'a> ByteSource for MemorySource<'a> {
    ghost state = { λ s. source_state (Some s.rest.now) s.reads };

    fn read(&mut self, buf: &mut [u8]) -> Result<usize, Failure>
        ensures bound { IfOk result (λ n. n ≤ length buf.new) }
        ensures bytes { ReadConsumes (Some self.old.rest.now) (Some self.new.rest.now) result buf.new }
        ensures given { self.new.reads.bytes ≡ self.old.reads.bytes ++ moved result buf.new }
        ensures end { IfOk result (λ n. self.new.reads.at_end ≡ is_end n (length buf.new)) }
        ensures reads { self.new.reads.calls ≡ self.old.reads.calls + 1 }
        ensures failed { self.new.reads.failed ≡ self.old.reads.failed + failures result }
        ensures moves { MovesInMemory self.old.until_failure self.new.until_failure
            (min (min (length self.old.rest.now) (length buf.new)) (max self.old.most 1)) result }
        ensures set { IfErr result (λ _. self.old.until_failure ≡ Some 0) }
        ensures most { self.new.most ≡ self.old.most }
    {
        if fails_now(&mut self.until_failure) {
            self.reads = self.reads.and_failed();
            return Err(Failure);
        }
        let n = self.rest.len().min(buf.len()).min(self.most.max(1));
        let (front, rest) = self.rest.split_at(n);
        buf[..n].copy_from_slice(front);
        self.rest = rest;
        self.reads = self.reads.and_moved(buf, n);
        Ok(n)
    }
}

/// The sink into a vector.
#[derive(Drop)]
pub struct MemorySink {
    /// What was taken.
    pub text: Vec<u8>,
    /// What its writes took.
    pub writes: History,
    /// The most bytes that a call moves; at 0 each call fails that has a byte to move.
    pub most: usize,
    /// How many calls succeed before one fails, if one is to.
    pub until_failure: Option<u64>,
}

impl ByteSink for MemorySink {
    ghost state = { λ s. sink_state (Some s.text.items) s.writes };

    fn write(&mut self, bytes: &[u8]) -> Result<usize, Failure>
        ensures bound { IfOk result (λ n. n ≤ length bytes.now) }
        ensures some { IfOk result (λ n. 0 < length bytes.now → 0 < n) }
        ensures bytes { WriteAppends (Some self.old.text.items) (Some self.new.text.items) result bytes.now }
        ensures written { self.new.writes.bytes ≡ self.old.writes.bytes ++ moved result bytes.now }
        ensures failed { self.new.writes.failed ≡ self.old.writes.failed + failures result }
        ensures moves { MovesInMemory self.old.until_failure self.new.until_failure
            (min (length bytes.now) self.old.most) result }
        ensures most { self.new.most ≡ self.old.most }
    {
        let n = bytes.len().min(self.most);
        if fails_now(&mut self.until_failure)
            || n == 0 && !bytes.is_empty()
            || self.text.extend_from_slice(&bytes[..n]).is_err()
        {
            self.writes = self.writes.and_failed();
            return Err(Failure);
        }
        self.writes = self.writes.and_moved(bytes, n);
        Ok(n)
    }
}

// whether this call fails, with one call fewer until then
fn fails_now(until_failure: &mut Option<u64>) -> bool
    ensures now { IsTrue result ↔ (until_failure.old ≡ Some 0) }
    ensures next { until_failure.new ≡ one_call_fewer until_failure.old }
{
    match *until_failure {
        None => false,
        Some(0) => {
            *until_failure = None;
            true
        }
        Some(n) => {
            *until_failure = Some(n - 1);
            false
        }
    }
}
