//! Sources and sinks of bytes.
ghost use Rattle.std.specs.Prelude.{◌≡◌, ◌+◌, ◌++◌, ◌<◌, ◌≤◌, length, IfOk};
ghost use Rattle.std.specs.Io.KnownBytes.{ReadConsumes, WriteAppends};
ghost use Rattle.byte_streams.specs.Moved.{failures, is_end, moved};
ghost use Rattle.byte_streams.specs.Streams.{SinkState, SourceState};

/// A read or a write that failed.
#[derive(Debug, Clone, Copy, PartialEq, Eq)]
pub struct Failure;

/// A source of bytes.
pub trait ByteSource {
    // What it has given, and the bytes that are still to come, if it knows them.
    ghost state: { Self → SourceState };

    /// Fills the first bytes of `buf`, and returns how many: 0 at the end. A failed read gives no bytes.
    fn read(&mut self, buf: &mut [u8]) -> Result<usize, Failure>
        ensures bound { IfOk result (λ n. n ≤ length buf.new) }
        ensures bytes { ReadConsumes (state self.old).remaining (state self.new).remaining result buf.new }
        ensures given { (state self.new).given ≡ (state self.old).given ++ moved result buf.new }
        ensures end { IfOk result (λ n. (state self.new).at_end ≡ is_end n (length buf.new)) }
        ensures reads { (state self.new).reads ≡ (state self.old).reads + 1 }
        ensures failed { (state self.new).failed ≡ (state self.old).failed + failures result };
}

/// A sink of bytes.
pub trait ByteSink {
    // What it has taken in all its calls, and the bytes that it holds, if it knows them.
    ghost state: { Self → SinkState };

    /// Takes the first bytes of `bytes`, and returns how many: at least one, if there is one. A failed write takes none.
    fn write(&mut self, bytes: &[u8]) -> Result<usize, Failure>
        ensures bound { IfOk result (λ n. n ≤ length bytes.now) }
        ensures some { IfOk result (λ n. 0 < length bytes.now → 0 < n) }
        ensures bytes { WriteAppends (state self.old).taken (state self.new).taken result bytes.now }
        ensures written { (state self.new).written ≡ (state self.old).written ++ moved result bytes.now }
        ensures failed { (state self.new).failed ≡ (state self.old).failed + failures result };
}
