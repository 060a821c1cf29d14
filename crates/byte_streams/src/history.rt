//! What the calls of a stream have moved so far. Only proofs read it: it takes no memory, and nothing is done at run time.
ghost use Rattle.std.specs.Prelude.{◌≡◌, ◌+◌, ◌++◌, [], List, ℕ, Bool, false, take, length};
ghost use Rattle.std.specs.Borrow.{ftrue};
ghost use Rattle.byte_streams.specs.Moved.{is_end};

use std::marker::{Model, PhantomData};

/// What the calls of a stream have moved so far. Clauses read all bytes that were moved (`bytes`), whether the last good call had room for
/// bytes and moved none (`at_end`), how many calls there were (`calls`), and how many of them failed (`failed`).
#[derive(Drop)]
pub struct History {
    of: PhantomData<u8>,
    pub ghost bytes: { List ℕ },
    pub ghost at_end: { Bool },
    pub ghost calls: { ℕ },
    pub ghost failed: { ℕ },
}

impl Model for History {
    ghost also_owns = { λ _. ftrue };
}

impl History {
    /// No call yet.
    pub fn new() -> History
        ensures { (result.bytes ≡ []) × (result.at_end ≡ false) × (result.calls ≡ 0) × (result.failed ≡ 0) }
    {
        History { of: PhantomData }
    }

    /// One more call, which moved the first `n` bytes of this piece.
    pub fn and_moved(&self, piece: &[u8], n: usize) -> History
        ensures { (result.bytes ≡ self.now.bytes ++ take n piece.now) × (result.at_end ≡ is_end n (length piece.now))
            × (result.calls ≡ self.now.calls + 1) × (result.failed ≡ self.now.failed) }
    {
        let _ = n;
        History { of: PhantomData }
    }

    /// One more call, which failed and moved nothing.
    pub fn and_failed(&self) -> History
        ensures { (result.bytes ≡ self.now.bytes) × (result.at_end ≡ self.now.at_end)
            × (result.calls ≡ self.now.calls + 1) × (result.failed ≡ self.now.failed + 1) }
    {
        History { of: PhantomData }
    }
}
