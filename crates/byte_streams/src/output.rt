//! What is written, piece by piece.
ghost use Rattle.std.specs.Prelude.{◌≡◌, ◌≤◌, ◌++◌, List, ℕ, [], drop, length};

/// A text in pieces. It takes no memory.
pub trait Output: Drop {
    // All bytes that are still to come, and the first of them that are ready.
    ghost rest: { Self → List ℕ };

    ghost ready: { Self → List ℕ };

    /// The bytes that are ready to be written. There is at least one unless the text has ended.
    fn piece(&self) -> &[u8]
        ensures ready { result.now ≡ ready self.now }
        ensures first { (later : List ℕ) × (rest self.now ≡ ready self.now ++ later) }
        ensures some { ready self.now ≡ [] → rest self.now ≡ [] };

    /// Drops the first `n` of the bytes that are ready, after they were written.
    fn advance(&mut self, n: usize)
        requires { n ≤ length (ready self.old) }
        ensures { rest self.new ≡ drop n (rest self.old) };
}

/// A text in memory.
#[derive(Debug, Drop)]
pub struct Text {
    text: Vec<u8>,
    written: usize,
    ghost in_text: { written ≤ length text.items },
}

impl Text {
    /// The whole of this text.
    pub fn new(text: Vec<u8>) -> Text
        ensures text { result.text.items ≡ text.items }
        ensures whole { result.written ≡ 0 }
    {
        Text { text, written: 0 }
    }
}

impl Output for Text {
    ghost use Rattle.byte_streams.specs.TextLeft.{text_left};

    ghost rest = { text_left };

    ghost ready = { text_left };

    fn piece(&self) -> &[u8] {
        &self.text[self.written..]
    }

    fn advance(&mut self, n: usize) {
        self.written += n;
    }
}
