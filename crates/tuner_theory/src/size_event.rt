/// One event of a run, as it is recorded: by the size alone. It takes four bytes.
#[derive(Clone, Copy, Debug, PartialEq, Eq)]
pub enum SizeEvent {
    /// A request of `n` bytes.
    Request { n: u16 },
    /// The free of a block that was requested with `n` bytes.
    Free { n: u16 },
}
