/// The state of a slot.
#[derive(Clone, Copy, Debug, PartialEq, Eq)]
pub enum State {
    /// It was never given out.
    Fresh,
    /// It is given out.
    Live,
    /// It was freed, and is in the quarantine.
    Quarantined,
    /// It was freed and then released from the quarantine, and is in its class's list.
    Freed,
}

/// What the header of a slot says.
#[derive(Clone, Copy, Debug, PartialEq, Eq)]
pub struct Header {
    /// The slot's state.
    pub state: State,
    /// The size in bytes that was last requested for it, below 2^14; 0 if it was never given out.
    pub size: u16,
    /// The tag that it was last given out with, below 16; 0 if it was never given out.
    pub tag: u8,
    /// The number of its class, counted from 0, below 32.
    pub class: u8,
    /// The link to the next slot of the quarantine or of a class's list: that slot's number plus one, or 0 for none.
    pub next: u32,
    /// Its mark: the bytes of all blocks that were freed before its own; 0 if it is fresh or live.
    pub mark: u64,
}
