/// One event of a trace, spelled by one line. `v` and `w` number variables, 0 to 1023.
#[derive(Clone, Copy, Debug, PartialEq, Eq)]
pub enum Event {
    /// Sets `v` to a new chunk of `n` bytes (0 to 2,147,483,647), or to null.
    Malloc { v: u16, n: u32 },
    /// As `Malloc`, and sets the bytes of the chunk's granules to 0.
    Calloc { v: u16, n: u32 },
    /// Resizes the chunk at `v` to `n` bytes (0 to 2,147,483,647), and sets `v` to its address. At null it is `Malloc`. If the heap
    /// refuses, `v` keeps its value.
    Realloc { v: u16, n: u32 },
    /// Frees the chunk at `v`. `v` keeps its value.
    Free { v: u16 },
    /// Loads `len` bytes (1 to 64) from the address that is `off` bytes (-1,048,576 to 1,048,576) after `v`.
    Load { v: u16, off: i32, len: u8 },
    /// Stores `len` bytes of the value `byte` there.
    Store { v: u16, off: i32, len: u8, byte: u8 },
    /// Sets `v` to the ADDG of `w`: moved up by `u6` granules (0 to 63), and its tag by `u4` tags (0 to 15).
    Addg { v: u16, w: u16, u6: u8, u4: u8 },
    /// Sets `v` to the SUBG of `w`: moved down by `u6` granules, and its tag by `u4` tags as ADDG moves it. The ranges are the same.
    Subg { v: u16, w: u16, u6: u8, u4: u8 },
}

/// The ranges of an event's numbers, which a trace spells and `Replay::step` takes.
impl Event {
    /// The last variable. Variables are numbered from 0.
    pub const LAST_VARIABLE: u32 = 1023;

    /// The most bytes that a request asks for.
    pub const LARGEST_REQUEST: u32 = 2_147_483_647;

    /// The most bytes that one load or store touches. It touches at least one.
    pub const LONGEST_ACCESS: u32 = machine_theory::LONGEST_ACCESS;

    /// The most bytes from a variable's address to an access, in either direction.
    pub const FARTHEST_ACCESS: u32 = 1_048_576;

    /// The most granules by which ADDG and SUBG move an address.
    pub const FARTHEST_MOVE: u32 = machine_theory::FARTHEST_MOVE;

    /// The most tags by which ADDG and SUBG step a tag.
    pub const LARGEST_TAG_STEP: u32 = machine_theory::LARGEST_TAG_STEP;
}
