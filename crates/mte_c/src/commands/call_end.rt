//! How a call ended.

use mte_engine::InputFault;

/// How a call ended.
#[derive(Debug, Clone, Copy, PartialEq, Eq)]
pub enum CallEnd {
    /// Done.
    Done,
    /// Done, and the verdict is no.
    No,
    /// The input is refused. The text is that of its first fault.
    Refused(InputFault),
    /// The allocator refused memory. There is no text.
    OutOfMemory,
    /// An option is out of its range. There is no text.
    BadOption,
    /// The text holds an answer that nobody made an input. It stays as it is.
    Misuse,
}
