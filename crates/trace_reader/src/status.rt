use crate::fault::TraceError;

/// The state of a reader.
#[derive(Debug, Clone, Copy)]
pub(crate) enum Status {
    /// More of the text may come.
    Open,
    /// A line was faulty, or the allocator refused memory.
    Failed(TraceError),
    /// The text has ended.
    Finished,
}
