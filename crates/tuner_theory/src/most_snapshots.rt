/// The most snapshots of a history.
pub const MOST_SNAPSHOTS: usize = 1024;
