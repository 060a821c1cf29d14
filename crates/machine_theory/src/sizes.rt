/// The bytes of a granule, which has one Allocation Tag.
pub const GRANULE_BYTES: u64 = 16;

/// The fewest granules of a memory.
pub const FEWEST_GRANULES: u32 = 64;

/// The most granules of a memory.
pub const MOST_GRANULES: u32 = 262_144;

/// The place where the region, and with it granule 0, begins.
pub const REGION_START: u64 = 1 << 36;

/// The most bytes that one access touches. It touches at least one.
pub const LONGEST_ACCESS: u32 = 64;

/// The most granules by which ADDG and SUBG move an address.
pub const FARTHEST_MOVE: u32 = 63;

/// The most tags by which ADDG and SUBG step a tag.
pub const LARGEST_TAG_STEP: u32 = 15;
