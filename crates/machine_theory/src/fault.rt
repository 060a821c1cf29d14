use thiserror::Error;

/// Why an access or a tag instruction faults. Each is shown as its code and name.
#[derive(Debug, Clone, Copy, PartialEq, Eq, Error)]
pub enum Fault {
    /// Part of the access lies outside the region, or bits 63 to 60 of its address are not 0.
    #[error("50 Unmapped")]
    Unmapped,
    /// The address of a tag store is no multiple of 16.
    #[error("51 Alignment")]
    Alignment,
    /// The Allocation Tag of a granule that the access touches is not the address's tag.
    #[error("52 TagCheck")]
    TagCheck {
        /// The lowest such granule, counted from the region's start.
        granule: u32,
        /// The Allocation Tag of that granule, 0 to 15.
        memory_tag: u8,
        /// The logical tag of the address, 0 to 15.
        pointer_tag: u8,
    },
}
