//! Checksums of a memory: CRC-32, as zlib has it.
use granule_memory::Memory;

// What each four bits change, for the polynomial 0xedb88320.
static CHANGES: [u32; 16] = [
    0x00000000, 0x1db71064, 0x3b6e20c8, 0x26d930ac, 0x76dc4190, 0x6b6b51f4, 0x4db26158, 0x5005713c,
    0xedb88320, 0xf00f9344, 0xd6d6a3e8, 0xcb61b38c, 0x9b64c2b0, 0x86d3d2d4, 0xa00ae278, 0xbdbdf21c,
];

/// The sum of all tags, each as a byte, and that of all bytes.
pub fn sums(memory: &Memory) -> (u32, u32) {
    let (mut tags, mut bytes) = (!0, !0);
    for granule in 0..memory.granules() {
        tags = with_byte(tags, memory.tag(granule));
        for i in 0..16 {
            bytes = with_byte(bytes, memory.byte(granule, i));
        }
    }
    (!tags, !bytes)
}

fn with_byte(sum: u32, byte: u8) -> u32 {
    let mixed = sum ^ u32::from(byte);
    let half = CHANGES[(mixed % 16) as usize] ^ mixed >> 4;
    CHANGES[(half % 16) as usize] ^ half >> 4
}
