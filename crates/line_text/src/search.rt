//! The search for the byte that ends a line or a word.
ghost use Rattle.memchr.specs.Find.{IsFirstByte, is_byte};

use memchr::memchr;

// Up to this length a search byte by byte is faster. Most lines and words are no longer.
const SCAN_BYTES: usize = 32;

/// The first place of a byte among these bytes.
/// Inlined, like its two callers `next`: a call for each word would take longer than most words do.
#[inline(always)]
pub(crate) fn first_place(byte: u8, bytes: &[u8]) -> Option<usize>
    ensures { IsFirstByte (is_byte byte) bytes.now result }
{
    for (place, other) in bytes.iter().enumerate() {
        if *other == byte {
            return Some(place);
        }
        if place == SCAN_BYTES {
            return memchr(byte, bytes);
        }
    }
    None
}
