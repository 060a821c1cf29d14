//! Headers in the granules of a memory.
ghost use Rattle.chunk_header.specs.HeaderView.{seen};
ghost use Rattle.chunk_header.specs.HeaderWrite.{WritesHeader};
ghost use Rattle.heap_theory.specs.Header.{header_at};
ghost use Rattle.heap_theory.specs.Header.Standing.{Freed, Quarantined};
ghost use Rattle.std.specs.Prelude.{◌≡◌, ◌↔◌, ◌<◌, ◌^◌, length, IsTrue};

use crate::header::Header;
use crate::words::{
    class_of, first_word, header_of, next_of, with_next_in, word_of_freed, word_of_quarantined,
};
use class_table::MOST_CLASSES;
use granule_memory::Memory;
use machine_theory::GRANULE_BYTES;

/// Whether the bytes of a granule, which must be below `granules()`, spell a header: the class is below 32, and so bits 25 to 31 of the
/// first word are 0.
#[tactic(auto, unfolding(heap_theory::specs::Header::header_at))]
pub fn is_header(memory: &Memory, granule: u32) -> bool
    requires { granule < length memory.now }
    ensures { IsTrue result ↔ ((header_at memory.now granule).class < MOST_CLASSES) }
{
    class_of(memory.word(granule, 0)) < MOST_CLASSES as u64
}

/// The header in a granule, which must be below `granules()` and hold a header (`is_header`).
#[tactic(auto, unfolding(heap_theory::specs::Header::header_at))]
pub fn read(memory: &Memory, granule: u32) -> Header
    requires granule { granule < length memory.now }
    requires class { (header_at memory.now granule).class < MOST_CLASSES }
    ensures header { seen result ≡ header_at memory.now granule }
    ensures size { result.size < 2 ^ 14 }
    ensures tag { result.tag < 16 }
    ensures class { result.class < MOST_CLASSES }
{
    header_of(memory.word(granule, 0), memory.word(granule, 1))
}

/// Writes a header to a granule, which must be below `granules()`. The size must be below 2^14, the tag below 16 and the class below 32.
/// All tags and all other granules stay the same.
pub fn write(memory: &mut Memory, granule: u32, header: &Header)
    requires granule { granule < length memory.old }
    requires size { header.now.size < 2 ^ 14 }
    requires tag { header.now.tag < 16 }
    requires class { header.now.class < MOST_CLASSES }
    ensures { WritesHeader memory.old memory.new granule GRANULE_BYTES (seen header.now) }
{
    memory.set_word(granule, 0, first_word(header));
    memory.set_word(granule, 1, header.mark);
}

/// The class in the header of a granule, by its number. The granule must be below `granules()` and hold a header (`is_header`).
#[tactic(auto, unfolding(heap_theory::specs::Header::header_at))]
pub fn class_in(memory: &Memory, granule: u32) -> usize
    requires granule { granule < length memory.now }
    requires class { (header_at memory.now granule).class < MOST_CLASSES }
    ensures { result ≡ (header_at memory.now granule).class }
{
    class_of(memory.word(granule, 0)) as usize
}

/// Makes the header in a granule, which must be below `granules()`, that of a released slot with this link: the state is `Freed`. The
/// header's other fields, all tags and all other granules stay the same.
pub fn set_freed(memory: &mut Memory, granule: u32, next: u32)
    requires { granule < length memory.old }
    ensures { let before = header_at memory.old granule in
        WritesHeader memory.old memory.new granule 8 (record before { standing = Freed; next = next }) }
{
    let word = word_of_freed(memory.word(granule, 0), next);
    memory.set_word(granule, 0, word);
}

/// Makes the header in a granule, which must be below `granules()` and hold a header (`is_header`), that of a slot that is freed, with this
/// mark: the state is `Quarantined`, and the link 0. The header's other fields, all tags and all other granules stay the same.
pub fn set_quarantined(memory: &mut Memory, granule: u32, mark: u64)
    requires granule { granule < length memory.old }
    requires class { (header_at memory.old granule).class < MOST_CLASSES }
    ensures { let before = header_at memory.old granule in
        WritesHeader memory.old memory.new granule GRANULE_BYTES
        (record before { standing = Quarantined; next = 0; mark = mark }) }
{
    let word = word_of_quarantined(memory.word(granule, 0));
    memory.set_word(granule, 0, word);
    memory.set_word(granule, 1, mark);
}

/// The link of the header in a granule, which must be below `granules()`: a slot's number plus one, or 0.
#[tactic(auto, unfolding(heap_theory::specs::Header::header_at))]
pub(crate) fn next(memory: &Memory, granule: u32) -> u32
    requires { granule < length memory.now }
    ensures { result ≡ (header_at memory.now granule).next }
{
    next_of(memory.word(granule, 0))
}

/// Sets the link of the header in a granule, which must be below `granules()`. The header's other fields, all tags and all other granules
/// stay the same.
pub(crate) fn set_next(memory: &mut Memory, granule: u32, next: u32)
    requires { granule < length memory.old }
    ensures { let before = header_at memory.old granule in
        WritesHeader memory.old memory.new granule 8 (record before { next = next }) }
{
    let word = with_next_in(memory.word(granule, 0), next);
    memory.set_word(granule, 0, word);
}
