//! The words of a header. Only here are its fields bits: of the first word, bits 0 to 1 are the state, 2 to 15 the size, 16 to 19 the
//! tag, 20 to 31 the class, and 32 to 63 the link. The second word is the mark. A class is below 32, so bits 25 to 31 of the first word
//! are 0.
ghost use Rattle.chunk_header.specs.HeaderView.{seen, standing_seen};
ghost use Rattle.heap_theory.specs.Header.{FitsWords, code_of, first_word, header_of, standing_of};
ghost use Rattle.heap_theory.specs.Header.Standing.{Freed, Quarantined};
ghost use Rattle.std.specs.Prelude.{◌≡◌, ◌/◌, ◌%◌, ◌<◌, ◌^◌, ℕ};

use crate::header::{Header, State};
use class_table::MOST_CLASSES;

const STATE_MASK: u64 = (1 << 2) - 1;

const SIZE_SHIFT: u32 = 2;

const SIZE_MASK: u64 = (1 << 14) - 1;

const TAG_SHIFT: u32 = 16;

const TAG_MASK: u64 = (1 << 4) - 1;

const CLASS_SHIFT: u32 = 20;

const CLASS_MASK: u64 = (1 << 12) - 1;

const NEXT_SHIFT: u32 = 32;

// the bits of all fields below the link
const BELOW_NEXT_MASK: u64 = (1 << NEXT_SHIFT) - 1;

/// The first word of a header.
pub(crate) fn first_word(header: &Header) -> u64
    requires size { header.now.size < 2 ^ 14 }
    requires tag { header.now.tag < 16 }
    requires class { header.now.class < MOST_CLASSES }
    ensures word { result ≡ first_word (seen header.now) }
    ensures fits { FitsWords (seen header.now) }
{
    code_of(header.state)
        + (u64::from(header.size) << SIZE_SHIFT)
        + (u64::from(header.tag) << TAG_SHIFT)
        + (u64::from(header.class) << CLASS_SHIFT)
        + (u64::from(header.next) << NEXT_SHIFT)
}

/// The header that two words spell.
pub(crate) fn header_of(first: u64, second: u64) -> Header
    requires class { (header_of first second).class < MOST_CLASSES }
    ensures seen { seen result ≡ header_of first second }
    ensures size { result.size < 2 ^ 14 }
    ensures tag { result.tag < 16 }
    ensures class { result.class < MOST_CLASSES }
{
    Header {
        state: state_of(first & STATE_MASK),
        size: ((first >> SIZE_SHIFT) & SIZE_MASK) as u16,
        tag: ((first >> TAG_SHIFT) & TAG_MASK) as u8,
        class: class_of(first) as u8,
        next: next_of(first),
        mark: second,
    }
}

/// The class in a first word.
pub(crate) fn class_of(first: u64) -> u64
    ensures { result ≡ first / 2 ^ 20 % 2 ^ 12 }
{
    (first >> CLASS_SHIFT) & CLASS_MASK
}

/// The link in a first word.
pub(crate) fn next_of(first: u64) -> u32
    ensures { result ≡ first / 2 ^ 32 }
{
    (first >> NEXT_SHIFT) as u32
}

/// The first word with this link in place of its own.
pub(crate) fn with_next_in(first: u64, next: u32) -> u64
    ensures { (second : ℕ) → result ≡ first_word (record (header_of first second) { next = next }) }
{
    (first & BELOW_NEXT_MASK) + (u64::from(next) << NEXT_SHIFT)
}

/// The first word with the state `Freed`, whose code has both bits set, and with this link.
pub(crate) fn word_of_freed(first: u64, next: u32) -> u64
    ensures { (second : ℕ) → result ≡ first_word (record (header_of first second) { standing = Freed; next = next }) }
{
    ((first & BELOW_NEXT_MASK) >> SIZE_SHIFT << SIZE_SHIFT)
        + STATE_MASK
        + (u64::from(next) << NEXT_SHIFT)
}

/// The first word with the state `Quarantined` and the link 0.
pub(crate) fn word_of_quarantined(first: u64) -> u64
    ensures { (second : ℕ)
        → result ≡ first_word (record (header_of first second) { standing = Quarantined; next = 0 }) }
{
    ((first & BELOW_NEXT_MASK) >> SIZE_SHIFT << SIZE_SHIFT) + code_of(State::Quarantined)
}

fn code_of(state: State) -> u64
    ensures code { result ≡ code_of (standing_seen state) }
    ensures fits { result < 4 }
{
    match state {
        State::Fresh => 0,
        State::Live => 1,
        State::Quarantined => 2,
        State::Freed => 3,
    }
}

fn state_of(code: u64) -> State
    ensures { standing_seen result ≡ standing_of code }
{
    match code {
        0 => State::Fresh,
        1 => State::Live,
        2 => State::Quarantined,
        _ => State::Freed,
    }
}
