//! The words of a line, and what each spells as a number of a range.
ghost use Rattle.std.specs.Prelude.{◌≡◌, ◌≤◌, [], false, Err, IfOk, IsTrue, map};
ghost use Rattle.std.specs.List.{list_any};
ghost use Rattle.line_text.specs.Lines.{words};
ghost use Rattle.trace_reader.specs.declared.fault.TraceFault.TheVariants.{BadWord};
ghost use Rattle.trace_reader.specs.TraceLine.{byte_of, event_of_words, is_empty_word, number_from, offset_of};

use crate::fault::TraceFault;
use arrayvec::ArrayVec;
use line_text::{Number, SignedNumber, hex_byte_in, number_in, signed_number_in, words_in};
use trace_event::Event;

/// The most words that an event's line has.
pub(crate) const MOST_WORDS: usize = 5;

/// The most bytes between a variable's address and an access.
pub(crate) const FARTHEST: u64 = Event::FARTHEST_ACCESS as u64;

/// Collects the words of a line, and returns whether they are at most five and none is empty. Every other line has a bad word.
pub(crate) fn are_full_words<'a>(line: &'a [u8], all: &mut ArrayVec<&'a [u8], MOST_WORDS>) -> bool
    requires { all.old.items ≡ [] }
    ensures words { IsTrue result → map (λ w. w.now) all.new.items ≡ words line.now }
    ensures full { IsTrue result → list_any is_empty_word (words line.now) ≡ false }
    ensures bad { result ≡ false → event_of_words (words line.now) ≡ Err BadWord }
{
    for word in words_in(line) {
        if word.is_empty() || all.is_full() {
            return false;
        }
        all.push(word);
    }
    true
}

/// The number from `low` to `high` that a word spells.
pub(crate) fn number_from(low: u32, high: u32, word: &[u8]) -> Result<u32, TraceFault>
    ensures number { result ≡ number_from low high word.now }
    ensures most { IfOk result (λ n. n ≤ high) }
{
    match number_in(word) {
        Number::NoNumber => Err(TraceFault::BadNumber),
        Number::Value(n) if u64::from(low) <= n && n <= u64::from(high) => Ok(n as u32),
        Number::TooLarge | Number::Value(_) => Err(TraceFault::OutOfRange),
    }
}

/// The offset of an access that a word spells.
pub(crate) fn offset_in(word: &[u8]) -> Result<i32, TraceFault>
    ensures { result ≡ offset_of word.now }
{
    match signed_number_in(word) {
        SignedNumber::NoNumber => Err(TraceFault::BadNumber),
        SignedNumber::Value(z) if z.unsigned_abs() <= FARTHEST => Ok(z as i32),
        SignedNumber::TooLarge | SignedNumber::Value(_) => Err(TraceFault::OutOfRange),
    }
}

/// The byte that a word spells.
pub(crate) fn byte_in(word: &[u8]) -> Result<u8, TraceFault>
    ensures { result ≡ byte_of word.now }
{
    match hex_byte_in(word) {
        Some(byte) => Ok(byte),
        None => Err(TraceFault::BadNumber),
    }
}
