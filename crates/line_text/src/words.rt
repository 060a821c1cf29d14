//! Words of a line.
ghost use Rattle.std.specs.Prelude.{◌≡◌, List, ℕ, IfSome, IfNone, drop, slice_get};
ghost use Rattle.std.specs.Iterator.{YieldsFirstBy, item_count};
ghost use Rattle.std.specs.Option.{option_map};
ghost use Rattle.line_text.specs.Lines.{words, words_left};
ghost use Rattle.line_text.specs.Numbers.{classified, near_number_of, number_of};

use crate::near_digits::near_digits;
use crate::number::{Number, SHORT_DIGITS, number_in};
use crate::search::first_place;
use std::marker::Model;

/// The unread words of a line, in order.
#[derive(Drop)]
pub struct Words<'a> {
    rest: Option<&'a [u8]>,
}

impl<'a> Model for Words<'a> {
    ghost Value = { List (List ℕ) };

    ghost view = { λ s. words_left (option_map (λ x. x.now) s.rest) };
}

/// The words of a line, with a single space (byte 32) between each two. A space at the start or the end, and two spaces in a row, make an
/// empty word. The empty line is one empty word.
pub fn words_in(line: &[u8]) -> Words<'_>
    ensures { result ≡ words line.now }
{
    Words { rest: Some(line) }
}

impl<'a> Words<'a> {
    /// Takes the next word, and returns what it spells as a number, mostly in one pass over its bytes. `None` if no word is left.
    #[inline(always)]
    pub fn next_as_number(&mut self) -> Option<Number>
        ensures number { result ≡ option_map (λ word. classified (number_of word)) (slice_get self.old 0) }
        ensures taken { self.new ≡ drop 1 self.old }
    {
        if let Some(value) = self.next_near_number() {
            return Some(Number::Value(value));
        }
        match self.next() {
            Some(word) => Some(number_in(word)),
            None => None,
        }
    }

    // Takes the next word as a number if it has at most 18 digits and the unread part of the line at least 19 bytes. Otherwise it takes no
    // word.
    #[inline(always)]
    fn next_near_number(&mut self) -> Option<u64>
        ensures number { result ≡ near_number_of self.old }
        ensures taken { IfSome result (λ _. self.new ≡ drop 1 self.old) }
        ensures kept { IfNone result (self.new ≡ self.old) }
    {
        let line = self.rest?;
        let (bytes, _) = line.split_first_chunk::<SHORT_DIGITS>()?;
        let (size, value) = near_digits(bytes)?;
        if bytes[size] != b' ' || size == 0 || (bytes[0] == b'0' && 1 < size) {
            return None;
        }
        self.rest = Some(&line[size + 1..]);
        Some(value)
    }
}

impl<'a> Iterator for Words<'a> {
    type Item = &'a [u8];

    ghost next_gives = { YieldsFirstBy (λ x. x.now) (λ s. s) };

    ghost remaining = { item_count (λ s. s) };

    #[inline(always)]
    fn next(&mut self) -> Option<&'a [u8]> {
        let line = self.rest?;
        let Some(end) = first_place(b' ', line) else {
            self.rest = None;
            return Some(line);
        };
        self.rest = Some(&line[end + 1..]);
        Some(&line[..end])
    }
}
