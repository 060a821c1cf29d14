//! Lines of a text.
ghost use Rattle.std.specs.Prelude.{◌≡◌, ◌++◌, ◌∷◌, List, ℕ, IfSome, IfNone, drop, option_and_then, slice_get};
ghost use Rattle.std.specs.Iterator.{YieldsFirstBy, item_count};
ghost use Rattle.line_text.specs.Lines.{IsLine, lines, words};
ghost use Rattle.line_text.specs.Pairs.{short_pair_of};
ghost use Rattle.line_text.specs.Rows.{IsRow};

use crate::pair::leading_pair;
use crate::row::leading_row;
use crate::search::first_place;
use memchr::memchr;
use std::marker::Model;

/// The unread lines of a text, in order and without their newlines.
#[derive(Drop)]
pub struct Lines<'a> {
    rest: &'a [u8],
}

impl<'a> Model for Lines<'a> {
    ghost Value = { List (List ℕ) };

    ghost view = { λ s. lines s.rest.now };
}

/// The lines of a text. A newline (byte 10) ends each line; the last line may lack it. The empty text has no line, and two newlines in a
/// row make an empty line.
pub fn lines_in(text: &[u8]) -> Lines<'_>
    ensures { result ≡ lines text.now }
{
    Lines { rest: text }
}

impl<'a> Lines<'a> {
    /// The text of the unread lines.
    pub fn rest(&self) -> &'a [u8]
        ensures { lines result.now ≡ self.now }
    {
        self.rest
    }

    /// Takes the next line as two numbers, in one pass over its bytes. `None`, with no line taken, if no line is left or the next line is
    /// not two words that each spell a number of at most 19 digits.
    #[inline(always)]
    pub fn next_numbers(&mut self) -> Option<(u64, u64)>
        ensures numbers { result ≡ option_and_then (λ line. short_pair_of (words line)) (slice_get self.old 0) }
        ensures taken { IfSome result (λ _. self.new ≡ drop 1 self.old) }
        ensures kept { IfNone result (self.new ≡ self.old) }
    {
        let (numbers, rest) = leading_pair(self.rest)?;
        self.rest = rest;
        Some(numbers)
    }

    /// Takes the next line as a number and those after it, which are then in `numbers`, in one pass over its bytes. A number that a place
    /// does not hold stands as the largest that it holds. `None`, with no line taken, if no line is left, or if the next line has another
    /// word, not as many numbers as there are places, or a number of more than 19 digits. There may be any numbers in `numbers` then.
    #[inline(always)]
    pub fn next_row(&mut self, numbers: &mut [u32]) -> Option<u64>
        ensures row { IfSome result (λ first. IsRow (slice_get self.old 0) first numbers.new) }
        ensures taken { IfSome result (λ _. self.new ≡ drop 1 self.old) }
        ensures kept { IfNone result (self.new ≡ self.old) }
    {
        let (first, rest) = leading_row(self.rest, numbers)?;
        self.rest = rest;
        Some(first)
    }
}

impl<'a> Iterator for Lines<'a> {
    type Item = &'a [u8];

    ghost next_gives = { YieldsFirstBy (λ x. x.now) (λ s. s) };

    ghost remaining = { item_count (λ s. s) };

    #[inline(always)]
    fn next(&mut self) -> Option<&'a [u8]> {
        let text = self.rest;
        if text.is_empty() {
            return None;
        }
        let Some(end) = first_place(b'\n', text) else {
            self.rest = &[];
            return Some(text);
        };
        self.rest = &text[end + 1..];
        Some(&text[..end])
    }
}

/// The bytes before the first newline of a text and those after it. `None` if it has no newline.
pub fn first_line(text: &[u8]) -> Option<(&[u8], &[u8])>
    ensures cut { IfSome result (λ pair. text.now ≡ pair.0.now ++ 10 ∷ pair.1.now) }
    ensures line { IfSome result (λ pair. IsLine pair.0.now) }
    ensures unfinished { IfNone result (IsLine text.now) }
{
    let end = memchr(b'\n', text)?;
    Some((&text[..end], &text[end + 1..]))
}
