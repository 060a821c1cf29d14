//! A line of many numbers, in one pass over its bytes.
ghost use Rattle.std.specs.Prelude.{◌≡◌, ◌++◌, ◌∷◌, ◌-◌, ◌^◌, ◌≤◌, ℕ, List, [], true, IfSome, Some};
ghost use Rattle.std.specs.Prelude.{drop, length, min, slice_get, slice_index, take};
ghost use Rattle.line_text.specs.Lines.{lines};
ghost use Rattle.line_text.specs.Numbers.{leading_digits, leading_number_of};
ghost use Rattle.line_text.specs.Rows.{IsRow, IsRowSoFar};
ghost use Rattle.std.specs.Int.{from_bool};
ghost use Rattle.std.specs.Option.{option_map};

use crate::leading_number::{
    leading_number, short_digits, short_leading_number, tiny_leading_number,
};
use crate::pair::after_byte;

/// The first number of the first line of a text, and the text after that line; the other numbers of the line are then in `numbers`, which
/// has a place for each of them. A larger number stands as the largest that a place holds. `None` if the line has another word, or more or
/// fewer numbers, or one of them has more than 19 digits.
/// Not inlined, nor is what reads a long number: in more code the constants of short numbers would not stay in registers.
#[inline(never)]
pub(crate) fn leading_row<'a>(text: &'a [u8], numbers: &mut [u32]) -> Option<(u64, &'a [u8])>
    ensures row { IfSome result (λ found. IsRow (slice_get (lines text.now) 0) found.0 numbers.new) }
    ensures after { IfSome result (λ found. lines found.1.now ≡ drop 1 (lines text.now)) }
{
    let (first, mut rest) = leading_number(text)?;
    let mut place = 0;
    // most numbers are short, and about as long as the one before
    let mut is_tiny = true;
    while place < numbers.len() {
        let Some((number, after)) = short_in_place(rest, is_tiny) else {
            break;
        };
        numbers[place] = number;
        rest = after;
        place += 1;
        is_tiny = number < 1000;
    }
    if place == numbers.len() {
        return ended_row(first, rest);
    }
    rest_of_row(first, rest, numbers, place)
}

// the same where the first number and those before a place were read
#[inline(never)]
fn rest_of_row<'a>(
    first: u64,
    rest: &'a [u8],
    numbers: &mut [u32],
    from: usize,
) -> Option<(u64, &'a [u8])>
    requires { from ≤ length numbers.old }
    ensures row { (text : List ℕ) → IsRowSoFar text rest.now first (take from numbers.old)
        → IfSome result (λ found. IsRow (slice_get (lines text) 0) found.0 numbers.new) }
    ensures after { (text : List ℕ) → IsRowSoFar text rest.now first (take from numbers.old)
        → IfSome result (λ found. lines found.1.now ≡ drop 1 (lines text)) }
{
    let mut rest = rest;
    for place in from..numbers.len() {
        let (number, after) = next_in_place(rest)?;
        numbers[place] = number;
        rest = after;
    }
    ended_row(first, rest)
}

// the same where all numbers were read
#[inline(always)]
fn ended_row(first: u64, rest: &[u8]) -> Option<(u64, &[u8])>
    ensures row { (text numbers : List ℕ) → IsRowSoFar text rest.now first numbers
        → IfSome result (λ found. IsRow (slice_get (lines text) 0) found.0 numbers) }
    ensures after { (text numbers : List ℕ) → IsRowSoFar text rest.now first numbers
        → IfSome result (λ found. lines found.1.now ≡ drop 1 (lines text)) }
{
    if rest.is_empty() {
        return Some((first, rest));
    }
    Some((first, after_byte(b'\n', rest)?))
}

/// The number that is the first line of a text, after a `-` if that is signed, and how many bytes the line takes with its newline, at most eight.
/// `None` if the line is anything else, has no newline, or begins in the last seven bytes of the text.
#[inline(always)]
pub fn short_line(text: &[u8], is_signed: bool) -> Option<(u32, usize)>
    requires sign { is_signed ≡ true → slice_index text.now 0 ≡ 45 }
    ensures number { IfSome result
        (λ found. IsRow (slice_get (lines (drop (from_bool is_signed) text.now)) 0) found.0 []) }
    ensures after { IfSome result
        (λ found. lines (drop found.1 text.now) ≡ drop 1 (lines (drop (from_bool is_signed) text.now))) }
    ensures within { IfSome result (λ found. found.1 ≤ length text.now) }
{
    let (number, end) = short_digits(text, is_signed)?;
    if text[end] != b'\n' {
        return None;
    }
    Some((number, end + 1))
}

// The number after a space, or the largest that a place holds if that is less, and the text after it.
#[inline(always)]
fn next_in_place(text: &[u8]) -> Option<(u32, &[u8])>
    ensures space { IfSome result (λ _. text.now ≡ 32 ∷ drop 1 text.now) }
    ensures number { IfSome result
        (λ pair. option_map (λ n. min n (2 ^ 32 - 1)) (leading_number_of (drop 1 text.now)) ≡ Some pair.0) }
    ensures after { IfSome result (λ pair. drop 1 text.now ≡ leading_digits (drop 1 text.now) ++ pair.1.now) }
{
    if let Some(short) = short_in_place(text, false) {
        return Some(short);
    }
    let (number, after) = leading_number(after_byte(b' ', text)?)?;
    Some((number.min(u64::from(u32::MAX)) as u32, after))
}

// The same of a number of at most seven digits in a text of at least nine bytes; `None` of any other text. If it is likely to have at most
// three digits, it is first read as such a one.
#[inline(always)]
fn short_in_place(text: &[u8], is_tiny: bool) -> Option<(u32, &[u8])>
    ensures space { IfSome result (λ _. text.now ≡ 32 ∷ drop 1 text.now) }
    ensures number { IfSome result
        (λ pair. option_map (λ n. min n (2 ^ 32 - 1)) (leading_number_of (drop 1 text.now)) ≡ Some pair.0) }
    ensures after { IfSome result (λ pair. drop 1 text.now ≡ leading_digits (drop 1 text.now) ++ pair.1.now) }
{
    // (one test for the length of the text serves for the space too)
    if text.len() < 9 || text[0] != b' ' {
        return None;
    }
    let digits = &text[1..];
    if is_tiny {
        if let Some(tiny) = tiny_leading_number(digits) {
            return Some(tiny);
        }
    }
    short_leading_number(digits)
}
