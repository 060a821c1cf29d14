//! The number at the start of a text, in one pass over its digits.
ghost use Rattle.std.specs.Prelude.{◌≡◌, ◌+◌, ◌-◌, ◌<◌, ◌≤◌, ◌++◌, false, true, IfNone, IfSome, Some, drop, length, slice_index};
ghost use Rattle.std.specs.Char.{is_ascii_digit};
ghost use Rattle.std.specs.Int.{from_bool};
ghost use Rattle.std.specs.List.{prefix_len};
ghost use Rattle.std.specs.Option.{option_map};
ghost use Rattle.line_text.specs.Numbers.{AreLeading, leading_digits, leading_number_of};

use crate::digit_words::{digit_count, signed_count, value_of};
use crate::near_digits::near_digits;
use crate::number::SHORT_DIGITS;

/// The number that the digits at the start of a text spell, and the text after them; `None` if they spell none or are more than 19.
#[inline(always)]
pub(crate) fn leading_number(text: &[u8]) -> Option<(u64, &[u8])>
    ensures number { option_map (λ pair. pair.0) result ≡ leading_number_of text.now }
    ensures after { IfSome result (λ pair. text.now ≡ leading_digits text.now ++ pair.1.now) }
{
    let (value, end) = digits_in_front(text)?;
    if end == 0 || (text[0] == b'0' && 1 < end) {
        return None;
    }
    Some((value, &text[end..]))
}

/// The same of a number of at most seven digits in a text of at least eight bytes; `None` of any other text.
#[inline(always)]
pub(crate) fn short_leading_number(text: &[u8]) -> Option<(u32, &[u8])>
    ensures number { IfSome result (λ pair. leading_number_of text.now ≡ Some pair.0) }
    ensures after { IfSome result (λ pair. text.now ≡ leading_digits text.now ++ pair.1.now) }
{
    let bytes = text.first_chunk::<8>()?;
    let end = digit_count(bytes)?;
    if end == 0 || (text[0] == b'0' && 1 < end) {
        return None;
    }
    Some((value_of(bytes, end) as u32, &text[end..]))
}

/// The same of a number of at most three digits, byte by byte: most counts are so small, and these steps are fewer than a word's.
#[inline(always)]
pub(crate) fn tiny_leading_number(text: &[u8]) -> Option<(u32, &[u8])>
    requires { 4 ≤ length text.now }
    ensures number { IfSome result (λ pair. leading_number_of text.now ≡ Some pair.0) }
    ensures after { IfSome result (λ pair. text.now ≡ leading_digits text.now ++ pair.1.now) }
{
    let first = digit_of(text[0])?;
    let Some(second) = digit_of(text[1]) else {
        return Some((first, &text[1..]));
    };
    if first == 0 {
        return None;
    }
    let two = first * 10 + second;
    let Some(third) = digit_of(text[2]) else {
        return Some((two, &text[2..]));
    };
    let None = digit_of(text[3]) else {
        return None;
    };
    Some((two * 10 + third, &text[3..]))
}

// what a byte is as a digit
#[inline(always)]
fn digit_of(byte: u8) -> Option<u32>
    ensures digit { IfSome result (λ digit. (is_ascii_digit byte ≡ true) × (digit ≡ byte - 48)) }
    ensures small { IfSome result (λ digit. digit ≤ 9) }
    ensures other { IfNone result (is_ascii_digit byte ≡ false) }
{
    let digit = u32::from(byte).wrapping_sub(u32::from(b'0'));
    if digit > 9 {
        return None;
    }
    Some(digit)
}

/// The number of digits at the start of a text, after a `-` if it is signed, and how many bytes both take, at most seven, in a text of at least
/// eight bytes after the sign; `None` of any other text. The sign is counted with the digits: so the end does not wait for it.
#[inline(always)]
pub(crate) fn short_digits(text: &[u8], is_signed: bool) -> Option<(u32, usize)>
    requires sign { is_signed ≡ true → slice_index text.now 0 ≡ 45 }
    ensures number { IfSome result
        (λ found. leading_number_of (drop (from_bool is_signed) text.now) ≡ Some found.0) }
    ensures end { IfSome result (λ found.
        found.1 ≡ from_bool is_signed + prefix_len is_ascii_digit (drop (from_bool is_signed) text.now)) }
    ensures within { IfSome result (λ found. found.1 < length text.now) }
{
    let end = signed_count(text.first_chunk::<8>()?, is_signed)?;
    let start = usize::from(is_signed);
    let word = &text[start..];
    let bytes = word.first_chunk::<8>()?;
    let count = end - start;
    if count == 0 || (word[0] == b'0' && 1 < count) {
        return None;
    }
    Some((value_of(bytes, count) as u32, end))
}

// the value of the digits at the start of a text, and how many they are; `None` if they are more than 19
#[inline(always)]
fn digits_in_front(text: &[u8]) -> Option<(u64, usize)>
    ensures { AreLeading result text.now }
{
    if let Some((bytes, _)) = text.split_first_chunk::<SHORT_DIGITS>() {
        if let Some((end, value)) = near_digits(bytes) {
            return Some((value, end));
        }
    }
    count_digits(text)
}

// the same, byte by byte: few texts are so short, and few have so many digits
#[tactic(auto, using(crate::proofs::Digits::room_for_one))]
fn count_digits(text: &[u8]) -> Option<(u64, usize)>
    ensures { AreLeading result text.now }
{
    let mut value: u64 = 0;
    let mut end = 0;
    for byte in text {
        if !byte.is_ascii_digit() {
            break;
        }
        if end == SHORT_DIGITS {
            return None;
        }
        value = value * 10 + u64::from(*byte - b'0');
        end += 1;
    }
    Some((value, end))
}
