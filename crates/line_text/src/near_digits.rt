//! The digits at the start of a fixed number of bytes. A number is **near** if it ends within these bytes.
ghost use Rattle.std.specs.Prelude.{◌≡◌, ◌≤◌, ◌+◌, Bool, take};
ghost use Rattle.std.specs.Char.{is_ascii_digit};
ghost use Rattle.std.specs.List.{list_all};
ghost use Rattle.std.specs.Str.Parse.{digits_value};
ghost use Rattle.line_text.specs.Numbers.{AreNear};

use crate::digit_words::{four_digits, leading_eight};
use crate::number::SHORT_DIGITS;

/// How many digits are at the start of these bytes, and their value; `None` if all bytes are digits.
/// The numbers of bytes below are constants. So the compiler unrolls the loop, and no byte costs a test for the end of the text.
#[inline(always)]
pub(crate) fn near_digits(bytes: &[u8; SHORT_DIGITS]) -> Option<(usize, u64)>
    ensures { AreNear result bytes.now }
{
    let Some(first) = bytes.first_chunk::<8>() else {
        return last_digits(bytes, 0, 0);
    };
    let (count, value) = leading_eight(first);
    if count < 8 {
        return Some((count, value));
    }
    further_digits(bytes, value)
}

// The same, where the first eight bytes are known to be digits of this value.
#[inline(always)]
fn further_digits(bytes: &[u8; SHORT_DIGITS], value: u64) -> Option<(usize, u64)>
    requires digits { list_all is_ascii_digit (take 8 bytes.now) ≡ Bool.true }
    requires value { value ≡ digits_value 10 (take 8 bytes.now) }
    ensures { AreNear result bytes.now }
{
    match four_digits(&bytes[8..]) {
        Some(four) => last_digits(bytes, 12, value * 10_000 + u64::from(four)),
        None => last_digits(bytes, 8, value),
    }
}

#[inline(always)]
fn last_digits(bytes: &[u8; SHORT_DIGITS], known: usize, value: u64) -> Option<(usize, u64)>
    requires known { known ≤ SHORT_DIGITS }
    requires digits { list_all is_ascii_digit (take known bytes.now) ≡ Bool.true }
    requires value { value ≡ digits_value 10 (take known bytes.now) }
    ensures { AreNear result bytes.now }
{
    let mut value = value;
    for place in known..SHORT_DIGITS {
        let digit = u64::from(bytes[place]).wrapping_sub(u64::from(b'0'));
        if digit > 9 {
            return Some((place, value));
        }
        value = value * 10 + digit;
    }
    None
}
