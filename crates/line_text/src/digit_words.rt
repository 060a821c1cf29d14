//! Eight or four digits at once: the bytes are one word, and each multiplication doubles the number of digits that are joined.
ghost use Rattle.std.specs.Prelude.{◌≡◌, ◌<◌, ◌≤◌, ℕ, All, Bool, IfNone, IfSome, List, MatchOption, length, map, slice_index, take};
ghost use Rattle.std.specs.Char.{is_ascii_digit};
ghost use Rattle.std.specs.Int.Digits.{number_from_digits};
ghost use Rattle.std.specs.List.{list_all, prefix_len};
ghost use Rattle.std.specs.Simd.Lanes.{mask_l};
ghost use Rattle.std.specs.Str.Parse.{digits_value};
ghost use Rattle.line_text.specs.Numbers.{is_no_digit, unsigned, word_of};

use std::simd::prelude::*;

// the byte `0`, eight times
const ZEROS: u64 = 0x3030_3030_3030_3030;

// the highest bit of each of eight bytes, and what a byte lacks to it if it is 10
const HIGH_BITS: u64 = 0x8080_8080_8080_8080;

const ABOVE_NINE: u64 = 0x7676_7676_7676_7676;

// the first of each two bytes, and the first two of each four
const FIRST_BYTES: u64 = 0x00ff_00ff_00ff_00ff;

const FIRST_PAIRS: u64 = 0x0000_ffff_0000_ffff;

/// How many of eight bytes are digits, up to the first that is none, and the value of these digits.
#[inline(always)]
pub(crate) fn leading_eight(bytes: &[u8; 8]) -> (usize, u64)
    ensures count { result.0 ≡ prefix_len is_ascii_digit bytes.now }
    ensures value { result.1 ≡ digits_value 10 (take result.0 bytes.now) }
{
    match digit_count(bytes) {
        None => (8, value_of(bytes, 8)),
        Some(0) => (0, 0),
        Some(count) => (count, value_of(bytes, count)),
    }
}

/// How many of eight bytes are digits, up to the first that is none; `None` if all are.
/// The word of the bytes serves `value_of` too.
#[inline(always)]
pub(crate) fn digit_count(bytes: &[u8; 8]) -> Option<usize>
    ensures count { IfSome result (λ count. count ≡ prefix_len is_ascii_digit bytes.now) }
    ensures few { IfSome result (λ count. count < 8) }
    ensures all { IfNone result (8 ≡ prefix_len is_ascii_digit bytes.now) }
{
    let digits = u64::from_le_bytes(*bytes).wrapping_sub(ZEROS);
    let others = (digits | digits.wrapping_add(ABOVE_NINE)) & HIGH_BITS;
    if others == 0 {
        return None;
    }
    Some(others.trailing_zeros() as usize / 8)
}

/// How many of eight bytes are digits, up to the first that is none; `None` if all are. A sign in front of them, `-`, counts as one.
#[inline(always)]
pub(crate) fn signed_count(bytes: &[u8; 8], is_signed: bool) -> Option<usize>
    requires { is_signed ≡ Bool.true → slice_index bytes.now 0 ≡ 45 }
    ensures count { IfSome result (λ count. count ≡ prefix_len is_ascii_digit (unsigned is_signed bytes.now)) }
    ensures few { IfSome result (λ count. count < 8) }
{
    // the sign's bit is the lowest
    first_other(no_digits(u8x8::from_array(*bytes)) - u64::from(is_signed))
}

/// The value of the first so many of eight bytes, which must be digits.
#[inline(always)]
pub(crate) fn value_of(bytes: &[u8; 8], count: usize) -> u64
    requires digits { list_all is_ascii_digit (take count bytes.now) ≡ Bool.true }
    requires some { 1 ≤ count }
    requires few { count ≤ 8 }
    ensures { result ≡ digits_value 10 (take count bytes.now) }
{
    let digits = u64::from_le_bytes(*bytes).wrapping_sub(ZEROS);
    // the digits go to the upper bytes, with zeros in front of them
    join_digits(digits << (64 - 8 * count))
}

// for each byte a bit, set where the byte is no digit
#[inline(always)]
fn no_digits(bytes: u8x8) -> u64
    ensures { result ≡ mask_l (map is_no_digit bytes) }
{
    (bytes - u8x8::splat(b'0'))
        .simd_ge(u8x8::splat(10))
        .to_bitmask()
}

// how many bytes are before the first whose bit is set, or `None` if none is set
#[inline(always)]
fn first_other(others: u64) -> Option<usize>
    ensures { (bytes : List ℕ) → length bytes ≡ 8 → others ≡ mask_l (map is_no_digit bytes)
        → MatchOption result (8 ≡ prefix_len is_ascii_digit bytes)
        (λ count. (count ≡ prefix_len is_ascii_digit bytes) × (count < 8)) }
{
    if others == 0 {
        return None;
    }
    Some(others.trailing_zeros() as usize)
}

/// The value of the first four bytes of a text, if all are digits.
#[inline(always)]
pub(crate) fn four_digits(text: &[u8]) -> Option<u32>
    ensures digits { IfSome result (λ _. list_all is_ascii_digit (take 4 text.now) ≡ Bool.true) }
    ensures value { IfSome result (λ value. value ≡ digits_value 10 (take 4 text.now)) }
{
    digits_in_four(text.first_chunk::<4>()?)
}

#[inline(always)]
fn digits_in_four(bytes: &[u8; 4]) -> Option<u32>
    ensures digits { IfSome result (λ _. list_all is_ascii_digit bytes.now ≡ Bool.true) }
    ensures value { IfSome result (λ value. value ≡ digits_value 10 bytes.now) }
{
    let digits = u32::from_le_bytes(*bytes).wrapping_sub(0x3030_3030);
    if (digits | digits.wrapping_add(0x7676_7676)) & 0x8080_8080 != 0 {
        return None;
    }
    let pairs = (digits.wrapping_mul(1 + (10 << 8)) >> 8) & 0x00ff_00ff;
    Some(pairs.wrapping_mul(1 + (100 << 16)) >> 16)
}

// The number whose eight digits these bytes are, the lowest byte first.
#[inline(always)]
fn join_digits(digits: u64) -> u64
    ensures { (ds : List ℕ) → length ds ≡ 8 → All (λ d. d < 10) ds → digits ≡ word_of ds
        → result ≡ number_from_digits 10 ds }
{
    let pairs = (digits.wrapping_mul(1 + (10 << 8)) >> 8) & FIRST_BYTES;
    let fours = (pairs.wrapping_mul(1 + (100 << 16)) >> 16) & FIRST_PAIRS;
    fours.wrapping_mul(1 + (10_000 << 32)) >> 32
}
