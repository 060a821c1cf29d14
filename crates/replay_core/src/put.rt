//! Writing into a text at a place. Each call returns the place after what it wrote. What lies before its own place stays.
ghost use Rattle.line_text.specs.Hexadecimal.{hex};
ghost use Rattle.std.specs.Fmt.{decimal};
ghost use Rattle.std.specs.List.{flat_map};
ghost use Rattle.replay_core.specs.TwoDigits.{two_digits};
ghost use Rattle.std.specs.Prelude.{◌≡◌, ◌++◌, ◌+◌, ◌*◌, ◌/◌, ◌%◌, ◌<◌, ◌≤◌, drop, length, take};

use itoa::Buffer;
use std::simd::prelude::*;

// the digits of the values below 16
const DIGITS: [u8; 16] = *b"0123456789abcdef";

// the two digits of each number below 100
static TENS: [[u8; 2]; 100] = [
    *b"00", *b"01", *b"02", *b"03", *b"04", *b"05", *b"06", *b"07", *b"08", *b"09", *b"10", *b"11",
    *b"12", *b"13", *b"14", *b"15", *b"16", *b"17", *b"18", *b"19", *b"20", *b"21", *b"22", *b"23",
    *b"24", *b"25", *b"26", *b"27", *b"28", *b"29", *b"30", *b"31", *b"32", *b"33", *b"34", *b"35",
    *b"36", *b"37", *b"38", *b"39", *b"40", *b"41", *b"42", *b"43", *b"44", *b"45", *b"46", *b"47",
    *b"48", *b"49", *b"50", *b"51", *b"52", *b"53", *b"54", *b"55", *b"56", *b"57", *b"58", *b"59",
    *b"60", *b"61", *b"62", *b"63", *b"64", *b"65", *b"66", *b"67", *b"68", *b"69", *b"70", *b"71",
    *b"72", *b"73", *b"74", *b"75", *b"76", *b"77", *b"78", *b"79", *b"80", *b"81", *b"82", *b"83",
    *b"84", *b"85", *b"86", *b"87", *b"88", *b"89", *b"90", *b"91", *b"92", *b"93", *b"94", *b"95",
    *b"96", *b"97", *b"98", *b"99",
];

/// Writes bytes.
pub(crate) fn put(text: &mut [u8], at: usize, bytes: &[u8]) -> usize
    requires { at + length bytes.now ≤ length text.old }
    ensures end { result ≡ at + length bytes.now }
    ensures text { take result text.new ≡ take at text.old ++ bytes.now }
{
    // a loop of its own: `copy_from_slice` looks whether the two overlap
    for place in 0..bytes.len() {
        text[at + place] = bytes[place];
    }
    at + bytes.len()
}

/// Writes a number in decimal.
pub(crate) fn put_number(text: &mut [u8], at: usize, number: u64) -> usize
    requires { at + 20 ≤ length text.old }
    ensures end { result ≤ at + 20 }
    ensures text { take result text.new ≡ take at text.old ++ decimal number }
{
    if number < 10_000 {
        return put_below_10000(text, at, number as usize);
    }
    if number < 100_000_000 {
        let end = put_below_10000(text, at, (number / 10_000) as usize);
        return put_four(text, end, (number % 10_000) as usize);
    }
    put(text, at, Buffer::new().format(number).as_bytes())
}

// writes a number below 10,000 in decimal
#[inline(always)]
fn put_below_10000(text: &mut [u8], at: usize, number: usize) -> usize
    requires room { at + 4 ≤ length text.old }
    requires small { number < 10000 }
    ensures end { result ≤ at + 4 }
    ensures text { take result text.new ≡ take at text.old ++ decimal number }
{
    if number < 100 {
        return put_below_100(text, at, number);
    }
    let end = put_below_100(text, at, number / 100);
    put(text, end, &two(number % 100))
}

// writes a number below 100 in decimal
#[inline(always)]
fn put_below_100(text: &mut [u8], at: usize, number: usize) -> usize
    requires room { at + 2 ≤ length text.old }
    requires small { number < 100 }
    ensures end { result ≤ at + 2 }
    ensures text { take result text.new ≡ take at text.old ++ decimal number }
{
    if number < 10 {
        return put(text, at, &[b'0' + number as u8]);
    }
    put(text, at, &two(number))
}

/// Writes the last four digits of a number.
#[inline(always)]
pub(crate) fn put_four(text: &mut [u8], at: usize, number: usize) -> usize
    requires room { at + 4 ≤ length text.old }
    requires small { number < 10000 }
    ensures end { result ≡ at + 4 }
    ensures text { take result text.new ≡ take at text.old ++ two_digits (number / 100) ++ two_digits (number % 100) }
{
    let end = put(text, at, &two(number / 100));
    put(text, end, &two(number % 100))
}

// the two digits of a number below 100
fn two(number: usize) -> [u8; 2]
    requires { number < 100 }
    ensures { result ≡ two_digits number }
{
    TENS[number]
}

/// Writes two digits for each byte, of which there are whole strides of 32. A longer stride leaves fewer branches on the number of bytes,
/// which follows no pattern.
#[inline(always)]
pub(crate) fn put_hex_strides(text: &mut [u8], at: usize, bytes: &[u8]) -> usize
    requires room { at + 2 * length bytes.now ≤ length text.old }
    requires whole { length bytes.now % 32 ≡ 0 }
    ensures end { result ≡ at + 2 * length bytes.now }
    ensures text { take result text.new ≡ take at text.old ++ flat_map hex bytes.now }
{
    let mut done = 0;
    while done < bytes.len() {
        let middle = put_hex_half(text, at + 2 * done, bytes, done);
        put_hex_half(text, middle, bytes, done + 16);
        done += 32;
    }
    at + 2 * done
}

// Writes two digits for each of the sixteen bytes from a place on.
#[inline(always)]
fn put_hex_half(text: &mut [u8], at: usize, bytes: &[u8], from: usize) -> usize
    requires room { at + 32 ≤ length text.old }
    requires bytes { from + 16 ≤ length bytes.now }
    ensures end { result ≡ at + 32 }
    ensures text { take result text.new ≡ take at text.old ++ flat_map hex (take 16 (drop from bytes.now)) }
{
    let digits = hex_digits(u8x16::from_slice(&bytes[from..]));
    digits.copy_to_slice(&mut text[at..]);
    at + 32
}

// The digits of sixteen bytes, looked up at once by vectors.
#[inline(always)]
fn hex_digits(bytes: u8x16) -> u8x32
    ensures { result ≡ flat_map hex bytes }
{
    let digits = u8x16::from_array(DIGITS);
    let first = digits.swizzle_dyn(bytes >> u8x16::splat(4));
    let second = digits.swizzle_dyn(bytes & u8x16::splat(15));
    first.shuffle(
        second,
        [
            0, 16, 1, 17, 2, 18, 3, 19, 4, 20, 5, 21, 6, 22, 7, 23, 8, 24, 9, 25, 10, 26, 11, 27,
            12, 28, 13, 29, 14, 30, 15, 31,
        ],
    )
}
