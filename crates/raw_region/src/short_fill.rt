//! A run of bytes is filled. Most runs that a heap fills are the tags of one chunk, 1 to 64 bytes, and for these a call of the C library's
//! memset, with the branches in it that such lengths mispredict, costs more than the stores. So a run of up to 32 bytes is written as a whole
//! window, and the bytes after the run, which were read before, are written over what the window has too much. A run of up to 64 is written by
//! two windows, which may overlap. A loop would not do: the compiler makes a call of memset of it. The bytes of a store are up to 64 and follow no
//! pattern at all: they are written as two windows at once, whatever their number.
ghost use Rattle.raw_region.specs.Bytes.{with_bytes};
ghost use Rattle.std.specs.Prelude.{◌≡◌, ◌++◌, ◌+◌, ◌*◌, ◌-◌, ◌≤◌, drop, length, replicate, slice_range, take};

use std::simd::prelude::*;

// the bytes that are written together
const WINDOW: usize = 32;

// and where both runs are short
const HALF: usize = WINDOW / 2;

// and where a run may be longer, and its length follows no pattern
const DOUBLE: usize = 2 * WINDOW;

/// Writes `value` to each of the bytes from place `from` to place `to - 1`.
#[inline(always)]
pub(crate) fn fill_run(bytes: &mut [u8], from: usize, to: usize, value: u8)
    requires { (from ≤ to) × (to ≤ length bytes.old) }
    ensures { bytes.new ≡ take from bytes.old ++ replicate (to - from) value ++ drop to bytes.old }
{
    let count = to - from;
    if count <= WINDOW && bytes.len() - from >= 2 * WINDOW {
        let rest = window_at(bytes, to);
        put_window(bytes, from, u8x32::splat(value));
        put_window(bytes, to, rest);
    } else if count >= WINDOW && count <= 2 * WINDOW {
        fill_both_ends::<WINDOW>(&mut bytes[from..to], value);
    } else {
        fill_all(&mut bytes[from..to], value);
    }
}

/// Writes `value` to each of the bytes from place `from` to place `middle - 1`, and 0 to each from there to place `to - 1`.
#[inline(always)]
pub(crate) fn fill_then_clear(bytes: &mut [u8], from: usize, middle: usize, to: usize, value: u8)
    requires { (from ≤ middle) × (middle ≤ to) × (to ≤ length bytes.old) }
    ensures { bytes.new
        ≡ take from bytes.old ++ replicate (middle - from) value ++ replicate (to - middle) 0 ++ drop to bytes.old }
{
    if middle - from <= WINDOW && to - middle <= WINDOW && bytes.len() - from >= 3 * WINDOW {
        if to - from <= HALF {
            let rest = half_at(bytes, to);
            put_half(bytes, from, u8x16::splat(value));
            put_half(bytes, middle, u8x16::splat(0));
            put_half(bytes, to, rest);
            return;
        }
        let rest = window_at(bytes, to);
        put_window(bytes, from, u8x32::splat(value));
        put_window(bytes, middle, u8x32::splat(0));
        put_window(bytes, to, rest);
        return;
    }
    fill_run(bytes, from, middle, value);
    if middle < to {
        fill_run(bytes, middle, to, 0);
    }
}

/// Writes `value` to each of the bytes from place `from` to place `to - 1`, which are at most 64.
#[inline(always)]
pub(crate) fn fill_few(bytes: &mut [u8], from: usize, to: usize, value: u8)
    requires place { (from ≤ to) × (to ≤ length bytes.old) }
    requires few { to ≤ from + DOUBLE }
    ensures { bytes.new ≡ take from bytes.old ++ replicate (to - from) value ++ drop to bytes.old }
{
    if bytes.len() - from >= 2 * DOUBLE {
        let rest = double_at(bytes, to);
        put_double(bytes, from, u8x64::splat(value));
        put_double(bytes, to, rest);
    } else {
        fill_all(&mut bytes[from..to], value);
    }
}

// The window of bytes from place `at` on.
#[inline(always)]
fn window_at(bytes: &[u8], at: usize) -> u8x32
    requires { at + WINDOW ≤ length bytes.now }
    ensures { result ≡ slice_range bytes.now at (at + WINDOW) }
{
    u8x32::from_slice(&bytes[at..])
}

// Writes a window to the bytes from place `at` on.
#[inline(always)]
fn put_window(bytes: &mut [u8], at: usize, window: u8x32)
    requires { at + WINDOW ≤ length bytes.old }
    ensures { bytes.new ≡ with_bytes bytes.old at window }
{
    window.copy_to_slice(&mut bytes[at..]);
}

// The half of a window from place `at` on.
#[inline(always)]
fn half_at(bytes: &[u8], at: usize) -> u8x16
    requires { at + HALF ≤ length bytes.now }
    ensures { result ≡ slice_range bytes.now at (at + HALF) }
{
    u8x16::from_slice(&bytes[at..])
}

// Writes half of a window to the bytes from place `at` on.
#[inline(always)]
fn put_half(bytes: &mut [u8], at: usize, half: u8x16)
    requires { at + HALF ≤ length bytes.old }
    ensures { bytes.new ≡ with_bytes bytes.old at half }
{
    half.copy_to_slice(&mut bytes[at..]);
}

// Two windows from place `at` on.
#[inline(always)]
fn double_at(bytes: &[u8], at: usize) -> u8x64
    requires { at + DOUBLE ≤ length bytes.now }
    ensures { result ≡ slice_range bytes.now at (at + DOUBLE) }
{
    u8x64::from_slice(&bytes[at..])
}

// Writes two windows to the bytes from place `at` on.
#[inline(always)]
fn put_double(bytes: &mut [u8], at: usize, double: u8x64)
    requires { at + DOUBLE ≤ length bytes.old }
    ensures { bytes.new ≡ with_bytes bytes.old at double }
{
    double.copy_to_slice(&mut bytes[at..]);
}

// Writes `value` to each byte. The compiler makes one call of memset of this loop, and of `fill` one for all bytes but the last.
#[inline(always)]
fn fill_all(bytes: &mut [u8], value: u8)
    ensures { bytes.new ≡ replicate (length bytes.old) value }
{
    for place in 0..bytes.len() {
        bytes[place] = value;
    }
}

// Writes `value` to each of `N` to `2 * N` bytes: to the first `N` and to the last `N`.
#[inline(always)]
fn fill_both_ends<const N: usize>(bytes: &mut [u8], value: u8)
    requires { (N ≤ length bytes.old) × (length bytes.old ≤ 2 * N) }
    ensures { bytes.new ≡ replicate (length bytes.old) value }
{
    let end = bytes.len() - N;
    // a fill of a constant length is compiled to stores; a copy of an array would first be tested for an overlap
    bytes[..N].fill(value);
    bytes[end..].fill(value);
}
