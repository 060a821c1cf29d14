ghost use Rattle.raw_region.specs.Bytes.{word_at, with_bytes, ChangesOnly};
ghost use Rattle.raw_region.specs.Ownership.{region_owns, region_lends};
ghost use Rattle.std.specs.Borrow.{sem};
ghost use Rattle.std.specs.Int.{w64, to_le_bytes};
ghost use Rattle.std.specs.Prelude.{◌≡◌, ◌+◌, ◌-◌, ◌<◌, ◌≤◌, ◌^◌, ℕ, All, IfOk, List, length, replicate, slice_index, slice_range, slice_set, take};

use crate::short_fill::{fill_few, fill_run, fill_then_clear};
use crate::zeros::write_zeros;
use std::alloc::{AllocError, Allocator, Global};
use std::marker::Model;
use std::simd::prelude::*;

/// A block of 1 to 2^30 bytes from the allocator. Contracts see it as the list of its bytes. Dropping it frees the block, at most once.
pub struct RawRegion {
    ptr: *mut u8,
    len: usize,
    alloc: Global,
    ghost bytes: { List ℕ },
    ghost counted: { len ≡ length bytes },
    ghost in_range: { (1 ≤ len) × (len ≤ 2 ^ 30) },
}

impl Model for RawRegion {
    ghost Value = { List ℕ };

    ghost view = { λ r. r.bytes };

    ghost also_owns = { λ r. region_owns r.alloc r.ptr r.len r.bytes };

    ghost also_shares = { λ r _ κ. region_lends r.ptr r.len r.bytes κ };
}

// The proof says that the block is freed at most once and not touched afterwards. That it is freed at all rests on this body:
// a derived `Drop`, which never frees the block, would be proved too.
impl Drop for RawRegion {
    fn drop(self) {
        let RawRegion { ptr, len, alloc } = self;
        unsafe { alloc.deallocate(ptr, len, 1) }
    }
}

impl RawRegion {
    ghost use Rattle.raw_region.specs.Lending.{LendsBytes};

    /// A region of `len` bytes, 1 to 2^30, all of them 0. The only error is that the allocator refuses the block.
    pub fn new(alloc: Global, len: usize) -> Result<RawRegion, AllocError>
        requires { (1 ≤ len) × (len ≤ 2 ^ 30) }
        ensures len { IfOk result (λ region. length region ≡ len) }
        ensures zeros { IfOk result (λ region. region ≡ replicate len 0) }
    {
        match alloc.allocate(len, 1) {
            Ok(ptr) => {
                unsafe { write_zeros(ptr, len) };
                Ok(RawRegion { ptr, len, alloc })
            }
            Err(error) => Err(error),
        }
    }

    /// The number of bytes, 1 to 2^30.
    pub fn len(&self) -> usize
        ensures len { result ≡ length self.now }
        ensures range { (1 ≤ result) × (result ≤ 2 ^ 30) }

        // What holds for every region: its bytes are bytes.
        ensures bytes { All (λ byte. byte < 2 ^ 8) self.now }
    {
        self.as_slice().len()
    }

    /// The byte at place `i`, which must be below the length.
    pub fn byte(&self, i: usize) -> u8
        requires { i < length self.now }
        ensures { result ≡ slice_index self.now i }
    {
        self.as_slice()[i]
    }

    /// Writes `b` to place `i`, which must be below the length.
    pub fn set_byte(&mut self, i: usize, b: u8)
        requires { i < length self.old }
        ensures { self.new ≡ slice_set self.old i b }
    {
        self.as_mut_slice()[i] = b;
    }

    /// The word at place `i`: the eight bytes from there on, the lowest first. The word needs no alignment, but must end within the length.
    #[tactic(auto, unfolding(crate::specs::Bytes::word_at))]
    pub fn word(&self, i: usize) -> u64
        requires { i + 8 ≤ length self.now }
        ensures { result ≡ word_at self.now i }
    {
        // A word can't be read through a cast pointer; the eight reads compile to one load.
        let s = self.as_slice();
        u64::from_le_bytes([
            s[i],
            s[i + 1],
            s[i + 2],
            s[i + 3],
            s[i + 4],
            s[i + 5],
            s[i + 6],
            s[i + 7],
        ])
    }

    /// Writes the word `w` to place `i`: eight bytes, the lowest first. The word needs no alignment, but must end within the length.
    #[tactic(auto, unfolding(crate::specs::Bytes::word_at))]
    pub fn set_word(&mut self, i: usize, w: u64)
        requires { i + 8 ≤ length self.old }
        ensures bytes { self.new ≡ with_bytes self.old i (to_le_bytes w64 w) }
        ensures word { word_at self.new i ≡ w }
        ensures others { ChangesOnly self.old self.new i (i + 8) }
    {
        self.write_bytes(i, &w.to_le_bytes());
    }

    /// Writes `b` to each place from `from` to `to - 1`. `to` must be at most the length.
    pub fn fill(&mut self, from: usize, to: usize, b: u8)
        requires { (from ≤ to) × (to ≤ length self.old) }
        ensures bytes { self.new ≡ with_bytes self.old from (replicate (to - from) b) }
        ensures others { ChangesOnly self.old self.new from to }
    {
        fill_run(self.as_mut_slice(), from, to, b);
    }

    /// Writes `b` to the `count` places from `i` on, 0 to 64, which must end within the length. Where the region goes on for 128 bytes no branch
    /// depends on `count`.
    pub fn fill_few(&mut self, i: usize, count: usize, b: u8)
        requires place { i + count ≤ length self.old }
        requires count { count ≤ 64 }
        ensures bytes { self.new ≡ with_bytes self.old i (replicate count b) }
        ensures others { ChangesOnly self.old self.new i (i + count) }
    {
        fill_few(self.as_mut_slice(), i, i + count, b);
    }

    /// Writes `b` to each place from `from` to `middle - 1`, and 0 to each from there to `to - 1`. `to` must be at most the length.
    pub fn fill_then_clear(&mut self, from: usize, middle: usize, to: usize, b: u8)
        requires { (from ≤ middle) × (middle ≤ to) × (to ≤ length self.old) }
        ensures { self.new
            ≡ with_bytes (with_bytes self.old from (replicate (middle - from) b)) middle (replicate (to - middle) 0) }
    {
        fill_then_clear(self.as_mut_slice(), from, middle, to, b);
    }

    /// Fills `to` with the bytes from place `i` on, in one copy.
    pub fn read_bytes(&self, i: usize, to: &mut [u8])
        requires { i + length to.old ≤ length self.now }
        ensures { to.new ≡ slice_range self.now i (i + length to.old) }
    {
        to.copy_from_slice(&self.as_slice()[i..i + to.len()]);
    }

    /// Fills the first `count` bytes of `to`, 0 to 64, with the bytes from place `i` on. The bytes of `to` after them may change. Where the
    /// region goes on for 64 bytes it copies these at once, so that no branch depends on `count`.
    pub fn read_into(&self, i: usize, count: usize, to: &mut [u8; 64])
        requires place { i + count ≤ length self.now }
        requires count { count ≤ 64 }
        ensures { take count to.new ≡ slice_range self.now i (i + count) }
    {
        let bytes = self.as_slice();
        if bytes.len() - i >= 64 {
            u8x64::from_slice(&bytes[i..]).copy_to_slice(to);
        } else {
            to[..count].copy_from_slice(&bytes[i..i + count]);
        }
    }

    /// Copies `bytes` to the places from `i` on, in one copy.
    pub fn write_bytes(&mut self, i: usize, bytes: &[u8])
        requires { i + length bytes.now ≤ length self.old }
        ensures bytes { self.new ≡ with_bytes self.old i bytes.now }
        ensures others { ChangesOnly self.old self.new i (i + length bytes.now) }
    {
        self.as_mut_slice()[i..i + bytes.len()].copy_from_slice(bytes);
    }

    /// Copies the `count` bytes from place `from` on to the places from `to` on, in one copy. Both runs must end within the length.
    pub fn copy_within(&mut self, from: usize, count: usize, to: usize)
        requires source { from + count ≤ length self.old }
        requires target { to + count ≤ length self.old }
        ensures { self.new ≡ with_bytes self.old to (slice_range self.old from (from + count)) }
    {
        self.as_mut_slice().copy_within(from..from + count, to);
    }

    fn as_slice(&self) -> &[u8]
        ensures value { result.now ≡ self.now }
        ensures range { (1 ≤ length result.now) × (length result.now ≤ 2 ^ 30) }
        ensures bytes { All (λ byte. byte < 2 ^ 8) result.now }
    {
        unsafe { std::slice::from_raw_parts(self.ptr, self.len) }
    }

    fn as_mut_slice(&mut self) -> &mut [u8]
        ensures* writes_back { sem 𝓛 (LendsBytes self.entry result) }
        ensures value { result.now ≡ self.old }
    {
        unsafe { std::slice::from_raw_parts_mut(self.ptr, self.len) }
    }
}
