//! What a table takes of memory over a history, a class at a time: as classes ascend, each serves the lines from the end of the one before
//! it.
ghost use Rattle.std.specs.Prelude.{◌≡◌, ◌<◌, ◌≤◌, ◌+◌, ◌-◌, ◌*◌, ◌^◌, ℕ, length, slice_index, All};
ghost use Rattle.class_table.specs.Sizes.{IsBlockSize};
ghost use Rattle.history_count.specs.CountedLines.{AreFew, AreSizes, IsCutAt, spread};
ghost use Rattle.history_count.specs.Histories.{blocks_from};
ghost use Rattle.tuner_theory.specs.Lists.{lists_of};
ghost use Rattle.tuner_theory.specs.Footprint.{footprint_of};
ghost use Rattle.tuner_theory.specs.Histories.{AreSnapshots, most};
ghost use Rattle.tuner_theory.specs.Profiles.{greatest_count};
ghost use Rattle.tuner_theory.specs.Waste.{sum_below};

use class_table::{ClassTable, GRANULE_BYTES, LARGEST_COUNTED};
use profile_count::class_end;
use tuner_theory::GREATEST_COUNT;

/// The bytes that the classes of a table take, each by itself.
pub(crate) fn table_bytes(sizes: &[u32], columns: &[Vec<u32>], table: &ClassTable) -> u64
    requires sizes { AreSizes sizes.now }
    requires columns { AreFew (length sizes.now) (lists_of columns.now) }
    requires snapshots { AreSnapshots (spread sizes.now (lists_of columns.now)) }
    ensures footprint { result ≡ footprint_of (spread sizes.now (lists_of columns.now)) table.now }
    ensures small { result < 2 ^ 58 }
{
    let mut total = 0;
    let mut line = 0;
    for number in 0..table.len() {
        let class = table.class(number);
        let next = line_from(sizes, line, class_end(class));
        let block_bytes = u64::from(GRANULE_BYTES * u32::from(class));
        total += block_bytes * most_between(columns, line, next);
        line = next;
    }
    total
}

/// The first line from `start` on whose size is not below `end` bytes, and how many lines there are if none is. The sizes must be those of
/// a history's lines, and those of the lines before `start` must be below `end`.
pub fn line_from(sizes: &[u32], start: usize, end: u32) -> usize
    requires sizes { AreSizes sizes.now }
    requires within { start ≤ length sizes.now }
    requires below { (k : ℕ) → k < start → slice_index sizes.now k < end }
    ensures cut { IsCutAt sizes.now result end }
    ensures order { start ≤ result }
{
    let mut line = start;
    while line < sizes.len() && sizes[line] < end {
        line += 1;
    }
    line
}

/// The most blocks of the lines from `start` to `stop - 1` that are live at a snapshot.
pub(crate) fn most_between(columns: &[Vec<u32>], start: usize, stop: usize) -> u64
    requires long { All (λ column. stop ≤ length column) (lists_of columns.now) }
    requires few { All (λ column. (k : ℕ) → slice_index column k ≤ greatest_count) (lists_of columns.now) }
    requires order { start ≤ stop }
    requires stop { stop ≤ LARGEST_COUNTED + 1 }
    ensures most { result ≡ most (blocks_from start stop) (lists_of columns.now) }
    ensures small { result ≤ GREATEST_COUNT * (stop - start) }
{
    let mut most = 0;
    for t in 0..columns.len() {
        most = most.max(blocks_between(&columns[t], start, stop));
    }
    most
}

/// How many blocks of the lines from `start` to `stop - 1` are live at a snapshot, by its column of counts. Each count must be at most
/// 1,000,000,000, and `stop` at most 16,369.
pub fn blocks_between(column: &[u32], start: usize, stop: usize) -> u64
    requires size { stop ≤ length column.now }
    requires few { (k : ℕ) → slice_index column.now k ≤ greatest_count }
    requires order { start ≤ stop }
    requires stop { stop ≤ LARGEST_COUNTED + 1 }
    ensures blocks { result ≡ blocks_from start stop column.now }
    ensures small { result ≤ GREATEST_COUNT * (stop - start) }
{
    let mut total = 0;
    for k in start..stop {
        total += u64::from(column[k]);
    }
    total
}
