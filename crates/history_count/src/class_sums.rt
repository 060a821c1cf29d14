//! What a table takes over a history, summed while the history's lines come: no count is kept.
ghost use Rattle.std.specs.Prelude.{◌≡◌, ◌+◌, ◌*◌, ◌<◌, ◌≤◌, ℕ, List, All, IfOk, length, slice_index};
ghost use Rattle.class_table.specs.Tables.{IsLegalTable};
ghost use Rattle.class_table.specs.declared.sizes.TheConstants.{LARGEST_COUNTED};
ghost use Rattle.tuner_theory.specs.declared.most_snapshots.TheConstants.{MOST_SNAPSHOTS};
ghost use Rattle.tuner_theory.specs.Profiles.{greatest_count};
ghost use Rattle.history_count.specs.ClassSums.{Holds, IsAfterLines, end_of_class, sum_of_rows};
ghost use Rattle.history_count.specs.Histories.{empty_snapshots, greatest_of};
ghost use Rattle.history_count.specs.LineSinks.{CanTake};
ghost use Rattle.history_count.specs.Measures.{Measures};

use crate::counted_lines::greatest;
use crate::line_sink::LineSink;
use class_table::{ClassTable, GRANULE_BYTES};
use profile_count::{Profile, class_end};
use std::alloc::{AllocError, Global};

/// What a table takes over a history.
#[derive(Debug, Clone, Copy, PartialEq, Eq)]
pub enum TableFootprint {
    /// The bytes: for each class, its block size times the most blocks of the class that were live at a snapshot; below 2^58.
    Bytes(u64),
    /// The table does not serve the history. This is the least counted size that has no class, in bytes.
    Unserved(u16),
}

/// What the classes of a table take, by the lines that came so far.
#[derive(Drop)]
pub(crate) struct ClassSums<'a> {
    table: &'a ClassTable,
    // how many classes are done: they serve no size of a line that may come
    number: usize,
    // what these take, in bytes
    total: u64,
    // for each snapshot the blocks of the class after them
    blocks: Vec<u64>,
    // for each size the most blocks of it that were live at a snapshot
    peaks: Profile,
}

impl<'a> ClassSums<'a> {
    /// No line, for so many snapshots. The only error is that the allocator refuses memory.
    pub(crate) fn new(
        alloc: Global,
        table: &'a ClassTable,
        count: usize,
    ) -> Result<ClassSums<'a>, AllocError>
        requires some { 1 ≤ count }
        requires few { count ≤ MOST_SNAPSHOTS }
        ensures table { IfOk result (λ sums. sums.table.now ≡ table.now) }
        ensures holds { IfOk result (λ sums. Holds sums (empty_snapshots count) 0) }
    {
        let mut blocks = Vec::new(alloc);
        blocks.resize(count, 0)?;
        Ok(ClassSums {
            table,
            number: 0,
            total: 0,
            blocks,
            peaks: Profile::new(alloc)?,
        })
    }

    /// What the table takes over the history of the lines.
    pub(crate) fn finish(self) -> TableFootprint
        requires { IsAfterLines self }
        ensures { (snapshots : List (List ℕ)) (next : ℕ) → Holds self.entry snapshots next
            → Measures self.entry.table.now snapshots result }
    {
        let mut sums = self;
        if let Some(size) = sums.peaks.unserved(sums.table) {
            return TableFootprint::Unserved(size);
        }
        while sums.number < sums.table.len() {
            sums.close();
        }
        TableFootprint::Bytes(sums.total)
    }

    // The classes that end at this size or before it are done.
    fn close_below(&mut self, size: u32)
        requires { CanTake (Holds self.old) size (length self.old.blocks.items) }
        ensures table { self.new.table.now ≡ self.old.table.now }
        ensures serves { self.new.number < length self.new.table.now
            → size < end_of_class (slice_index self.new.table.now self.new.number) }
        ensures holds { (snapshots : List (List ℕ)) (next : ℕ) → Holds self.old snapshots next → next ≤ size
            → Holds self.new snapshots size }
    {
        while self.number < self.table.len() && class_end(self.table.class(self.number)) <= size {
            self.close();
        }
    }

    // The class after those that are done is done too.
    fn close(&mut self)
        requires legal { IsLegalTable 1 self.old.table.now }
        requires class { self.old.number < length self.old.table.now }
        requires holds { IsAfterLines self.old }
        ensures table { self.new.table.now ≡ self.old.table.now }
        ensures number { self.new.number ≡ self.old.number + 1 }
        ensures holds { (snapshots : List (List ℕ)) (next : ℕ) → Holds self.old snapshots next
            → Holds self.new snapshots (end_of_class (slice_index self.old.table.now self.old.number)) }
    {
        let class = self.table.class(self.number);
        let block_bytes = u64::from(GRANULE_BYTES * u32::from(class));
        self.total += block_bytes * most_of(&self.blocks);
        self.blocks.fill(0);
        self.number += 1;
    }
}

impl LineSink for ClassSums<'_> {
    ghost has_taken = { Holds };

    ghost classes = { λ sums. sums.table.now };

    fn add(&mut self, size: u32, counts: &[u32]) -> Result<(), AllocError> {
        self.close_below(size);
        if self.number < self.table.len() {
            add_row(&mut self.blocks, counts);
        }
        self.peaks.set_count(size, greatest(counts));
        Ok(())
    }
}

// adds a row of counts
fn add_row(blocks: &mut [u64], counts: &[u32])
    requires width { length counts.now ≡ length blocks.old }
    requires few { (k : ℕ) → slice_index blocks.old k ≤ greatest_count * (LARGEST_COUNTED + 1) }
    requires in_range { All (λ count. count ≤ greatest_count) counts.now }
    ensures { blocks.new ≡ sum_of_rows blocks.old counts.now }
{
    for t in 0..counts.len() {
        blocks[t] += u64::from(counts[t]);
    }
}

// the greatest number
fn most_of(blocks: &[u64]) -> u64
    ensures { result ≡ greatest_of blocks.now }
{
    let mut most = 0;
    for number in blocks {
        most = most.max(*number);
    }
    most
}
