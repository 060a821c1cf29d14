//! The lines of a history while they are read: the sizes that are counted, and for each snapshot a count for each of them.
ghost use Rattle.std.specs.Prelude.{◌≡◌, ◌<◌, ◌≤◌, ◌+◌, ◌-◌, ◌++◌, ℕ, [], List, All, IfOk, OnOk, length, replicate, slice_index, slice_index_or};
ghost use Rattle.std.specs.Prelude.{slice_set, take};
ghost use Rattle.class_table.specs.declared.sizes.TheConstants.{LARGEST_COUNTED};
ghost use Rattle.tuner_theory.specs.Profiles.{greatest_count};
ghost use Rattle.tuner_theory.specs.Lists.{lists_of};
ghost use Rattle.tuner_theory.specs.declared.most_snapshots.TheConstants.{MOST_SNAPSHOTS};
ghost use Rattle.history_count.specs.CountedLines.{HaveRoom, SpellLines, SpellSoFar, first_counts};
ghost use Rattle.history_count.specs.Histories.{empty_snapshots, greatest_of, with_counts};
ghost use Rattle.history_count.specs.LineSinks.{CanTake};

use crate::line_sink::LineSink;
use class_table::LARGEST_COUNTED;
use profile_count::Profile;
use std::alloc::{AllocError, Global};
use tuner_theory::MOST_SNAPSHOTS;

/// The lines that were read.
#[derive(Debug, Drop)]
pub(crate) struct CountedLines {
    // ascending, in bytes
    pub(crate) sizes: Vec<u32>,
    // for each snapshot a count for each of the sizes; while lines come, with room for more of them
    pub(crate) columns: Vec<Vec<u32>>,
    // for each size the most blocks of it that were live at a snapshot
    pub(crate) peaks: Profile,
}

// for how many lines more the columns get room at once
const ROOM: usize = 64;

impl CountedLines {
    /// No line, for so many snapshots, with memory for so many lines. The only error is that the allocator refuses memory.
    pub(crate) fn new(alloc: Global, count: usize, room: usize) -> Result<CountedLines, AllocError>
        requires some { 1 ≤ count }
        requires few { count ≤ MOST_SNAPSHOTS }
        ensures { IfOk result (λ lines. SpellSoFar lines.sizes.items (lists_of lines.columns.items) lines.peaks
            (empty_snapshots count) 0) }
    {
        let mut columns = Vec::with_capacity(alloc, count)?;
        for _ in 0..count {
            columns.push(Vec::with_capacity(alloc, room)?)?;
        }
        Ok(CountedLines {
            sizes: Vec::new(alloc),
            columns,
            peaks: Profile::new(alloc)?,
        })
    }

    /// After the last line: leaves out the room for more. The only error is that the allocator refuses memory.
    pub(crate) fn close(&mut self) -> Result<(), AllocError>
        ensures { OnOk result ((snapshots : List (List ℕ)) (next : ℕ)
            → SpellSoFar self.old.sizes.items (lists_of self.old.columns.items) self.old.peaks snapshots next
            → SpellLines self.new.sizes.items (lists_of self.new.columns.items) self.new.peaks snapshots) }
    {
        let lines = self.sizes.len();
        resize_columns(&mut self.columns, lines)?;
        Ok(())
    }

    // Adds the line of a size, with a count for each snapshot. The size must not be below the least that may come. The only error is that the
    // allocator refuses memory.
    fn add_line(&mut self, size: u32, counts: &[u32]) -> Result<(), AllocError>
        requires can_take { let lines = self.old in
            CanTake (SpellSoFar lines.sizes.items (lists_of lines.columns.items) lines.peaks) size (length counts.now) }
        requires size { size ≤ LARGEST_COUNTED }
        requires in_range { All (λ count. count ≤ greatest_count) counts.now }
        ensures { OnOk result ((snapshots : List (List ℕ)) (next : ℕ)
            → SpellSoFar self.old.sizes.items (lists_of self.old.columns.items) self.old.peaks snapshots next
            → next ≤ size → length snapshots ≡ length counts.now
            → SpellSoFar self.new.sizes.items (lists_of self.new.columns.items) self.new.peaks
            (with_counts snapshots size counts.now) (size + 1)) }
    {
        let line = self.sizes.len();
        make_room(&mut self.columns, line)?;
        self.sizes.push(size)?;
        set_counts(&mut self.columns, line, counts);
        self.peaks.set_count(size, greatest(counts));
        Ok(())
    }
}

impl LineSink for CountedLines {
    ghost has_taken = { λ lines snapshots next.
        SpellSoFar lines.sizes.items (lists_of lines.columns.items) lines.peaks snapshots next };

    ghost classes = { λ lines. [] };

    fn add(&mut self, size: u32, counts: &[u32]) -> Result<(), AllocError> {
        self.add_line(size, counts)
    }
}

// gives the columns room for one line more than so many
fn make_room(columns: &mut Vec<Vec<u32>>, lines: usize) -> Result<(), AllocError>
    requires some { 0 < length columns.old.items }
    requires few { lines ≤ LARGEST_COUNTED + 1 }
    requires room { HaveRoom lines (lists_of columns.old.items) }
    ensures room { OnOk result (HaveRoom (lines + 1) (lists_of columns.new.items)) }
    ensures kept { OnOk result
        (first_counts lines (lists_of columns.new.items) ≡ first_counts lines (lists_of columns.old.items)) }
{
    if lines < columns[0].len() {
        return Ok(());
    }
    resize_columns(columns, lines + ROOM)?;
    Ok(())
}

// gives each column so much room, and leaves out the counts after it
fn resize_columns(columns: &mut Vec<Vec<u32>>, room: usize) -> Result<(), AllocError>
    ensures wide { OnOk result (All (λ column. length column ≡ room) (lists_of columns.new.items)) }
    ensures kept { OnOk result ((n : ℕ) → n ≤ room → All (λ column. n ≤ length column) (lists_of columns.old.items)
        → first_counts n (lists_of columns.new.items) ≡ first_counts n (lists_of columns.old.items)) }
{
    for t in 0..columns.len() {
        resize_column(columns, t, room)?;
    }
    Ok(())
}

// gives one column so much room
fn resize_column(columns: &mut Vec<Vec<u32>>, t: usize, room: usize) -> Result<(), AllocError>
    requires { t < length columns.old.items }
    ensures { OnOk result (let column = slice_index_or (lists_of columns.old.items) t [] in lists_of columns.new.items
        ≡ slice_set (lists_of columns.old.items) t (take room column ++ replicate (room - length column) 0)) }
{
    columns[t].resize(room, 0)?;
    Ok(())
}

// sets the count of a line in each column
fn set_counts(columns: &mut Vec<Vec<u32>>, line: usize, counts: &[u32])
    requires width { length counts.now ≡ length columns.old.items }
    requires room { All (λ column. line < length column) (lists_of columns.old.items) }
    ensures { lists_of columns.new.items ≡ with_counts (lists_of columns.old.items) line counts.now }
{
    for t in 0..counts.len() {
        set_count(columns, t, line, counts[t]);
    }
}

// sets the count of a line in one column
fn set_count(columns: &mut Vec<Vec<u32>>, t: usize, line: usize, count: u32)
    requires column { t < length columns.old.items }
    requires line { line < length (slice_index_or (lists_of columns.old.items) t []) }
    ensures { lists_of columns.new.items ≡ slice_set (lists_of columns.old.items) t
        (slice_set (slice_index_or (lists_of columns.old.items) t []) line count) }
{
    columns[t][line] = count;
}

/// The greatest of the counts, and 0 if there are none.
pub(crate) fn greatest(counts: &[u32]) -> u32
    ensures { result ≡ greatest_of counts.now }
{
    let mut most = 0;
    for count in counts {
        most = most.max(*count);
    }
    most
}
