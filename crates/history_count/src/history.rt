//! The counts of a history, and what follows from them alone.
ghost use Rattle.std.specs.Prelude.{◌≡◌, ◌<◌, ◌≤◌, ◌^◌, All, length};
ghost use Rattle.tuner_theory.specs.Footprint.{footprint_of};
ghost use Rattle.tuner_theory.specs.Histories.{peaks};
ghost use Rattle.tuner_theory.specs.Profiles.{greatest_count};
ghost use Rattle.tuner_theory.specs.Waste.{Serves};
ghost use Rattle.history_count.specs.CountedLines.{AreLinesOf, HoldsLines, spread};
ghost use Rattle.history_count.specs.Histories.{IsHistory, peak_profile};
ghost use Rattle.tuner_theory.specs.Lists.{lists_of};

use crate::counted_lines::CountedLines;
use crate::footprint::table_bytes;
use class_table::ClassTable;
use profile_count::Profile;
use std::marker::Model;

/// How many blocks of each size up to `LARGEST_COUNTED` were live at each of 1 to 1,024 snapshots, and how many larger ones. Each count is at
/// most 1,000,000,000.
#[derive(Debug, Drop)]
pub struct History {
    lines: CountedLines,
    // for each snapshot a count of the large blocks
    large: Vec<u32>,
}

impl Model for History {
    ghost use Rattle.history_count.specs.CountedLines.{HoldsHistory, spread};
    ghost use Rattle.history_count.specs.Histories.{History as Counted};
    ghost use Rattle.tuner_theory.specs.Lists.{lists_of};

    ghost Value = { Counted };

    ghost view = { λ h. record {
      snapshots = spread h.lines.sizes.items (lists_of h.lines.columns.items);
      large = h.large.items;
    } };

    ghost invariant = { λ h. HoldsHistory h.lines.sizes.items (lists_of h.lines.columns.items) h.large.items
        h.lines.peaks };
}

/// The lines of a history: the sizes that are counted, ascending, in bytes, and for each snapshot a count for each of them.
#[derive(Clone, Copy, Drop)]
pub struct Lines<'a> {
    /// The sizes.
    pub sizes: &'a [u32],
    /// The counts.
    pub columns: &'a [Vec<u32>],
}

impl History {
    /// The history of some lines, with the counts of the large blocks.
    pub(crate) fn new(lines: CountedLines, large: Vec<u32>) -> History
        requires lines { HoldsLines (length large.items) lines.sizes.items (lists_of lines.columns.items) lines.peaks }
        requires large { All (λ count. count ≤ greatest_count) large.items }
        ensures snapshots { result.snapshots ≡ spread lines.sizes.items (lists_of lines.columns.items) }
        ensures large { result.large ≡ large.items }
    {
        History { lines, large }
    }

    /// How many snapshots there are, 1 to 1,024.
    pub fn snapshot_count(&self) -> usize
        ensures count { result ≡ length self.now.snapshots }
        ensures history { IsHistory self.now }
    {
        self.large.len()
    }

    /// The lines. A size that has none is not counted in any snapshot.
    pub fn lines(&self) -> Lines<'_>
        ensures lines { AreLinesOf self.now.snapshots result.sizes.now (lists_of result.columns.now) }
        ensures history { IsHistory self.now }
    {
        Lines {
            sizes: &self.lines.sizes,
            columns: &self.lines.columns,
        }
    }

    /// The most blocks of each size that were live at a snapshot, as a profile. It has no large ones.
    pub fn peaks(&self) -> &Profile
        ensures profile { result.now ≡ peak_profile self.now.snapshots }
        ensures history { IsHistory self.now }
    {
        &self.lines.peaks
    }

    /// How many blocks of larger sizes were live at each snapshot. They count for nothing.
    pub fn large(&self) -> &[u32]
        ensures { result.now ≡ self.now.large }
    {
        &self.large
    }

    /// The bytes that a table takes: for each class, its block size times the most blocks of the class that were live at a snapshot.
    /// The table must serve the history.
    pub fn footprint(&self, table: &ClassTable) -> u64
        requires { Serves (peaks self.now.snapshots) table.now }
        ensures footprint { result ≡ footprint_of self.now.snapshots table.now }
        ensures small { result < 2 ^ 58 }
    {
        table_bytes(&self.lines.sizes, &self.lines.columns, table)
    }
}
