//! A history of rows of counts, one row for each snapshot.
ghost use Rattle.std.specs.Prelude.{◌≡◌, ◌+◌, ◌<◌, IfOk, length, slice_index};
ghost use Rattle.tuner_theory.specs.Histories.{AreSnapshots, most};
ghost use Rattle.tuner_theory.specs.Lists.{lists_of};
ghost use Rattle.history_count.specs.CountedLines.{AreFew, AreSizes, spread};

use crate::counted_lines::CountedLines;
use crate::footprint::most_between;
use crate::history::History;
use profile_count::{Profile, no_counts};
use std::alloc::{AllocError, Global};

impl History {
    /// The history of some sizes, which ascend: each row has a count for each of them at one of 1 to 1,024 snapshots. No large blocks are
    /// counted. The only error is that the allocator refuses memory.
    pub(crate) fn of_rows(
        alloc: Global,
        sizes: &[u32],
        rows: Vec<Vec<u32>>,
    ) -> Result<History, AllocError>
        requires sizes { AreSizes sizes.now }
        requires rows { AreFew (length sizes.now) (lists_of rows.items) }
        requires snapshots { AreSnapshots (spread sizes.now (lists_of rows.items)) }
        ensures { IfOk result (λ history. history.snapshots ≡ spread sizes.now (lists_of rows.items)) }
    {
        let mut peaks = Profile::new(alloc)?;
        for line in 0..sizes.len() {
            peaks.set_count(sizes[line], most_between(&rows, line, line + 1) as u32);
        }
        let large = no_counts(alloc, rows.len())?;
        let lines = CountedLines {
            sizes: Vec::from_slice(alloc, sizes)?,
            columns: rows,
            peaks,
        };
        Ok(History::new(lines, large))
    }
}
