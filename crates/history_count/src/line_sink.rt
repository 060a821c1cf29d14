//! What takes the lines of a history as they are read.
ghost use Rattle.std.specs.Prelude.{◌≡◌, ◌+◌, ◌≤◌, ℕ, List, All, OnOk, length};
ghost use Rattle.class_table.specs.declared.sizes.TheConstants.{LARGEST_COUNTED};
ghost use Rattle.tuner_theory.specs.Profiles.{greatest_count};
ghost use Rattle.history_count.specs.Histories.{with_counts};
ghost use Rattle.history_count.specs.LineSinks.{CanTake};

use std::alloc::AllocError;

/// Takes the lines of a history.
pub(crate) trait LineSink {
    // The lines that it took spell these snapshots, and their sizes are below this one.
    ghost has_taken: { Self → List (List ℕ) → ℕ → Type 0 };

    // The classes that it sums by, which stay the same; a sink that keeps the lines has none.
    ghost classes: { Self → List ℕ };

    /// Takes the line of a size, with a count for each snapshot. The size must not be below the least that may come. The only error is that
    /// the allocator refuses memory.
    fn add(&mut self, size: u32, counts: &[u32]) -> Result<(), AllocError>
        requires can_take { CanTake (has_taken self.old) size (length counts.now) }
        requires size { size ≤ LARGEST_COUNTED }
        requires in_range { All (λ count. count ≤ greatest_count) counts.now }
        ensures classes { OnOk result (classes self.new ≡ classes self.old) }
        ensures taken { OnOk result ((snapshots : List (List ℕ)) (next : ℕ) → has_taken self.old snapshots next
            → next ≤ size → length snapshots ≡ length counts.now
            → has_taken self.new (with_counts snapshots size counts.now) (size + 1)) };
}
