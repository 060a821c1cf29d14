//! What keeps the quarantine's queue. The law is the contract of a function that does nothing.
ghost use Rattle.class_table.specs.Layout.{Partition, slot_count};
ghost use Rattle.heap_theory.specs.Region.{Region, next_in};
ghost use Rattle.quarantine_core.specs.Queue.{AreQueued, Queue};
ghost use Rattle.std.specs.Prelude.{◌≡◌, ◌≤◌, ℕ, Contains, List, length};

/// The links show at most one queue, and end after as many steps as the layout has slots, or fewer. The queue stays the same under each change
/// that keeps the links of its slots: of granules and tags, of other headers, and of other fields of headers.
pub fn law_queue()
    ensures one { (value : Queue) (layout : Partition) (region : Region) (queue other : List ℕ) →
        AreQueued value layout region queue → AreQueued value layout region other → queue ≡ other }
    ensures short { (value : Queue) (layout : Partition) (region : Region) (queue : List ℕ) →
        AreQueued value layout region queue → length queue ≤ slot_count layout }
    ensures stays { (value : Queue) (layout : Partition) (region new : Region) (queue : List ℕ) →
        AreQueued value layout region queue → ((s : ℕ) → Contains queue s → next_in new s ≡ next_in region s) →
        AreQueued value layout new queue }
{}
