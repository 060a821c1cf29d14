ghost use Rattle.chunk_header.specs.Links.{SetsLink};
ghost use Rattle.class_table.specs.Layout.{slot_of};
ghost use Rattle.heap_theory.specs.Links.{IsLinked};
ghost use Rattle.heap_theory.specs.Region.{Region, next_in, region_of};
ghost use Rattle.quarantine_core.specs.Queue.{
  AreQueued,
  CanBePut,
  LinksStand,
  TakesOldest,
  with_newest,
};
ghost use Rattle.std.specs.Prelude.{◌≡◌, ◌≢◌, ◌↔◌, ◌<◌, [], ◌∷◌, ◌++◌, length, suc, Contains, IfNone, IfSome, IsSome, List, ℕ};

use chunk_header::{set_link_at, unlink};
use class_table::{FEWEST_GRANULES, GRANULE_BYTES, Layout, MOST_SLOTS};
use granule_memory::Memory;
use std::marker::Model;

/// Freed slots that are held back, oldest first, and the bytes of their blocks. The queue stands in the slots' own headers: each slot's
/// link names the slot that was put in next, and the last slot's link is 0. The quarantine takes no memory of its own, and no call walks
/// the queue.
///
/// Each call needs the memory whose headers hold the links, and its layout.
#[derive(Debug, Drop)]
pub struct Quarantine {
    front: u32,
    back: u32,
    // the header granule of the slot that was put in last
    back_start: u32,
    held: u64,
    limit: u32,
}

impl Model for Quarantine {
    ghost use Rattle.quarantine_core.specs.Queue.{Queue};

    ghost Value = { Queue };

    ghost view = { λ q. record {
      front = q.front;
      back = q.back;
      back_start = q.back_start;
      held = q.held;
      limit = q.limit;
    } };
}

impl Quarantine {
    /// An empty quarantine. It releases nothing until its blocks exceed `limit` bytes. The contract alone needs the layout.
    pub fn new(_layout: &Layout, limit: u32) -> Quarantine
        ensures value { result ≡ record { front = 0; back = 0; back_start = 0; held = 0; limit = limit } }
        ensures queued { (region : Region) → AreQueued result _layout.now region [] }
    {
        Quarantine {
            front: 0,
            back: 0,
            back_start: 0,
            held: 0,
            limit,
        }
    }

    /// The bytes of the blocks in it.
    pub fn held_bytes(&self) -> u64
        ensures { result ≡ self.now.held }
    {
        self.held
    }

    /// Puts a slot of the layout in, after all others. Its block has `bytes` bytes. The slot must not be in the quarantine, and its link
    /// must be 0. Of the memory only the link of the slot that was put in before it changes.
    pub fn put(&mut self, memory: &mut Memory, layout: &Layout, slot: u32, bytes: u32)
        requires { CanBePut self.old layout.now memory.old slot bytes }
        ensures queued { (queue : List ℕ) → AreQueued self.old layout.now (region_of layout.now memory.old) queue →
            AreQueued self.new layout.now (region_of layout.now memory.new) (queue ++ slot ∷ []) }
        ensures linked { LinksStand self.new layout.now (region_of layout.now memory.new) }
        ensures value { self.new ≡ with_newest self.old slot (slot_of layout.now slot).start bytes }

        // what changes in the memory
        ensures first { self.old.back ≡ 0 → memory.new ≡ memory.old }
        ensures after { (last : ℕ) → self.old.back ≡ suc last →
            SetsLink layout.now memory.old memory.new last (suc slot) }
        ensures lists { (front : ℕ) (list : List ℕ) → ((s : ℕ) → Contains list s → self.old.back ≢ suc s) →
            IsLinked (next_in (region_of layout.now memory.old)) front list →
            IsLinked (next_in (region_of layout.now memory.new)) front list }
        ensures region { length memory.new ≡ layout.now.granules }
    {
        self.put_at(memory, layout, slot, layout.start(slot), bytes);
    }

    /// As `put`, without a search for where the slot begins: `start` must be its header granule (`Layout::slot`).
    #[tactic(auto, using(crate::proofs::TheoryLemmas::each_once, crate::proofs::Blocks::few_bytes))]
    pub fn put_at(
        &mut self,
        memory: &mut Memory,
        layout: &Layout,
        slot: u32,
        start: u32,
        bytes: u32,
    )
        requires can { CanBePut self.old layout.now memory.old slot bytes }
        requires start { start ≡ (slot_of layout.now slot).start }
        ensures queued { (queue : List ℕ) → AreQueued self.old layout.now (region_of layout.now memory.old) queue →
            AreQueued self.new layout.now (region_of layout.now memory.new) (queue ++ slot ∷ []) }
        ensures linked { LinksStand self.new layout.now (region_of layout.now memory.new) }
        ensures value { self.new ≡ with_newest self.old slot start bytes }

        // what changes in the memory
        ensures first { self.old.back ≡ 0 → memory.new ≡ memory.old }
        ensures after { (last : ℕ) → self.old.back ≡ suc last →
            SetsLink layout.now memory.old memory.new last (suc slot) }
        ensures lists { (front : ℕ) (list : List ℕ) → ((s : ℕ) → Contains list s → self.old.back ≢ suc s) →
            IsLinked (next_in (region_of layout.now memory.old)) front list →
            IsLinked (next_in (region_of layout.now memory.new)) front list }
        ensures region { length memory.new ≡ layout.now.granules }
    {
        prove!(layout.granules() >= FEWEST_GRANULES);
        prove!(layout.slots() <= MOST_SLOTS);
        if self.back == 0 {
            self.front = slot + 1;
        } else {
            set_link_at(memory, layout, self.back - 1, self.back_start, slot + 1);
        }
        self.back = slot + 1;
        self.back_start = start;
        self.held += u64::from(bytes);
    }

    /// Takes off the slot that was put in first, if the blocks exceed the limit. Otherwise it returns `None` and changes nothing. Of the
    /// memory only the slot's own link changes: it becomes 0.
    pub fn next_out(&mut self, memory: &mut Memory, layout: &Layout) -> Option<u32>
        requires region { length memory.old ≡ layout.now.granules }
        requires linked { LinksStand self.old layout.now (region_of layout.now memory.old) }
        ensures over { IsSome result ↔ (self.old.limit < self.old.held) }
        ensures linked { LinksStand self.new layout.now (region_of layout.now memory.new) }
        ensures same { IfNone result ((self.new ≡ self.old) × (memory.new ≡ memory.old)) }
        ensures oldest { IfSome result
            (λ slot. TakesOldest self.old self.new layout.now memory.old memory.new slot) }
        ensures region { length memory.new ≡ layout.now.granules }
    {
        let (slot, _) = self.next_out_at(memory, layout)?;
        Some(slot)
    }

    /// As `next_out`, with the slot's header granule.
    pub fn next_out_at(&mut self, memory: &mut Memory, layout: &Layout) -> Option<(u32, u32)>
        requires region { length memory.old ≡ layout.now.granules }
        requires linked { LinksStand self.old layout.now (region_of layout.now memory.old) }
        ensures over { IsSome result ↔ (self.old.limit < self.old.held) }
        ensures linked { LinksStand self.new layout.now (region_of layout.now memory.new) }
        ensures same { IfNone result ((self.new ≡ self.old) × (memory.new ≡ memory.old)) }
        ensures oldest { IfSome result
            (λ out. TakesOldest self.old self.new layout.now memory.old memory.new out.0) }
        ensures start { IfSome result (λ out. out.1 ≡ (slot_of layout.now out.0).start) }
        ensures region { length memory.new ≡ layout.now.granules }
    {
        if self.held <= u64::from(self.limit) {
            return None;
        }
        Some(self.take_oldest(memory, layout))
    }

    // takes off the slot that was put in first, and returns it with its header granule; the quarantine must hold some bytes
    fn take_oldest(&mut self, memory: &mut Memory, layout: &Layout) -> (u32, u32)
        requires region { length memory.old ≡ layout.now.granules }
        requires linked { LinksStand self.old layout.now (region_of layout.now memory.old) }
        requires some { 0 < self.old.held }
        ensures oldest { TakesOldest self.old self.new layout.now memory.old memory.new result.0 }
        ensures start { result.1 ≡ (slot_of layout.now result.0).start }
        ensures linked { LinksStand self.new layout.now (region_of layout.now memory.new) }
        ensures region { length memory.new ≡ layout.now.granules }
    {
        let slot = self.front - 1;
        let place = layout.slot(slot);
        self.held -= u64::from(GRANULE_BYTES * place.class);
        let next = unlink(memory, layout, slot, place.start);
        if next == 0 {
            self.back = 0;
        }
        self.front = next;
        (slot, place.start)
    }
}
