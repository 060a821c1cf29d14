ghost use Rattle.chunk_header.specs.Links.{SetsLink};
ghost use Rattle.class_lists.specs.Lists.{ShowsList, TakesFirst};
ghost use Rattle.class_table.specs.Layout.{IsClassOf, slot_count, slot_of};
ghost use Rattle.heap_theory.specs.Region.{Region, region_of};
ghost use Rattle.std.specs.Option.{option_map};
ghost use Rattle.std.specs.Prelude.{◌≡◌, ◌+◌, ◌<◌, ◌≤◌, ℕ, List, [], ◌∷◌, length, drop, replicate, slice_get, slice_index, slice_set, Contains, IfNone, IfSome, Some};

use arrayvec::ArrayVec;
use chunk_header::{set_link, unlink};
use class_table::{Layout, MOST_CLASSES, Slot};
use granule_memory::Memory;
use std::marker::Model;

/// A list of released slots for each class of a layout. Contracts see it as the fronts of the lists, by the classes' numbers: a front is
/// the number of the list's first slot plus one, or 0 if the list is empty. Each slot's header has the link to the next slot. So the lists
/// take no memory of their own, and each call needs the memory and the layout that they belong to.
#[derive(Debug, Drop)]
pub struct ClassLists {
    fronts: ArrayVec<u32, MOST_CLASSES>,
}

impl Model for ClassLists {
    ghost use Rattle.std.specs.Prelude.{List, ℕ};

    ghost Value = { List ℕ };

    ghost view = { λ lists. lists.fronts.items };
}

impl ClassLists {
    /// An empty list for each class of the layout, whatever the memory holds.
    pub fn new(layout: &Layout) -> ClassLists
        ensures fronts { result ≡ replicate (length layout.now.classes) 0 }
        ensures empty { (region : Region) (number : ℕ) → ShowsList region (slice_index result number) [] }
    {
        let mut fronts = ArrayVec::new();
        for _ in 0..layout.classes() {
            fronts.push(0);
        }
        ClassLists { fronts }
    }

    /// Puts a slot of the layout in front of the list of a class, given by its number, so that it is the next to be popped.
    /// The slot must be in no list. The caller has to know that it is of that class.
    /// Of the memory only the slot's link changes.
    pub fn push(&mut self, memory: &mut Memory, layout: &Layout, number: usize, slot: u32)
        requires number { number < length self.old }
        requires slot { slot < slot_count layout.now }
        requires granules { length memory.old ≡ layout.now.granules }
        ensures front { self.new ≡ slice_set self.old number (slot + 1) }
        ensures link { SetsLink layout.now memory.old memory.new slot (slice_index self.old number) }
        ensures pushed { (list : List ℕ) →
            ShowsList (region_of layout.now memory.old) (slice_index self.old number) list →
            (Contains list slot → ⊥) → ShowsList (region_of layout.now memory.new) (slot + 1) (slot ∷ list) }
        ensures others { (front : ℕ) (list : List ℕ) → ShowsList (region_of layout.now memory.old) front list →
            (Contains list slot → ⊥) → ShowsList (region_of layout.now memory.new) front list }
    {
        prove!(slot < layout.slots());
        set_link(memory, layout, slot, self.front(number));
        self.set_front(number, slot + 1);
    }

    /// Takes the first slot off the list of a class, given by its number. `None` if the list is empty.
    /// The front of the list must be 0, or the number of a slot of the layout plus one, as that of each list that the links show is
    /// (`front_within`). The slot's link becomes 0, and nothing else of the memory changes.
    pub fn pop(&mut self, memory: &mut Memory, layout: &Layout, number: usize) -> Option<u32>
        requires number { number < length self.old }
        requires front { slice_index self.old number ≤ slot_count layout.now }
        requires granules { length memory.old ≡ layout.now.granules }
        ensures none { IfNone result (slice_index self.old number ≡ 0) }
        ensures same { IfNone result ((self.new ≡ self.old) × (memory.new ≡ memory.old)) }
        ensures taken { IfSome result
            (λ slot. TakesFirst layout.now memory.old memory.new self.old self.new number slot) }
        ensures popped { (list : List ℕ) →
            ShowsList (region_of layout.now memory.old) (slice_index self.old number) list →
            (result ≡ slice_get list 0)
            × ShowsList (region_of layout.now memory.new) (slice_index self.new number) (drop 1 list) }
        ensures others { (front : ℕ) (list : List ℕ) → ShowsList (region_of layout.now memory.old) front list →
            IfSome result (λ slot. Contains list slot → ⊥) → ShowsList (region_of layout.now memory.new) front list }
    {
        let front = self.front(number);
        if front == 0 {
            return None;
        }
        let slot = front - 1;
        let start = layout.start(slot);
        self.take_first(memory, layout, number, slot, start);
        Some(slot)
    }

    /// As `pop`, with the granule and the class of the slot, and without a search for them: the first slot of the list must be of that class.
    pub fn pop_place(
        &mut self,
        memory: &mut Memory,
        layout: &Layout,
        number: usize,
    ) -> Option<(u32, Slot)>
        requires number { number < length self.old }
        requires class { (s : ℕ) → slice_index self.old number ≡ s + 1 → IsClassOf layout.now s number }
        requires granules { length memory.old ≡ layout.now.granules }
        ensures none { IfNone result (slice_index self.old number ≡ 0) }
        ensures same { IfNone result ((self.new ≡ self.old) × (memory.new ≡ memory.old)) }
        ensures taken { IfSome result
            (λ found. TakesFirst layout.now memory.old memory.new self.old self.new number found.0) }
        ensures place { IfSome result (λ found.
            (found.1.start ≡ (slot_of layout.now found.0).start)
            × (found.1.class ≡ (slot_of layout.now found.0).class)) }
        ensures popped { (list : List ℕ) →
            ShowsList (region_of layout.now memory.old) (slice_index self.old number) list →
            (option_map (λ found. found.0) result ≡ slice_get list 0)
            × ShowsList (region_of layout.now memory.new) (slice_index self.new number) (drop 1 list) }
        ensures others { (front : ℕ) (list : List ℕ) → ShowsList (region_of layout.now memory.old) front list →
            IfSome result (λ found. Contains list found.0 → ⊥)
            → ShowsList (region_of layout.now memory.new) front list }
    {
        let front = self.front(number);
        if front == 0 {
            return None;
        }
        let slot = front - 1;
        let place = layout.slot_of_class(number, slot);
        self.take_first(memory, layout, number, slot, place.start);
        Some((slot, place))
    }

    // takes this slot, the first of the list, off it; `start` is its header granule
    fn take_first(
        &mut self,
        memory: &mut Memory,
        layout: &Layout,
        number: usize,
        slot: u32,
        start: u32,
    )
        requires first { (number < length self.old) × (slice_index self.old number ≡ slot + 1) }
        requires slot { slot < slot_count layout.now }
        requires start { start ≡ (slot_of layout.now slot).start }
        requires granules { length memory.old ≡ layout.now.granules }
        ensures taken { TakesFirst layout.now memory.old memory.new self.old self.new number slot }
        ensures popped { (list : List ℕ) →
            ShowsList (region_of layout.now memory.old) (slice_index self.old number) list →
            (Some slot ≡ slice_get list 0)
            × ShowsList (region_of layout.now memory.new) (slice_index self.new number) (drop 1 list) }
        ensures others { (front : ℕ) (list : List ℕ) → ShowsList (region_of layout.now memory.old) front list →
            (Contains list slot → ⊥) → ShowsList (region_of layout.now memory.new) front list }
    {
        let next = unlink(memory, layout, slot, start);
        self.set_front(number, next);
    }

    /// The front of the list of a class, given by its number: the number of the list's first slot plus one, or 0 if the list is empty.
    pub fn front(&self, number: usize) -> u32
        requires { number < length self.now }
        ensures { result ≡ slice_index self.now number }
    {
        self.fronts[number]
    }

    /// Sets the front of the list of a class, given by its number, and changes no link. With the slot's number plus one it completes what
    /// `push` does, where the caller wrote the slot's header with the old front as its link.
    pub fn set_front(&mut self, number: usize, front: u32)
        requires { number < length self.old }
        ensures { self.new ≡ slice_set self.old number front }
    {
        self.fronts[number] = front;
    }
}
