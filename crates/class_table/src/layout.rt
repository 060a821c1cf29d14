ghost use Rattle.std.specs.Prelude.{◌≡◌, ◌+◌, ◌*◌, ◌/◌, ◌^◌, ◌<◌, ◌≤◌, length, slice_get, slice_index, IfNone, IfSome, None, Some};
ghost use Rattle.class_table.specs.Sizes.{IsBlockSize};
ghost use Rattle.class_table.specs.Layout.{IsClassOf, IsPartition, block_bytes, first_slot, share_of, slot_count, slot_of, slot_over};
ghost use Rattle.class_table.specs.Tables.{class_number_for, loss_of_size};

use crate::counts::{COUNTS, count_below_last, counts_at};
use crate::sizes::{GRANULE_BYTES, LARGEST_COUNTED, SMALLEST_CLASS, payload_bytes};
use crate::table::{ClassTable, MOST_CLASSES};
use arrayvec::ArrayVec;
use std::marker::Model;

/// The fewest granules of a region. `tagged_heap` is proved only if `machine_theory` has the same bounds.
pub const FEWEST_GRANULES: u32 = 64;

/// The most granules of a region.
pub const MOST_GRANULES: u32 = 262_144;

/// The most slots of a region.
pub const MOST_SLOTS: u32 = MOST_GRANULES / SMALLEST_CLASS as u32;

// the first slots of all classes, and after them the number of slots
const MOST_FIRSTS: usize = MOST_CLASSES + 1;

// The step of the counts of first slots is a power of 2, at most this one: 128 times 1,024 slots are the most of a region.
const LARGEST_SHIFT: u32 = 7;

/// Where a slot lies: its first granule, which is its header, and its class, the number of its granules.
#[derive(Clone, Copy, Debug, PartialEq, Eq)]
pub struct Slot {
    /// Its first granule.
    pub start: u32,
    /// Its granules, 2 to 1024.
    pub class: u32,
}

/// Where the slots of a region lie. Each class of a table has an equal share of the region's granules, and as many slots as fit there.
/// Slots are numbered from 0 in address order. A slot's first granule is its header. A layout takes no memory.
#[derive(Debug, Drop)]
pub struct Layout {
    classes: ArrayVec<u32, MOST_CLASSES>,
    firsts: ArrayVec<u32, MOST_FIRSTS>,
    share: u32,
    granules: u32,
    // the classes up to each number of granules
    class_counts: [u8; COUNTS],
    // the first slots up to each number of a slot that is a multiple of 2 to the power of `slot_shift`
    slot_counts: [u8; COUNTS],
    slot_shift: u32,
}

impl Model for Layout {
    ghost use Rattle.class_table.specs.Layout.{Partition};
    ghost use Rattle.class_table.specs.LayoutView.{IsLayout, partition_of};

    ghost Value = { Partition };

    ghost view = { partition_of };

    ghost invariant = { IsLayout };
}

impl Layout {
    /// The layout of a region of `granules` granules, 64 to 262,144, for the classes of a table.
    pub fn new(table: &ClassTable, granules: u32) -> Layout
        requires least { FEWEST_GRANULES ≤ granules }
        requires most { granules ≤ MOST_GRANULES }
        ensures { result ≡ record { classes = table.now; granules = granules } }
    {
        let share = share_of_each(table.len(), granules);
        let mut classes = ArrayVec::new();
        let mut firsts = ArrayVec::new();
        let mut slots = 0;
        for number in 0..table.len() {
            let class = u32::from(table.class(number));
            classes.push(class);
            firsts.push(slots);
            slots += share / class;
        }
        firsts.push(slots);
        let slot_shift = shift_for(slots);
        Layout {
            class_counts: counts_at(&classes, 1),
            slot_counts: counts_at(&firsts, 1 << slot_shift),
            slot_shift,
            classes,
            firsts,
            share,
            granules,
        }
    }

    /// The granules of the region.
    pub fn granules(&self) -> u32
        ensures granules { result ≡ self.now.granules }
        ensures partition { IsPartition self.now }
    {
        self.granules
    }

    /// How many classes share the region.
    pub fn classes(&self) -> usize
        ensures classes { result ≡ length self.now.classes }
        ensures partition { IsPartition self.now }
    {
        self.classes.len()
    }

    /// The class of this number, counted from 0, in granules.
    pub fn class(&self, number: usize) -> u32
        requires { number < length self.now.classes }
        ensures class { result ≡ slice_index self.now.classes number }
        ensures in_range { IsBlockSize result }
    {
        self.classes[number]
    }

    /// The number of the least class that serves a request of `n` bytes, counted from 0. `None` if no class serves it.
    pub fn find(&self, n: u32) -> Option<usize>
        ensures number { result ≡ class_number_for self.now.classes n }
        ensures within { IfSome result (λ number. number < length self.now.classes) }
    {
        let classes = self.classes.len();
        // a class serves n bytes exactly if it has more granules than they fill: the header takes one
        let granules = n.div_ceil(GRANULE_BYTES);
        if granules as usize >= COUNTS {
            return None;
        }
        let number = usize::from(self.class_counts[granules as usize]);
        if number < classes { Some(number) } else { None }
    }

    /// How many slots the region has.
    pub fn slots(&self) -> u32
        ensures slots { result ≡ slot_count self.now }
        ensures few { result ≤ MOST_SLOTS }
    {
        self.first_slot(self.classes())
    }

    /// The number of the first slot of a class, given by the class's number, counted from 0. For the number of classes it is the number of
    /// slots.
    pub fn first_slot(&self, number: usize) -> u32
        requires { number ≤ length self.now.classes }
        ensures first { result ≡ first_slot self.now number }
        ensures few { result ≤ MOST_SLOTS }
    {
        self.firsts[number]
    }

    /// The number of a slot's class, counted from 0.
    pub fn class_of(&self, slot: u32) -> usize
        requires { slot < slot_count self.now }
        ensures class { slice_get self.now.classes result ≡ Some (slot_of self.now slot).class }
        ensures from { first_slot self.now result ≤ slot }
        ensures to { slot < first_slot self.now (result + 1) }
    {
        let known = self.slot_counts[(slot >> self.slot_shift) as usize];
        count_below_last(&self.firsts, slot, known) - 1
    }

    /// The granule and the class of the slot of this number, which must be below `slots()`.
    pub fn slot(&self, slot: u32) -> Slot
        requires { slot < slot_count self.now }
        ensures start { result.start ≡ (slot_of self.now slot).start }
        ensures class { result.class ≡ (slot_of self.now slot).class }
        ensures inside { result.start + result.class ≤ self.now.granules }
        ensures in_range { IsBlockSize result.class }
    {
        self.slot_of_class(self.class_of(slot), slot)
    }

    /// What `slot` returns, without a search for the slot's class: `number` must be its number, counted from 0.
    pub fn slot_of_class(&self, number: usize, slot: u32) -> Slot
        requires { IsClassOf self.now slot number }
        ensures start { result.start ≡ (slot_of self.now slot).start }
        ensures class { result.class ≡ (slot_of self.now slot).class }
        ensures inside { result.start + result.class ≤ self.now.granules }
        ensures in_range { IsBlockSize result.class }
    {
        let place = slot - self.first_slot(number);
        let class = self.class(number);
        Slot {
            start: self.share() * number as u32 + class * place,
            class,
        }
    }

    /// The header granule of a slot.
    pub fn start(&self, slot: u32) -> u32
        requires { slot < slot_count self.now }
        ensures start { result ≡ (slot_of self.now slot).start }
        ensures inside { result < self.now.granules }
    {
        self.slot(slot).start
    }

    /// The bytes of a slot's block, including its header: 16 times its class.
    pub fn bytes(&self, slot: u32) -> u32
        requires { slot < slot_count self.now }
        ensures bytes { result ≡ block_bytes (slot_of self.now slot) }
        ensures in_range { (32 ≤ result) × (result ≤ 16384) }
    {
        GRANULE_BYTES * self.class(self.class_of(slot))
    }

    /// The slot that covers a granule. `None` if the granule is slack or past the region.
    pub fn slot_at(&self, granule: u32) -> Option<u32>
        ensures { result ≡ slot_over self.now granule }
    {
        let (slot, _) = self.place_at(granule)?;
        Some(slot)
    }

    /// The slot that covers a granule, and how many of its granules lie before that one. `None` if the granule is slack or past the region.
    pub fn place_at(&self, granule: u32) -> Option<(u32, u32)>
        ensures none { IfNone result (slot_over self.now granule ≡ None) }
        ensures some { IfSome result (λ place. slot_over self.now granule ≡ Some place.0) }
        ensures place { IfSome result (λ place. (slot_of self.now place.0).start + place.1 ≡ granule) }
    {
        let share = self.share();
        if share == 0 {
            return None;
        }
        let number = (granule / share) as usize;
        if number >= self.classes() {
            return None;
        }
        let class = self.class(number);
        let inner = granule % share;
        let slot = self.first_slot(number) + inner / class;
        if slot < self.first_slot(number + 1) {
            Some((slot, inner % class))
        } else {
            None
        }
    }

    /// The bytes that a request of `n` bytes leaves unused in a block of its class; 0 if no class serves it.
    pub fn loss(&self, n: u32) -> u32
        ensures loss { result ≡ loss_of_size self.now.classes n }
        ensures small { result ≤ LARGEST_COUNTED }
    {
        match self.find(n) {
            Some(number) => payload_bytes(self.classes[number]) - n,
            None => 0,
        }
    }

    // the granules of each class
    fn share(&self) -> u32
        ensures share { result ≡ share_of self.now }
        ensures partition { IsPartition self.now }
    {
        self.share
    }
}

// the granules of each class, where this many classes share a region
fn share_of_each(classes: usize, granules: u32) -> u32
    requires { classes ≤ MOST_CLASSES }
    ensures { result ≡ granules / classes }
{
    granules.checked_div(classes as u32).unwrap_or(0)
}

// The power of 2 that the counts of this many slots have as their step: the least with which they reach the last slot. The classes of the
// largest blocks have few slots, so a larger step would leave several classes to be searched.
fn shift_for(slots: u32) -> u32
    requires { slots ≤ MOST_SLOTS }
    ensures shift { result ≤ LARGEST_SHIFT }
    ensures reach { slots ≤ COUNTS * 2 ^ result }
{
    let mut shift = 0;
    while slots > (COUNTS as u32) << shift {
        shift += 1;
    }
    shift
}
