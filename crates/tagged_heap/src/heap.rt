ghost use Rattle.class_table.specs.Sizes.{largest_counted};
ghost use Rattle.heap_theory.specs.State.{first_heap};
ghost use Rattle.class_table.specs.Tables.{loss_of_size};
ghost use Rattle.machine_theory.specs.Instructions.{addg, subg};
ghost use Rattle.heap_theory.specs.Config.{IsConfig, layout_for};
ghost use Rattle.std.specs.Prelude.{◌≡◌, ◌≤◌, IfOk};

use crate::fresh_slots::{first_slots, write_fresh_headers};
use arrayvec::ArrayVec;
use class_lists::ClassLists;
use class_table::{ClassTable, Layout, MOST_CLASSES};
use granule_memory::Memory;
use heap_theory::Config;
use machine_theory::{FARTHEST_MOVE, LARGEST_TAG_STEP};
use quarantine_core::Quarantine;
use std::alloc::{AllocError, Global};
use std::marker::Model;
use tag_machine::Machine;

/// A heap over one region of tagged memory. It gives out chunks under random tags, and holds freed chunks in quarantine.
///
/// Contracts see it as the heap state of the definitions, without the bytes of headers, and the number of its frees. The contract of
/// `memory` says what stands in the headers and how they are linked.
#[derive(Drop)]
pub struct Heap {
    /// The region with its tags, and the register of random tags.
    pub(crate) machine: Machine,
    /// Where the slots lie in the region.
    pub(crate) layout: Layout,
    /// The freed slots that are held back, oldest first.
    pub(crate) quarantine: Quarantine,
    /// The released slots of each class.
    pub(crate) lists: ClassLists,
    /// For each class the first of its slots that was never given out.
    pub(crate) counters: ArrayVec<u32, MOST_CLASSES>,
    /// The bytes of all blocks that were freed.
    pub(crate) total: u64,
    /// How many chunks were freed.
    pub(crate) frees: u64,
}

impl Model for Heap {
    ghost use Rattle.tagged_heap.specs.HeapAtRest.{HeapAndFrees};

    ghost Value = { HeapAndFrees };

    ghost use Rattle.tagged_heap.specs.HeapFields.{seen, IsHeld};

    ghost view = { seen };

    ghost invariant = { IsHeld };
}

impl Heap {
    /// An empty heap over the classes of a table. It takes one block from the allocator, with 17 bytes for each granule. The only error is
    /// that the allocator refuses this block. No other call takes memory.
    pub fn new(alloc: Global, table: &ClassTable, config: Config) -> Result<Heap, AllocError>
        requires { IsConfig config }
        ensures state { IfOk result (λ heap.
            heap.state ≡ first_heap (layout_for config table.now) config.seed config.quarantine) }
        ensures frees { IfOk result (λ heap. heap.frees ≡ 0) }
    {
        let layout = Layout::new(table, config.granules);
        let mut memory = Memory::new(alloc, config.granules)?;
        write_fresh_headers(&mut memory, &layout);
        let lists = ClassLists::new(&layout);
        let quarantine = Quarantine::new(&layout, config.quarantine);
        let counters = first_slots(&layout);
        Ok(Heap {
            machine: Machine::new(memory, config.seed),
            layout,
            quarantine,
            lists,
            counters,
            total: 0,
            frees: 0,
        })
    }

    /// How many chunks were freed so far, including those that `realloc` moved. Freeing null does not count.
    pub fn frees(&self) -> u64
        ensures { result ≡ self.now.frees }
    {
        self.frees
    }

    /// The bytes that a request of `n` bytes leaves unused in a block of its class; 0 if no class serves it.
    pub fn loss(&self, n: u32) -> u32
        ensures loss { result ≡ loss_of_size self.now.state.layout.classes n }
        ensures small { result ≤ largest_counted }
    {
        self.layout.loss(n)
    }

    /// ADDG: the address `u6` granules (0 to 63) further up, modulo 2^64. The offset `u4` (0 to 15) chooses its tag, counted upwards from
    /// the tag of `address`.
    pub fn addg(&self, address: u64, u6: u8, u4: u8) -> u64
        requires granules { u6 ≤ FARTHEST_MOVE }
        requires steps { u4 ≤ LARGEST_TAG_STEP }
        ensures { result ≡ addg address u6 u4 }
    {
        self.machine.addg(address, u6, u4)
    }

    /// SUBG: the address `u6` granules (0 to 63) further down, modulo 2^64. The offset `u4` (0 to 15) chooses its tag as for `addg`:
    /// upwards.
    pub fn subg(&self, address: u64, u6: u8, u4: u8) -> u64
        requires granules { u6 ≤ FARTHEST_MOVE }
        requires steps { u4 ≤ LARGEST_TAG_STEP }
        ensures { result ≡ subg address u6 u4 }
    {
        self.machine.subg(address, u6, u4)
    }
}
