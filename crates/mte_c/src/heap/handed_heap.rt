//! A heap that C holds.
ghost use Rattle.std.specs.Prelude.{◌≡◌};
ghost use Rattle.std.specs.Option.{ForNone, ForSome};

use crate::heap::handle::Handle;
use crate::heap::held_heap::HeldHeap;
use handed_text::BoxParts;
use std::alloc::Global;

/// A handle to a heap. All zeros is the empty handle, which holds none. Dropping a handle frees nothing.
#[repr(C)]
#[derive(Drop)]
pub struct HandedHeap {
    handle: Handle,
    live: u32,
    ghost one: { ForSome handle.held (λ held. live ≡ 1) },
    ghost none: { ForNone handle.held (live ≡ 0) },
}

impl HandedHeap {
    ghost use Rattle.std.specs.Prelude.{◌↔◌, IsSome, IsTrue, None, Some};
    ghost use Rattle.mte_c.specs.Heap.Held.{heap_of};

    /// The empty handle.
    pub fn new() -> HandedHeap
        ensures { heap_of result ≡ None }
    {
        HandedHeap {
            handle: Handle::empty(),
            live: 0,
        }
    }

    /// Whether there is a heap.
    pub fn is_live(&self) -> bool
        ensures { IsTrue result ↔ IsSome (heap_of self.now) }
    {
        self.live == 1
    }

    /// The box of the heap. The empty handle is left.
    pub fn open(&mut self, alloc: Global) -> Box<HeldHeap>
        requires { IsSome (heap_of self.old) }
        ensures heap { heap_of self.old ≡ Some result.value.heap }
        ensures left { heap_of self.new ≡ None }
    {
        let HandedHeap { handle, live: _ } = std::mem::replace(self, HandedHeap::new());
        handle.into_parts(alloc).into_box()
    }

    /// Puts a box into the empty handle.
    pub fn close(&mut self, held: Box<HeldHeap>)
        requires { heap_of self.old ≡ None }
        ensures { heap_of self.new ≡ Some held.value.heap }
    {
        *self = HandedHeap {
            handle: Handle::of_parts(BoxParts::of(held)),
            live: 1,
        };
    }
}
