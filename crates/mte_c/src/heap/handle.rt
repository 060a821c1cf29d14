//! A handle to a heap, which C can hold.
ghost use Rattle.std.specs.Prelude.{◌≡◌, Option, Some, None, IsSome};
ghost use Rattle.mte_c.specs.declared.heap.held_heap.HeldHeap.{HeldHeap as HeldView};
ghost use Rattle.mte_c.specs.contracts.heap.held_heap.HeldHeap.{the_row};
ghost use Rattle.std.specs.Coded.{coded_option};

use crate::heap::held_heap::HeldHeap;
use handed_text::BoxParts;
use std::alloc::Global;
use std::marker::Model;

/// A pointer to a heap, or null. Dropping it frees nothing.
#[repr(C)]
#[derive(Drop)]
pub struct Handle {
    at: *mut u8,
    ghost held: { Option HeldView } by { coded_option the_row.coded },
}

impl Model for Handle {
    ghost use Rattle.mte_c.specs.contracts.heap.held_heap.HeldHeap.{the_row};
    ghost use Rattle.handed_text.specs.Ownership.{handle_owns};

    ghost also_owns = { λ h. handle_owns the_row h.at h.held };
}

impl Handle {
    /// Null.
    pub fn empty() -> Handle
        ensures { result.held ≡ None }
    {
        Handle {
            at: std::ptr::null_mut(),
        }
    }

    /// A handle to the heap of this box.
    pub fn of_parts(parts: BoxParts<HeldHeap, Global>) -> Handle
        ensures { result.held ≡ Some parts.value }
    {
        let BoxParts { ptr, alloc: _ } = parts;
        Handle { at: ptr as *mut u8 }
    }

    /// The box of a handle that is not null.
    pub fn into_parts(self, alloc: Global) -> BoxParts<HeldHeap, Global>
        requires { IsSome self.held }
        ensures { self.held ≡ Some result.value }
    {
        let Handle { at } = self;
        BoxParts {
            ptr: at as *mut HeldHeap,
            alloc,
        }
    }
}
