//! A handle to a text, which C can hold.
ghost use Rattle.std.specs.Prelude.{◌≡◌, Option, Some, None, IsSome};
ghost use Rattle.handed_text.specs.declared.held_text.HeldText.{HeldText as HeldView};
ghost use Rattle.handed_text.specs.contracts.held_text.HeldText.{the_row};
ghost use Rattle.std.specs.Coded.{coded_option};

use crate::held_text::HeldText;
use crate::parts::BoxParts;
use std::alloc::Global;
use std::marker::Model;

/// A pointer to a text, or null. Dropping it frees nothing.
#[repr(C)]
#[derive(Drop)]
pub struct Handle {
    at: *mut u8,
    ghost held: { Option HeldView } by { coded_option the_row.coded },
}

impl Model for Handle {
    ghost use Rattle.handed_text.specs.contracts.held_text.HeldText.{the_row};
    ghost use Rattle.handed_text.specs.Ownership.{handle_owns};

    ghost also_owns = { λ h. handle_owns the_row h.at h.held };
}

impl Handle {
    /// Null.
    pub fn empty() -> Handle
        ensures { result.held ≡ None }
    {
        Handle {
            at: std::ptr::null_mut(),
        }
    }

    /// A handle to the text of this box.
    pub fn of_parts(parts: BoxParts<HeldText, Global>) -> Handle
        ensures { result.held ≡ Some parts.value }
    {
        let BoxParts { ptr, alloc: _ } = parts;
        Handle { at: ptr as *mut u8 }
    }

    /// The box of a handle that is not null.
    pub fn into_parts(self, alloc: Global) -> BoxParts<HeldText, Global>
        requires { IsSome self.held }
        ensures { self.held ≡ Some result.value }
    {
        let Handle { at } = self;
        BoxParts {
            ptr: at as *mut HeldText,
            alloc,
        }
    }
}
