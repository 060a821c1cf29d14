//! What an event requests, and the ranges of its numbers.
ghost use Rattle.trace_event.specs.Ranges.{IsAccessOf, IsInRange, IsMove, IsVariable};
ghost use Rattle.replay_theory.specs.Totals.{request_size};
ghost use Rattle.std.specs.Prelude.{◌≡◌, ◌↔◌, IsTrue};

use trace_event::Event;

/// The bytes that an event requests, if it is a request: a malloc, a calloc or a realloc.
pub fn request_size(event: &Event) -> Option<u32>
    ensures { result ≡ request_size event.now }
{
    match *event {
        Event::Malloc { n, .. } | Event::Calloc { n, .. } | Event::Realloc { n, .. } => Some(n),
        Event::Free { .. }
        | Event::Load { .. }
        | Event::Store { .. }
        | Event::Addg { .. }
        | Event::Subg { .. } => None,
    }
}

/// Whether an event's numbers are in the ranges that `Event` names, as `Replay::step` asks.
pub fn is_in_range(event: &Event) -> bool
    ensures { IsTrue result ↔ IsInRange event.now }
{
    match *event {
        Event::Malloc { v, n } | Event::Calloc { v, n } | Event::Realloc { v, n } => {
            is_variable(v) && n <= Event::LARGEST_REQUEST
        }
        Event::Free { v } => is_variable(v),
        Event::Load { v, off, len } => is_access(v, off, len),
        Event::Store {
            v,
            off,
            len,
            byte: _byte,
        } => is_access(v, off, len),
        Event::Addg { v, w, u6, u4 } | Event::Subg { v, w, u6, u4 } => is_move(v, w, u6, u4),
    }
}

fn is_variable(v: u16) -> bool
    ensures { IsTrue result ↔ IsVariable v }
{
    u32::from(v) <= Event::LAST_VARIABLE
}

fn is_access(v: u16, off: i32, len: u8) -> bool
    ensures { IsTrue result ↔ IsAccessOf v off len }
{
    is_variable(v)
        && off.unsigned_abs() <= Event::FARTHEST_ACCESS
        && len >= 1
        && u32::from(len) <= Event::LONGEST_ACCESS
}

fn is_move(v: u16, w: u16, u6: u8, u4: u8) -> bool
    ensures { IsTrue result ↔ IsMove v w u6 u4 }
{
    is_variable(v)
        && is_variable(w)
        && u32::from(u6) <= Event::FARTHEST_MOVE
        && u32::from(u4) <= Event::LARGEST_TAG_STEP
}
