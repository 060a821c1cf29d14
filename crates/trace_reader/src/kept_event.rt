//! An event in eight bytes, as it waits between its reading and its use.
ghost use Rattle.std.specs.Prelude.{◌≡◌};
ghost use Rattle.trace_event.specs.Ranges.{IsInRange};
ghost use Rattle.trace_reader.specs.Kept.{event_of};

use std::fmt;
use trace_event::Event;

// An access touches at most so many bytes.
const MOST_BYTES: u16 = Event::LONGEST_ACCESS as u16;

/// `Event` in eight bytes: a store has its variable and its length, less 1, in one number, and single bytes come first, beside the byte of the
/// kind. A trace of a million events is kept whole until its last line is read, and the first touch of a page of memory takes as long as
/// twenty events.
#[derive(Clone, Copy)]
pub(crate) enum KeptEvent {
    Malloc { v: u16, n: u32 },
    Calloc { v: u16, n: u32 },
    Realloc { v: u16, n: u32 },
    Free { v: u16 },
    Load { len: u8, v: u16, off: i32 },
    Store { byte: u8, v_and_len: u16, off: i32 },
    Addg { u6: u8, v: u16, w: u16, u4: u8 },
    Subg { u6: u8, v: u16, w: u16, u4: u8 },
}

// as the event that was kept
impl fmt::Debug for KeptEvent {
    fn fmt<W: fmt::Write>(&self, f: &mut fmt::Formatter<W>) -> fmt::Result {
        self.event().fmt(f)
    }
}

impl KeptEvent {
    /// The event, to be kept.
    #[inline(always)]
    pub(crate) fn of(event: Event) -> KeptEvent
        requires { IsInRange event }
        ensures { event_of result ≡ event }
    {
        match event {
            Event::Malloc { v, n } => KeptEvent::Malloc { v, n },
            Event::Calloc { v, n } => KeptEvent::Calloc { v, n },
            Event::Realloc { v, n } => KeptEvent::Realloc { v, n },
            Event::Free { v } => KeptEvent::Free { v },
            Event::Load { v, off, len } => KeptEvent::Load { v, off, len },
            Event::Store { v, off, len, byte } => {
                let v_and_len = v * MOST_BYTES + u16::from(len - 1);
                KeptEvent::Store {
                    v_and_len,
                    off,
                    byte,
                }
            }
            Event::Addg { v, w, u6, u4 } => KeptEvent::Addg { v, w, u6, u4 },
            Event::Subg { v, w, u6, u4 } => KeptEvent::Subg { v, w, u6, u4 },
        }
    }

    /// The event that was kept.
    #[inline(always)]
    pub(crate) fn event(self) -> Event
        ensures { result ≡ event_of self }
    {
        match self {
            KeptEvent::Malloc { v, n } => Event::Malloc { v, n },
            KeptEvent::Calloc { v, n } => Event::Calloc { v, n },
            KeptEvent::Realloc { v, n } => Event::Realloc { v, n },
            KeptEvent::Free { v } => Event::Free { v },
            KeptEvent::Load { v, off, len } => Event::Load { v, off, len },
            KeptEvent::Store {
                v_and_len,
                off,
                byte,
            } => {
                let v = v_and_len / MOST_BYTES;
                let len = (v_and_len % MOST_BYTES) as u8 + 1;
                Event::Store { v, off, len, byte }
            }
            KeptEvent::Addg { v, w, u6, u4 } => Event::Addg { v, w, u6, u4 },
            KeptEvent::Subg { v, w, u6, u4 } => Event::Subg { v, w, u6, u4 },
        }
    }
}
