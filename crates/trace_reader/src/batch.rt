//! The events of the lines in front of a text, read into a batch before they are kept.
ghost use Rattle.std.specs.Prelude.{◌≡◌, ◌≤◌, ◌++◌, All, List, length, map, take};
ghost use Rattle.trace_event.specs.Ranges.{IsInRange};
ghost use Rattle.trace_reader.specs.Kept.{event_of};
ghost use Rattle.trace_reader.specs.TraceLine.{event_lines};

use crate::kept_event::KeptEvent;
use crate::observer::Observer;
use crate::one_pass::first_event;
use trace_event::Event;

/// The most events of a batch. From 2,048 bytes on, the C library would clear it byte by byte.
pub(crate) const BATCH: usize = 240;

/// Reads the lines in front of a text that spell events into a batch, at most `most` and up to the first that is not read in one pass, and
/// shows each event to the observer. Returns how many they are, and the text after them. A batch has a place of its own, so an event costs no
/// test for room and no count in memory.
#[inline(always)]
pub(crate) fn events_in_front<'a, O: Observer>(
    batch: &mut [KeptEvent],
    observer: &mut O,
    most: usize,
    text: &'a [u8],
) -> (usize, &'a [u8])
    requires { most ≤ length batch.old }
    ensures lines { text.now ≡ event_lines (map event_of (take result.0 batch.new)) ++ result.1.now }
    ensures range { All IsInRange (map event_of (take result.0 batch.new)) }
    ensures few { result.0 ≤ most }
    ensures room { length batch.new ≡ length batch.old }
    ensures seen { (events : List Event) → O.has_seen observer.old events →
        O.has_seen observer.new (events ++ map event_of (take result.0 batch.new)) }
{
    let mut rest = text;
    let mut count = 0;
    // the label names the loop's invariant in proofs/
    'lines: while count < most {
        let Some((event, after)) = first_event::<O>(rest) else {
            break;
        };
        observer.see(&event);
        batch[count] = KeptEvent::of(event);
        count += 1;
        rest = after;
    }
    (count, rest)
}
