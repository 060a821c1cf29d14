//! Lines of a timeline, taken as its events.
ghost use Rattle.std.specs.Prelude.{◌≡◌, ◌+◌, ◌<◌, ◌≤◌, ◌++◌, ◌∷◌, [], ℕ, OnOk, length, vec_capacity, vec_len};
ghost use Rattle.line_text.specs.Lines.{IsLine};
ghost use Rattle.history_count.specs.Timelines.Pieces.{AreTaken, AreWholeLines, TakesLines};
ghost use Rattle.history_count.specs.Timelines.Runs.{AreLiveCounts, IsRun};

use crate::timelines::fault::TimelineFault;
use crate::timelines::line::{event_in, next_counted};
use crate::timelines::live::{admit_event, count};
use line_text::Lines;
use memchr::memrchr;
use std::alloc::AllocError;
use tuner_theory::{GREATEST_COUNT, SizeEvent};

/// The most bytes of an event's line, without its newline.
pub(crate) const LONGEST_LINE: usize = 6;

/// Adds the events of these lines, up to the first fault. `live` has the counts of the live blocks. The only error is that the allocator refuses
/// memory.
#[inline(never)]
pub(crate) fn take_lines(
    events: &mut Vec<SizeEvent>,
    live: &mut [u32],
    lines: Lines<'_>,
) -> Result<Option<TimelineFault>, AllocError>
    requires run { IsRun events.old.items }
    requires live { AreLiveCounts events.old.items live.old }
    ensures { TakesLines result events.old.items events.new.items live.new lines.entry }
{
    let mut lines = lines;
    // the label names the loop's invariant in proofs/
    'lines: while let Some(line) = lines.next() {
        if let Some(fault) = take_line(events, live, line)? {
            return Ok(Some(fault));
        }
        // most lines after it are of a counted size
        if let Some(fault) = take_counted(events, live, &mut lines) {
            return Ok(Some(fault));
        }
    }
    Ok(None)
}

// adds the event of a line
fn take_line(
    events: &mut Vec<SizeEvent>,
    live: &mut [u32],
    line: &[u8],
) -> Result<Option<TimelineFault>, AllocError>
    requires run { IsRun events.old.items }
    requires live { AreLiveCounts events.old.items live.old }
    ensures { TakesLines result events.old.items events.new.items live.new (line.now ∷ []) }
{
    make_room(events)?;
    match admit_event(events, live, event_in(line)) {
        Ok(event) => events.push_reserved(event),
        Err(fault) => return Ok(Some(fault)),
    }
    Ok(None)
}

// makes room for one event more
fn make_room(events: &mut Vec<SizeEvent>) -> Result<(), AllocError>
    ensures kept { events.new.items ≡ events.old.items }
    ensures room { OnOk result (vec_len events.new < vec_capacity events.new) }
{
    if events.capacity() <= events.len() {
        events.reserve(1)?;
    }
    Ok(())
}

// Takes lines as events of counted sizes, as long as there is room, up to the first other line or the first fault. No call in the loop: so the
// compiler keeps all that it needs in registers.
#[inline(always)]
fn take_counted(
    events: &mut Vec<SizeEvent>,
    live: &mut [u32],
    lines: &mut Lines<'_>,
) -> Option<TimelineFault>
    requires run { IsRun events.old.items }
    requires live { AreLiveCounts events.old.items live.old }
    ensures taken { AreTaken events.old.items events.new.items result live.new lines.old lines.new }
    ensures fewer { length lines.new ≤ length lines.old }
{
    for _turn in 0..room_in(events) {
        let Some(event) = next_counted(lines) else {
            return None;
        };
        if !count(events, live, event) {
            return Some(TimelineFault::NotLive);
        }
        events.push_reserved(event);
    }
    None
}

// for how many events more there is room, of those that may come
fn room_in(events: &Vec<SizeEvent>) -> usize
    ensures room { (k : ℕ) → k < result → vec_len events.now + k < vec_capacity events.now }
    ensures few { (k : ℕ) → k < result → vec_len events.now + k < GREATEST_COUNT }
{
    let most = events.capacity().min(GREATEST_COUNT as usize);
    most.saturating_sub(events.len())
}

/// A text cut after its last newline.
pub(crate) fn whole_lines(text: &[u8]) -> (&[u8], &[u8])
    ensures parts { text.now ≡ result.0.now ++ result.1.now }
    ensures whole { AreWholeLines result.0.now }
    ensures rest { IsLine result.1.now }
{
    match memrchr(b'\n', text) {
        Some(end) => text.split_at(end + 1),
        None => (&[], text),
    }
}
