//! What a line of a timeline says.
ghost use Rattle.std.specs.Prelude.{◌≡◌, ◌≤◌, true, IfNone, IfSome, Some, drop, length, option_and_then, slice_get, slice_index};
ghost use Rattle.std.specs.Int.{from_bool};
ghost use Rattle.class_table.specs.Sizes.{largest_counted};
ghost use Rattle.line_text.specs.Lines.{lines};
ghost use Rattle.line_text.specs.Numbers.{number_of};
ghost use Rattle.history_count.specs.Timelines.Runs.{large_size, size_of};
ghost use Rattle.history_count.specs.Timelines.TimelineText.{counted_size, event_in, event_of, size_in};

use class_table::LARGEST_COUNTED;
use line_text::{Lines, capped_number_in, lines_in, short_line};
use tuner_theory::SizeEvent;

/// The first line of a timeline.
pub const TIMELINE: &[u8] = b"timeline";

/// How a line names a size that is not counted.
const LARGE: &[u8] = b"large";

/// The size by which all larger sizes go.
pub(crate) const LARGE_SIZE: u16 = LARGEST_COUNTED as u16 + 1;

// the bytes of a sign and of digits that are read at once
const NEAR_BYTES: usize = 9;

/// Takes the next line as an event of a counted size, in one pass over its bytes. `None`, with no line taken, if there is no such line, and at
/// the end of the text.
#[inline(always)]
pub(crate) fn next_counted(lines: &mut Lines<'_>) -> Option<SizeEvent>
    ensures event { IfSome result (λ event. option_and_then event_in (slice_get lines.old 0) ≡ Some event) }
    ensures size { IfSome result (λ event. size_of event ≤ large_size) }
    ensures taken { IfSome result (λ _. lines.new ≡ drop 1 lines.old) }
    ensures kept { IfNone result (lines.new ≡ lines.old) }
{
    let text = lines.rest();
    if text.len() < NEAR_BYTES {
        return None;
    }
    let is_free = text[0] == b'-';
    let (n, bytes) = size_line(text, is_free)?;
    *lines = lines_in(&text[bytes..]);
    Some(event_of(is_free, n))
}

// the event of a size
#[inline(always)]
fn event_of(is_free: bool, n: u16) -> SizeEvent
    ensures { result ≡ event_of is_free n }
{
    if is_free {
        SizeEvent::Free { n }
    } else {
        SizeEvent::Request { n }
    }
}

// the counted size that is the first line of a text, after a `-` if that is signed, and how many bytes the line takes; `None` if that line is
// anything else
#[inline(always)]
fn size_line(text: &[u8], is_signed: bool) -> Option<(u16, usize)>
    requires sign { is_signed ≡ true → slice_index text.now 0 ≡ 45 }
    ensures size { IfSome result (λ found. option_and_then (λ line. counted_size (number_of line))
        (slice_get (lines (drop (from_bool is_signed) text.now)) 0) ≡ Some found.0) }
    ensures counted { IfSome result (λ found. found.0 ≤ largest_counted) }
    ensures after { IfSome result
        (λ found. lines (drop found.1 text.now) ≡ drop 1 (lines (drop (from_bool is_signed) text.now))) }
    ensures within { IfSome result (λ found. found.1 ≤ length text.now) }
{
    let (n, bytes) = short_line(text, is_signed)?;
    if n > LARGEST_COUNTED {
        return None;
    }
    Some((n as u16, bytes))
}

/// The event that a line spells.
pub(crate) fn event_in(line: &[u8]) -> Option<SizeEvent>
    ensures event { result ≡ event_in line.now }
    ensures size { IfSome result (λ event. size_of event ≤ large_size) }
{
    let first = *line.first()?;
    if first == b'-' {
        let n = size_in(&line[1..])?;
        return Some(SizeEvent::Free { n });
    }
    let n = size_in(line)?;
    Some(SizeEvent::Request { n })
}

// the size that a word spells
fn size_in(word: &[u8]) -> Option<u16>
    ensures size { result ≡ size_in word.now }
    ensures small { IfSome result (λ n. n ≤ large_size) }
{
    if word == LARGE {
        return Some(LARGE_SIZE);
    }
    let size = capped_number_in(word, u32::MAX)?;
    if size > LARGEST_COUNTED {
        return None;
    }
    Some(size as u16)
}
