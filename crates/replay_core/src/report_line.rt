//! The report's line of an event.
ghost use Rattle.replay_theory.specs.Report.{cause_word, error_word, kind_word, report_line};
ghost use Rattle.replay_theory.specs.Replay.Answer.{Loaded, TagFault};
ghost use Rattle.line_text.specs.Lines.{ended, line_of};
ghost use Rattle.replay_core.specs.TheoryValues.{FitsBuffer, shown};
ghost use Rattle.std.specs.Fmt.{decimal};
ghost use Rattle.std.specs.Prelude.{◌≡◌, ◌∷◌, ◌++◌, ◌+◌, ◌≤◌, [], codes, length, take};

use crate::access::LONGEST_ACCESS;
use crate::answer::Answer;
use crate::event_numbers::EventNumbers;
use crate::put::{put, put_hex_strides, put_number};
use crate::replay::LINE_ROOM;
use heap_theory::{FreeError, NullCause, PlaceKind};

// How many bytes have their digits written at once. The longest access has whole strides.
const STRIDE: usize = 32;

/// Writes the line of the event of this number with its newline, or nothing if the event has no line, into a text at a place, where it has
/// room for any line. Returns where the line ends. `bytes` holds what was loaded.
#[tactic(auto, unfolding(replay_theory::specs::Report::report_line))]
pub(crate) fn write_line(
    text: &mut [u8],
    at: usize,
    numbers: &mut EventNumbers,
    number: u64,
    answer: &Answer,
    bytes: &[u8; LONGEST_ACCESS],
) -> usize
    requires filled { FitsBuffer answer.now }
    requires room { at + LINE_ROOM ≤ length text.old }
    ensures end { result ≤ at + LINE_ROOM }
    ensures text { take result text.new ≡ take at text.old ++ report_line number (shown bytes.now answer.now) }
{
    match *answer {
        Answer::Silent | Answer::Served { .. } => at,
        Answer::Loaded { len } => write_data(text, at, numbers, number, bytes, usize::from(len)),
        Answer::NotMapped => write_words(text, at, number, b"fault", b"unmapped"),
        Answer::TagFault {
            granule,
            memory_tag,
            pointer_tag,
            kind,
        } => write_tag_fault(
            text,
            at,
            numbers,
            number,
            granule,
            memory_tag,
            pointer_tag,
            kind,
        ),
        Answer::NoPointer(cause) => write_null(text, at, number, cause),
        Answer::NotFreed(error) | Answer::NotResized(error) => write_words(
            text,
            at,
            number,
            b"refused",
            error_word(error),
        ),
    }
}

/// The line of a load that succeeds, of the first `len` bytes.
pub(crate) fn write_data(
    text: &mut [u8],
    at: usize,
    numbers: &mut EventNumbers,
    number: u64,
    bytes: &[u8; LONGEST_ACCESS],
    len: usize,
) -> usize
    requires room { at + LINE_ROOM ≤ length text.old }
    requires few { len ≤ LONGEST_ACCESS }
    ensures end { result ≤ at + LINE_ROOM }
    ensures text { take result text.new ≡ take at text.old ++ report_line number (Loaded (take len bytes.now)) }
{
    let end = numbers.put_next(text, at, number);
    let end = put(text, end, b" data ");
    // the digits of whole strides; what they have past the last byte lies after the line
    put_hex_strides(text, end, &bytes[..STRIDE * len.div_ceil(STRIDE)]);
    put(text, end + 2 * len, b"\n")
}

// the line of a tag fault
fn write_tag_fault(
    text: &mut [u8],
    at: usize,
    numbers: &mut EventNumbers,
    number: u64,
    granule: u32,
    memory_tag: u8,
    pointer_tag: u8,
    kind: PlaceKind,
) -> usize
    requires { at + LINE_ROOM ≤ length text.old }
    ensures end { result ≤ at + LINE_ROOM }
    ensures text { take result text.new
        ≡ take at text.old ++ report_line number (TagFault granule memory_tag pointer_tag kind) }
{
    let end = numbers.put_next(text, at, number);
    let end = put(text, end, b" fault tag granule ");
    let end = put_number(text, end, u64::from(granule));
    let end = put(text, end, b" memory ");
    let end = put_number(text, end, u64::from(memory_tag));
    let end = put(text, end, b" pointer ");
    let end = put_number(text, end, u64::from(pointer_tag));
    let end = put(text, end, b" in ");
    let end = put(text, end, kind_word(kind));
    put(text, end, b"\n")
}

// The line of a request that was refused. A line for each cause, so that the compiler copies a constant number of bytes.
fn write_null(text: &mut [u8], at: usize, number: u64, cause: NullCause) -> usize
    requires { at + LINE_ROOM ≤ length text.old }
    ensures end { result ≤ at + LINE_ROOM }
    ensures text { take result text.new
        ≡ take at text.old ++ ended (line_of (decimal number ∷ codes "null" ∷ cause_word cause ∷ [])) }
{
    let end = put_number(text, at, number);
    match cause {
        NullCause::Large => put(text, end, b" null large\n"),
        NullCause::NoClass => put(text, end, b" null no-class\n"),
        NullCause::Exhausted => put(text, end, b" null exhausted\n"),
    }
}

// a line of a number and two words
fn write_words(text: &mut [u8], at: usize, number: u64, word: &[u8], reason: &[u8]) -> usize
    requires room { at + LINE_ROOM ≤ length text.old }
    requires short { length word.now + length reason.now ≤ 100 }
    ensures end { result ≤ at + LINE_ROOM }
    ensures text { take result text.new
        ≡ take at text.old ++ ended (line_of (decimal number ∷ word.now ∷ reason.now ∷ [])) }
{
    let end = put_number(text, at, number);
    let end = put(text, end, b" ");
    let end = put(text, end, word);
    let end = put(text, end, b" ");
    let end = put(text, end, reason);
    put(text, end, b"\n")
}

fn kind_word(kind: PlaceKind) -> &'static [u8]
    ensures word { result.now ≡ kind_word kind }
    ensures short { length result.now ≤ 9 }
{
    match kind {
        PlaceKind::Slack => b"slack",
        PlaceKind::Header => b"header",
        PlaceKind::Tail => b"tail",
        PlaceKind::Dead => b"dead",
        PlaceKind::Other => b"other",
    }
}

fn error_word(error: FreeError) -> &'static [u8]
    ensures word { result.now ≡ error_word error }
    ensures short { length result.now ≤ 9 }
{
    match error {
        FreeError::Misplaced => b"misplaced",
        FreeError::NotLive => b"not-live",
        FreeError::WrongTag => b"wrong-tag",
    }
}
