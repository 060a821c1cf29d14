//! What a line of a history says.
ghost use Rattle.std.specs.Prelude.{◌≡◌, ◌≤◌, ℕ, [], Bool, length, map, List, Option, IfSome};
ghost use Rattle.std.specs.Option.{option_map};
ghost use Rattle.class_table.specs.NamedLines.{numbers_of};
ghost use Rattle.line_text.specs.Lines.{words};
ghost use Rattle.line_text.specs.Numbers.{classified};
ghost use Rattle.line_text.specs.Rows.{AreRowWords};
ghost use Rattle.history_count.specs.HistoryText.{are_in_range, entry_of, entry_with};
ghost use Rattle.history_count.specs.HistoryText.{entry_with_numbers, is_in_order, snapshots_of, subject_of};
ghost use Rattle.history_count.specs.LineView.{Fills, GivesEntry, GivesNextEntry, capped};

use crate::counted_lines::greatest;
use crate::fault::HistoryFault;
use class_table::LARGEST_COUNTED;
use line_text::{Lines, Number, Words, capped_number_in, number_in, words_in};
use profile_count::{LARGE, ProfileFault, two_words};
use tuner_theory::{GREATEST_COUNT, MOST_SNAPSHOTS};

// the first word of the first line
const SNAPSHOTS: &[u8] = b"snapshots";

// the most snapshots, as a number that was read
const MOST: u64 = MOST_SNAPSHOTS as u64;

/// What the counts of a line are of.
#[derive(Clone, Copy)]
pub(crate) enum Subject {
    /// Blocks of this size, in bytes.
    Size(u32),
    /// Blocks of larger sizes than are counted.
    Large,
}

/// How many snapshots there are, by the first line.
pub(crate) fn snapshots_in(line: &[u8]) -> Option<usize>
    ensures count { result ≡ snapshots_of (words line.now) }
    ensures in_range { IfSome result (λ count. (1 ≤ count) × (count ≤ MOST_SNAPSHOTS)) }
{
    let (first, count) = two_words(line)?;
    if first != SNAPSHOTS {
        return None;
    }
    match number_in(count) {
        Number::Value(count @ 1..=MOST) => Some(count as usize),
        _ => None,
    }
}

/// Takes the next line, and returns what it counts; `None` if no line is left. Its counts are then in `counts`, which has a place for each
/// snapshot. `next` is the least size that may come, and `is_ended` says whether the `large` line came.
#[inline(always)]
pub(crate) fn next_entry(
    next: u32,
    is_ended: bool,
    lines: &mut Lines<'_>,
    counts: &mut [u32],
) -> Option<Result<Subject, HistoryFault>>
    ensures { GivesNextEntry result counts.new (length counts.old) next is_ended lines.old lines.new }
{
    if is_ended {
        return next_by_words(next, is_ended, lines, counts);
    }
    // most lines are read in one pass
    match lines.next_row(counts) {
        Some(size) => Some(row_entry(next, size, counts)),
        None => next_by_words(next, is_ended, lines, counts),
    }
}

// the same, word by word
fn next_by_words(
    next: u32,
    is_ended: bool,
    lines: &mut Lines<'_>,
    counts: &mut [u32],
) -> Option<Result<Subject, HistoryFault>>
    ensures { GivesNextEntry result counts.new (length counts.old) next is_ended lines.old lines.new }
{
    let line = lines.next()?;
    Some(entry_in(next, is_ended, line, counts))
}

// what a line counts, by its numbers
fn row_entry(next: u32, size: u64, counts: &[u32]) -> Result<Subject, HistoryFault>
    ensures { (ws : List (List ℕ)) → AreRowWords ws size counts.now
        → GivesEntry result counts.now (entry_of (length counts.now) next Bool.false ws) }
{
    if size > u64::from(LARGEST_COUNTED) {
        return Err(HistoryFault::Counted(ProfileFault::BadLine));
    }
    check_entry(next, Subject::Size(size as u32), counts)
}

// what a line counts, by its text
fn entry_in(
    next: u32,
    is_ended: bool,
    line: &[u8],
    counts: &mut [u32],
) -> Result<Subject, HistoryFault>
    ensures { GivesEntry result counts.new (entry_of (length counts.old) next is_ended (words line.now)) }
{
    let mut words = words_in(line);
    let Some(first) = words.next() else {
        return Err(HistoryFault::Counted(ProfileFault::BadLine));
    };
    if is_ended {
        return Err(HistoryFault::Counted(ProfileFault::BadLine));
    }
    entry_after(next, subject_in(first), words, counts)
}

// what a line counts, by its first word
fn subject_in(first: &[u8]) -> Option<Subject>
    ensures { result ≡ subject_of first.now }
{
    if first == LARGE {
        return Some(Subject::Large);
    }
    let size = capped_number_in(first, u32::MAX)?;
    if size > LARGEST_COUNTED {
        return None;
    }
    Some(Subject::Size(size))
}

// the entry of a line by its first word and the words after it
fn entry_after(
    next: u32,
    subject: Option<Subject>,
    words: Words<'_>,
    counts: &mut [u32],
) -> Result<Subject, HistoryFault>
    ensures { GivesEntry result counts.new
        (entry_with_numbers (length counts.old) next subject (numbers_of words.entry)) }
{
    let Some(subject) = subject else {
        return Err(HistoryFault::Counted(ProfileFault::BadLine));
    };
    fill(words, counts)?;
    check_entry(next, subject, counts)
}

// the subject of a line that has a count for each snapshot, if its size is in order and its counts are in range
fn check_entry(next: u32, subject: Subject, counts: &[u32]) -> Result<Subject, HistoryFault>
    ensures { (numbers : List ℕ) → counts.now ≡ map capped numbers
        → GivesEntry result counts.now (entry_with (length numbers) next subject numbers) }
{
    if !is_in_order(next, subject) {
        return Err(HistoryFault::Counted(ProfileFault::NotAscending));
    }
    if !are_in_range(counts) {
        return Err(HistoryFault::Counted(ProfileFault::CountOutOfRange));
    }
    Ok(subject)
}

// Reads the words as numbers, as many as there are places for them. A larger number stands as the largest that a place holds.
fn fill(mut words: Words<'_>, counts: &mut [u32]) -> Result<(), HistoryFault>
    ensures { Fills result counts.new (length counts.old) (numbers_of words.entry) }
{
    for place in 0..counts.len() {
        let Some(read) = words.next_as_number() else {
            return Err(HistoryFault::WrongLength);
        };
        let Some(number) = capped_number(read) else {
            return Err(HistoryFault::Counted(ProfileFault::BadLine));
        };
        counts[place] = number;
    }
    end(words)
}

// the words after the last place: none may come, and one that is no number is found before that
fn end(mut words: Words<'_>) -> Result<(), HistoryFault>
    ensures { Fills result [] 0 (numbers_of words.entry) }
{
    let mut is_too_long = false;
    while let Some(read) = words.next_as_number() {
        let Some(_) = capped_number(read) else {
            return Err(HistoryFault::Counted(ProfileFault::BadLine));
        };
        is_too_long = true;
    }
    if is_too_long {
        return Err(HistoryFault::WrongLength);
    }
    Ok(())
}

// the number that was read, as 32 bits hold it; `None` if there is none
fn capped_number(read: Number) -> Option<u32>
    ensures { (spelled : Option ℕ) → read ≡ classified spelled → result ≡ option_map capped spelled }
{
    match read {
        Number::NoNumber => None,
        Number::TooLarge => Some(u32::MAX),
        Number::Value(number) => Some(number.min(u64::from(u32::MAX)) as u32),
    }
}

// whether the size is not below the next one
fn is_in_order(next: u32, subject: Subject) -> bool
    ensures { result ≡ is_in_order next subject }
{
    match subject {
        Subject::Size(size) => next <= size,
        Subject::Large => true,
    }
}

// whether a line may have these counts
#[tactic(auto, using(crate::proofs::Entries::range_greatest))]
fn are_in_range(counts: &[u32]) -> bool
    ensures { result ≡ are_in_range counts.now }
{
    let most = greatest(counts);
    most <= GREATEST_COUNT && 0 < most
}
