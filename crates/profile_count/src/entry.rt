ghost use Rattle.std.specs.Prelude.{◌≡◌, ◌≢◌, ℕ, List, [], ◌∷◌, IfOk, IfSome, IfNone, drop, slice_get};
ghost use Rattle.std.specs.Option.{option_map};
ghost use Rattle.line_text.specs.Lines.{words};
ghost use Rattle.line_text.specs.Numbers.{number_of};
ghost use Rattle.profile_count.specs.ProfileText.{IsNext, entry_of, is_count, large_entry, numbers_entry, size_entry};

use crate::fault::ProfileFault;
use class_table::LARGEST_COUNTED;
use line_text::{Lines, capped_number_in, words_in};
use tuner_theory::GREATEST_COUNT;

/// The first word of the line of large requests.
pub const LARGE: &[u8] = b"large";

/// What a line of a profile counts.
#[derive(Clone, Copy)]
pub enum Entry {
    /// Requests of a size, in bytes, and how many of them.
    Size(u32, u32),
    /// How many large requests.
    Large(u32),
}

/// Takes the next line, and returns what it counts; `None` if no line is left. `next` is the least size that may come, `large` the count
/// of the `large` line, 0 if none came.
#[inline(always)]
pub(crate) fn next_entry(
    next: u32,
    large: u32,
    lines: &mut Lines<'_>,
) -> Option<Result<Entry, ProfileFault>>
    ensures entry { result ≡ option_map (λ line. entry_of next large (words line)) (slice_get lines.old 0) }
    ensures taken { lines.new ≡ drop 1 lines.old }
    ensures next { IfSome result (λ read. IfOk read (λ entry. IsNext next large entry)) }
{
    // `next_numbers` reads most lines in one pass. `entry_in` reads a line that it does not take.
    if large == 0
        && let Some((size, count)) = lines.next_numbers()
    {
        return Some(size_entry(next, size, count));
    }
    Some(entry_in(next, large, lines.next()?))
}

/// What a line counts. `next` is the least size that may come, `large` the count of the `large` line, 0 if none came.
pub(crate) fn entry_in(next: u32, large: u32, line: &[u8]) -> Result<Entry, ProfileFault>
    ensures entry { result ≡ entry_of next large (words line.now) }
    ensures next { IfOk result (λ entry. IsNext next large entry) }
{
    let Some((first, count)) = two_words(line) else {
        return Err(ProfileFault::BadLine);
    };
    if large > 0 {
        return Err(ProfileFault::BadLine);
    }
    if first == LARGE {
        return large_entry(count);
    }
    numbers_entry(next, first, count)
}

/// The words of a line. `None` if they are not two.
pub fn two_words(line: &[u8]) -> Option<(&[u8], &[u8])>
    ensures two { IfSome result (λ pair. words line.now ≡ pair.0.now ∷ pair.1.now ∷ []) }
    ensures other { IfNone result ((a b : List ℕ) → words line.now ≢ a ∷ b ∷ []) }
{
    let mut words = words_in(line);
    let first = words.next()?;
    let second = words.next()?;
    if let Some(_third) = words.next() {
        return None;
    }
    Some((first, second))
}

// the entry of a `large` line with this second word
fn large_entry(count: &[u8]) -> Result<Entry, ProfileFault>
    ensures entry { result ≡ large_entry (number_of count.now) }
    ensures next { (next : ℕ) → IfOk result (λ entry. IsNext next 0 entry) }
{
    let Some(count) = capped_number_in(count, u32::MAX) else {
        return Err(ProfileFault::BadLine);
    };
    if !is_count(u64::from(count)) {
        return Err(ProfileFault::CountOutOfRange);
    }
    Ok(Entry::Large(count))
}

// the entry of a line with these two words
fn numbers_entry(next: u32, size: &[u8], count: &[u8]) -> Result<Entry, ProfileFault>
    ensures entry { result ≡ numbers_entry next (number_of size.now) (number_of count.now) }
    ensures next { IfOk result (λ entry. IsNext next 0 entry) }
{
    let Some(size) = capped_number_in(size, u32::MAX) else {
        return Err(ProfileFault::BadLine);
    };
    let Some(count) = capped_number_in(count, u32::MAX) else {
        return Err(ProfileFault::BadLine);
    };
    size_entry(next, u64::from(size), u64::from(count))
}

// the entry of a line with this size and count
#[inline(always)]
fn size_entry(next: u32, size: u64, count: u64) -> Result<Entry, ProfileFault>
    ensures entry { result ≡ size_entry next size count }
    ensures next { IfOk result (λ entry. IsNext next 0 entry) }
{
    if size > u64::from(LARGEST_COUNTED) {
        return Err(ProfileFault::BadLine);
    }
    if size < u64::from(next) {
        return Err(ProfileFault::NotAscending);
    }
    if !is_count(count) {
        return Err(ProfileFault::CountOutOfRange);
    }
    Ok(Entry::Size(size as u32, count as u32))
}

// whether a line may have this count
fn is_count(count: u64) -> bool
    ensures { result ≡ is_count count }
{
    (1..=u64::from(GREATEST_COUNT)).contains(&count)
}
