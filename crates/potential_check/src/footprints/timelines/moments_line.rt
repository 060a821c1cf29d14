//! The line that names the moments of a fit.
ghost use Rattle.std.specs.Prelude.{◌≡◌, ◌≤◌, IfOk, IfSome};
ghost use Rattle.std.specs.Option.{option_map};
ghost use Rattle.class_table.specs.NamedLines.{words_after};
ghost use Rattle.line_text.specs.Lines.{words};
ghost use Rattle.line_text.specs.Numbers.{number_of};
ghost use Rattle.potential_check.specs.Footprints.Timelines.MomentsLine.{moment_of, moments_name, moments_of, moments_of_words, names_moments};

use history_count::MOST_SNAPSHOTS;
use line_text::{Words, capped_number_in, words_in};
use std::alloc::{AllocError, Global};
use tuner_theory::GREATEST_COUNT;

/// The first word of the line.
pub const MOMENTS: &[u8] = b"moments";

/// Whether the first word of a line is its name.
pub fn names_moments(line: &[u8]) -> bool
    ensures { result ≡ names_moments line.now }
{
    words_of(line).is_some()
}

/// The numbers that a line names: 1 to 1,024 of them, up to 1,000,000,000 and strictly ascending. The only error is that the allocator
/// refuses memory.
pub fn moments_in(alloc: Global, line: &[u8]) -> Result<Option<Vec<usize>>, AllocError>
    ensures { IfOk result (λ numbers. option_map (λ v. v.items) numbers ≡ moments_of line.now) }
{
    match words_of(line) {
        Some(words) => moments_of_words(alloc, words),
        None => Ok(None),
    }
}

// the words after the name
fn words_of(line: &[u8]) -> Option<Words<'_>>
    ensures { result ≡ words_after moments_name (words line.now) }
{
    let mut words = words_in(line);
    if words.next()? != MOMENTS {
        return None;
    }
    Some(words)
}

// the numbers that these words name
fn moments_of_words(alloc: Global, mut words: Words<'_>) -> Result<Option<Vec<usize>>, AllocError>
    ensures { IfOk result (λ numbers. option_map (λ v. v.items) numbers ≡ moments_of_words words.entry) }
{
    let mut numbers = Vec::new(alloc);
    let mut next = 0;
    while let Some(word) = words.next() {
        let Some(number) = moment_in(next, word) else {
            return Ok(None);
        };
        if numbers.len() == MOST_SNAPSHOTS {
            return Ok(None);
        }
        numbers.push(number as usize)?;
        next = number + 1;
    }
    if numbers.is_empty() {
        return Ok(None);
    }
    Ok(Some(numbers))
}

// the number that a word names, which is not below the next one
fn moment_in(next: u32, word: &[u8]) -> Option<u32>
    ensures number { result ≡ moment_of next (number_of word.now) }
    ensures small { IfSome result (λ number. number ≤ GREATEST_COUNT) }
{
    let number = capped_number_in(word, u32::MAX)?;
    if number < next || number > GREATEST_COUNT {
        return None;
    }
    Some(number)
}
