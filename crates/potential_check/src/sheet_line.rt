//! What each line of a certificate spells.
ghost use Rattle.std.specs.Prelude.{◌≡◌, IfOk};
ghost use Rattle.std.specs.Option.{option_map};
ghost use Rattle.line_text.specs.Lines.{words};
ghost use Rattle.class_table.specs.NamedLines.{words_after};
ghost use Rattle.potential_check.specs.SheetText.{cost_in, fits, forced_in, is_named, limit_in, number_of_words, row_of_words, step_in, table_in};

use crate::cost::Cost;
use class_table::{ClassTable, LARGEST_CLASS, MOST_CLASSES, MOST_NEEDS, is_step};
use line_text::{Number, Words, number_in, words_in};
use std::alloc::{AllocError, Global};

/// The first word of the line with the limit of a sheet or a fit.
pub(crate) const LIMIT: &[u8] = b"limit";

/// The first word of the line with its step.
pub(crate) const STEP: &[u8] = b"step";

/// The first word of the line with its forced class.
pub(crate) const FORCED: &[u8] = b"forced";

/// The first word of each line with a row.
pub(crate) const ROW: &[u8] = b"row";

/// The only class that is forced, in granules.
pub(crate) const FORCED_CLASS: u64 = LARGEST_CLASS as u64;

// no table has more classes than this
const MOST_LIMIT: u64 = MOST_CLASSES as u64;

/// The table that a line spells.
pub(crate) fn table_in(line: &[u8]) -> Option<ClassTable>
    ensures { result ≡ table_in line.now }
{
    ClassTable::from_line(line).ok()
}

/// The limit that a line spells, 1 to 32 classes.
pub(crate) fn limit_in(line: &[u8]) -> Option<u8>
    ensures { result ≡ limit_in line.now }
{
    match only_number(words_after(LIMIT, line)?)? {
        limit @ 1..=MOST_LIMIT => Some(limit as u8),
        _ => None,
    }
}

/// The step that a line spells, which is never 1.
pub(crate) fn step_in(line: &[u8]) -> Option<u8>
    ensures { result ≡ step_in line.now }
{
    match u8::try_from(only_number(words_after(STEP, line)?)?) {
        Ok(step) if step != 1 && is_step(step) => Some(step),
        _ => None,
    }
}

/// That the largest class is forced, which a line spells.
pub(crate) fn forced_class_in(line: &[u8]) -> Option<bool>
    ensures { result ≡ forced_in line.now }
{
    match only_number(words_after(FORCED, line)?)? {
        FORCED_CLASS => Some(true),
        _ => None,
    }
}

/// The waste or the footprint that a line spells, in bytes.
pub(crate) fn cost_in(cost: Cost, line: &[u8]) -> Option<u64>
    ensures { result ≡ cost_in cost line.now }
{
    only_number(words_after(cost.word(), line)?)
}

/// The numbers of a row, which are the words after the name. There is room at once for the number of them that is expected.
pub(crate) fn row_of_words(
    alloc: Global,
    mut words: Words<'_>,
    expected: usize,
) -> Result<Option<Vec<u64>>, AllocError>
    ensures { IfOk result (λ row. option_map (λ v. v.items) row ≡ row_of_words words.entry) }
{
    let mut row = Vec::with_capacity(alloc, expected)?;
    while let Some(read) = words.next_as_number() {
        let Number::Value(number) = read else {
            return Ok(None);
        };
        if row.len() == MOST_NEEDS {
            return Ok(None);
        }
        row.push(number)?;
    }
    Ok(Some(row))
}

/// Whether a line's first word is this name.
pub(crate) fn is_named(name: &[u8], line: &[u8]) -> bool
    ensures { result ≡ is_named name.now line.now }
{
    words_after(name, line).is_some()
}

/// The words of a line after this name, if it is the first word.
pub(crate) fn words_after<'a>(name: &[u8], line: &'a [u8]) -> Option<Words<'a>>
    ensures { result ≡ words_after name.now (words line.now) }
{
    let mut words = words_in(line);
    if words.next()? != name {
        return None;
    }
    Some(words)
}

// the number that the words spell, if they are one word
fn only_number(mut words: Words<'_>) -> Option<u64>
    ensures { result ≡ number_of_words fits words.entry }
{
    let word = words.next()?;
    if let Some(_other) = words.next() {
        return None;
    }
    match number_in(word) {
        Number::Value(number) => Some(number),
        _ => None,
    }
}
