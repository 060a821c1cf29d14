//! How a text spells a history.
ghost use Rattle.std.specs.Prelude.{◌≡◌, ◌≤◌, IfOk, MatchResult, Ok};
ghost use Rattle.history_count.specs.Histories.{History as Counted, empty_snapshots};
ghost use Rattle.history_count.specs.HistoryText.{GivesHistory, first_reading, history_from, history_of, history_of_lines};
ghost use Rattle.history_count.specs.LineSinks.{IsFaultOf, IsReadInto};
ghost use Rattle.history_count.specs.Measures.{Measures};
ghost use Rattle.tuner_theory.specs.declared.most_snapshots.TheConstants.{MOST_SNAPSHOTS};

use crate::class_sums::{ClassSums, TableFootprint};
use crate::counted_lines::CountedLines;
use crate::fault::{HistoryError, HistoryFault};
use crate::history::History;
use crate::line::{Subject, next_entry, snapshots_in};
use crate::line_sink::LineSink;
use class_table::{ClassTable, LARGEST_COUNTED};
use line_text::{Lines, lines_in};
use profile_count::no_counts;
use std::alloc::Global;

impl History {
    /// The history that a text spells: the line `snapshots T` with T from 1 to 1,024; a line `SIZE N1 .. NT` for each counted size,
    /// ascending; then perhaps a line `large N1 .. NT`. The last line may lack its newline. Errors: the first faulty line with its fault, or
    /// `OutOfMemory`.
    pub fn read(alloc: Global, text: &[u8]) -> Result<History, HistoryError>
        ensures { GivesHistory result (history_of text.now) }
    {
        let mut lines = lines_in(text);
        let count = first_count(&mut lines)?;
        let mut counted = CountedLines::new(alloc, count, most_lines(lines.rest().len(), count))?;
        let large = read_into(alloc, count, &mut lines, &mut counted)?;
        counted.close()?;
        Ok(History::new(counted, large))
    }
}

/// What a table takes over the history that a text spells. No count of the history is kept. Errors are those of `History::read`.
pub fn footprint_of_text(
    alloc: Global,
    text: &[u8],
    table: &ClassTable,
) -> Result<TableFootprint, HistoryError>
    ensures { MatchResult result
        (λ footprint. (history : Counted) × (history_of text.now ≡ Ok history)
        × Measures table.now history.snapshots footprint)
        (λ error. IsFaultOf error (history_of text.now)) }
{
    let mut lines = lines_in(text);
    let count = first_count(&mut lines)?;
    let mut sums = ClassSums::new(alloc, table, count)?;
    read_into(alloc, count, &mut lines, &mut sums)?;
    Ok(sums.finish())
}

// how many snapshots there are, by the first line, which is then taken
fn first_count(lines: &mut Lines<'_>) -> Result<usize, HistoryError>
    ensures in_range { IfOk result (λ count. (1 ≤ count) × (count ≤ MOST_SNAPSHOTS)) }
    ensures read { MatchResult result
        (λ count. history_of_lines lines.old ≡ history_from 2 (first_reading count) lines.new)
        (λ error. IsFaultOf error (history_of_lines lines.old)) }
{
    let Some(first) = lines.next() else {
        return Err(HistoryError::Line(1, HistoryFault::BadSnapshots));
    };
    let Some(count) = snapshots_in(first) else {
        return Err(HistoryError::Line(1, HistoryFault::BadSnapshots));
    };
    Ok(count)
}

/// Reads the lines after the first of a history of so many snapshots, each of which the sink takes, and gives the counts of the large blocks.
pub(crate) fn read_into<S: LineSink>(
    alloc: Global,
    count: usize,
    lines: &mut Lines<'_>,
    sink: &mut S,
) -> Result<Vec<u32>, HistoryError>
    requires new { S.has_taken sink.old (empty_snapshots count) 0 }
    ensures classes { IfOk result (λ large. S.classes sink.new ≡ S.classes sink.old) }
    ensures read { MatchResult result
        (λ large. IsReadInto (S.has_taken sink.new) (history_from 2 (first_reading count) lines.old) large.items)
        (λ error. IsFaultOf error (history_from 2 (first_reading count) lines.old)) }
{
    let mut large = no_counts(alloc, count)?;
    let mut counts = no_counts(alloc, count)?;
    let mut next = 0;
    let mut is_ended = false;
    let mut number = 1;
    'lines: while let Some(read) = next_entry(next, is_ended, lines, &mut counts) {
        number += 1;
        let subject = match read {
            Ok(subject) => subject,
            Err(fault) => return Err(HistoryError::Line(number, fault)),
        };
        match subject {
            Subject::Size(size) => {
                sink.add(size, &counts)?;
                next = size + 1;
            }
            Subject::Large => {
                large.copy_from_slice(&counts);
                is_ended = true;
            }
        }
    }
    Ok(large)
}

// how many lines there may be in so many bytes, each with a count of at least one digit for each snapshot
fn most_lines(size: usize, count: usize) -> usize
    requires { count ≤ MOST_SNAPSHOTS }
{
    (size / (2 * count + 2)).min(LARGEST_COUNTED as usize) + 1
}
