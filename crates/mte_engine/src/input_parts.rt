//! The parts of inputs, read with the input's line numbers.
ghost use Rattle.std.specs.Prelude.{◌≡◌, ◌+◌, length, Ok, Err, IfOk, MatchResult};
ghost use Rattle.line_text.specs.Lines.{lines};
ghost use Rattle.class_table.specs.ClassLine.{table_of_line};
ghost use Rattle.history_count.specs.Histories.{History as CountedHistory};
ghost use Rattle.history_count.specs.HistoryText.{history_of};
ghost use Rattle.history_count.specs.Measures.{Measures};
ghost use Rattle.profile_count.specs.ProfileText.{profile_of};
ghost use Rattle.potential_check.specs.Certificates.SheetView.{sheet_of};
ghost use Rattle.potential_check.specs.Leading.{leading_lines, lines_after};
ghost use Rattle.potential_check.specs.SheetText.{read_by};
ghost use Rattle.tuner_theory.specs.Sheets.{Sheet};
ghost use Rattle.history_count.specs.Timelines.TimelineText.{timeline_of};
ghost use Rattle.mte_engine.specs.Parts.{AreFewLines, EndsPart, GivesPart, class_part, history_part, table_part, sheet_part};
ghost use Rattle.mte_engine.specs.Parts.{profile_part, timeline_part};
ghost use Rattle.mte_engine.specs.Timelines.{begins_timeline};

use crate::fault::{AnswerError, InputFault};
use class_table::{ClassTable, TableError};
use history_count::{
    History, HistoryError, TIMELINE, TableFootprint, Timeline, TimelineError, footprint_of_text,
};
use line_text::lines_in;
use potential_check::{CostKind, LeadingSheet, SheetError, read_leading_sheet};
use profile_count::{Profile, ProfileError};
use std::alloc::Global;

/// The table that the first line of an input spells. `line` is that line without its newline.
pub fn read_table(line: &[u8]) -> Result<ClassTable, AnswerError>
    ensures { GivesPart result (table_part (table_of_line line.now)) }
{
    match ClassTable::from_line(line) {
        Ok(table) => Ok(table),
        Err(fault) => Err(AnswerError::Input(InputFault::Table(fault))),
    }
}

/// The table that a text spells, which is a class line and nothing else. A further line is `BadLine`.
pub fn read_class_text(text: &[u8]) -> Result<ClassTable, AnswerError>
    ensures { GivesPart result (class_part (lines text.now)) }
{
    let mut lines = lines_in(text);
    let Some(line) = lines.next() else {
        return Err(AnswerError::Input(InputFault::Table(TableError::BadLine)));
    };
    let table = read_table(line)?;
    end_text(lines.rest(), InputFault::Table(TableError::BadLine))?;
    Ok(table)
}

/// Refuses what is left of a text after a part of it by this fault, if a line is left.
pub fn end_text(rest: &[u8], fault: InputFault) -> Result<(), AnswerError>
    ensures { EndsPart (lines rest.now) fault result }
{
    match lines_in(rest).next() {
        None => Ok(()),
        Some(_line) => Err(AnswerError::Input(fault)),
    }
}

/// The certificate at the start of an input, and the text after it.
pub fn read_leading<C: CostKind>(
    alloc: Global,
    text: &[u8],
) -> Result<LeadingSheet<'_, C>, AnswerError>
    ensures sheet { MatchResult result
        (λ leading. sheet_part C.kind (read_by C.kind (leading_lines (lines text.now))) ≡ Ok (sheet_of leading.sheet))
        (λ fault. GivesPart {A = Sheet} (Err fault)
        (sheet_part C.kind (read_by C.kind (leading_lines (lines text.now))))) }
    ensures lines { IfOk result
        (λ leading. (leading.lines ≡ length (leading_lines (lines text.now))) × AreFewLines leading.lines) }
    ensures few { IfOk result (λ leading. AreFewLines (leading.lines + 1)) }
    ensures rest { IfOk result (λ leading. lines leading.rest.now ≡ lines_after (lines text.now)) }
{
    match read_leading_sheet(alloc, text) {
        Ok(leading) => Ok(leading),
        Err(SheetError::OutOfMemory) => Err(AnswerError::OutOfMemory),
        Err(SheetError::BadSheet(number)) => Err(AnswerError::Input(InputFault::BadSheet(number))),
        Err(SheetError::BadFit(number)) => Err(AnswerError::Input(InputFault::BadFit(number))),
    }
}

/// The profile that a text spells. The text follows this many lines of the input.
pub fn read_profile(alloc: Global, text: &[u8], lines: u64) -> Result<Profile, AnswerError>
    requires { AreFewLines lines }
    ensures { GivesPart result (profile_part lines (profile_of text.now)) }
{
    match Profile::read(alloc, text) {
        Ok(profile) => Ok(profile),
        Err(ProfileError::OutOfMemory) => Err(AnswerError::OutOfMemory),
        Err(ProfileError::Line(number, fault)) => Err(AnswerError::Input(InputFault::Profile(
            lines + u64::from(number),
            fault,
        ))),
    }
}

/// The history that a text spells. The text follows this many lines of the input.
pub fn read_history(alloc: Global, text: &[u8], lines: u64) -> Result<History, AnswerError>
    requires { AreFewLines lines }
    ensures { GivesPart result (history_part lines (history_of text.now)) }
{
    match History::read(alloc, text) {
        Ok(history) => Ok(history),
        Err(HistoryError::OutOfMemory) => Err(AnswerError::OutOfMemory),
        Err(HistoryError::Line(number, fault)) => Err(AnswerError::Input(InputFault::History(
            lines + u64::from(number),
            fault,
        ))),
    }
}

/// What a table takes over the history that a text spells. The text follows this many lines of the input.
pub fn measure_history(
    alloc: Global,
    text: &[u8],
    table: &ClassTable,
    lines: u64,
) -> Result<TableFootprint, AnswerError>
    requires { AreFewLines lines }
    ensures { MatchResult result
        (λ footprint. (history : CountedHistory) × (history_part lines (history_of text.now) ≡ Ok history)
        × Measures table.now history.snapshots footprint)
        (λ fault. GivesPart {A = CountedHistory} (Err fault) (history_part lines (history_of text.now))) }
{
    match footprint_of_text(alloc, text, table) {
        Ok(footprint) => Ok(footprint),
        Err(HistoryError::OutOfMemory) => Err(AnswerError::OutOfMemory),
        Err(HistoryError::Line(number, fault)) => Err(AnswerError::Input(InputFault::History(
            lines + u64::from(number),
            fault,
        ))),
    }
}

/// Whether a text begins with the first line of a timeline.
pub fn begins_timeline(text: &[u8]) -> bool
    ensures { result ≡ begins_timeline (lines text.now) }
{
    match lines_in(text).next() {
        Some(line) => line == TIMELINE,
        None => false,
    }
}

/// The timeline that a text spells. The text follows this many lines of the input.
pub fn read_timeline(alloc: Global, text: &[u8], lines: u64) -> Result<Timeline, AnswerError>
    requires { AreFewLines lines }
    ensures { GivesPart result (timeline_part lines (timeline_of text.now)) }
{
    match Timeline::read(alloc, text) {
        Ok(timeline) => Ok(timeline),
        Err(TimelineError::OutOfMemory) => Err(AnswerError::OutOfMemory),
        Err(TimelineError::Line(number, fault)) => Err(AnswerError::Input(InputFault::Timeline(
            lines + u64::from(number),
            fault,
        ))),
    }
}
