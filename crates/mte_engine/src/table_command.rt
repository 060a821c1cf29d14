//! The commands over a class line and the counts after it, in one text and in two.
ghost use Rattle.std.specs.Prelude.{List, ℕ};
ghost use Rattle.byte_streams.specs.TextLeft.{text_left};
ghost use Rattle.line_text.specs.Lines.{lines};
ghost use Rattle.mte_engine.specs.CountsInput.{HasTakenCounts, KeepsLineAnd};
ghost use Rattle.mte_engine.specs.Outcome.{GivesAnswer};
ghost use Rattle.mte_engine.specs.Parts.{AfterText, AreFewLines, AtBorder};
ghost use Rattle.mte_engine.specs.TableCommands.{answers_after};

use crate::border::fault_of_several_lines;
use crate::counts_input::CountsInput;
use crate::engine::{Engine, Status};
use crate::fault::AnswerError;
use crate::input_parts::{read_class_text, read_table};
use crate::line_and_counts::LineAndCounts;
use crate::measuring::footprint_of_counts;
use crate::peaking::peaks_of_counts;
use byte_streams::Text;
use class_table::ClassTable;
use std::alloc::{AllocError, Global};
use tool_call::Options;

/// A command over a table, and the timeline or the history after it.
#[derive(Clone, Copy)]
pub(crate) enum TableCommand {
    Footprint,
    Peaks,
}

/// Such a command with its options, over one text.
#[derive(Drop)]
pub(crate) struct OverLine {
    pub(crate) command: TableCommand,
    pub(crate) options: Options,
}

impl Engine for OverLine {
    type Input = LineAndCounts;

    type Output = Text;

    ghost answers = { λ e. AtBorder e.options.first_lines (answers_after e.command e.options) };

    fn input(&self, alloc: Global) -> Result<LineAndCounts, AllocError> {
        LineAndCounts::new(alloc)
    }

    fn answer(&self, alloc: Global, input: LineAndCounts) -> Result<(Text, Status), AnswerError> {
        answer_to_input(self.command, alloc, self.options, input)
    }
}

// the answer to an input
fn answer_to_input(
    command: TableCommand,
    alloc: Global,
    options: Options,
    input: LineAndCounts,
) -> Result<(Text, Status), AnswerError>
    ensures { (bytes : List ℕ)
        → KeepsLineAnd input.line_has_ended input.line.items (HasTakenCounts input.counts) bytes
        → GivesAnswer text_left (AtBorder options.first_lines (answers_after command options) bytes) result }
{
    let LineAndCounts {
        line,
        line_has_ended: _,
        counts,
    } = input;
    if options.first_lines > 1 {
        return Err(fault_of_several_lines(&line));
    }
    let table = read_table(&line)?;
    answer_to_counts(command, alloc, options, &table, counts, 1)
}

/// The answer to a class line and the counts, each in a text of its own.
pub(crate) fn answer_to_both(
    command: TableCommand,
    alloc: Global,
    options: Options,
    class: &[u8],
    counts: CountsInput,
) -> Result<(Text, Status), AnswerError>
    ensures { (text : List ℕ) → HasTakenCounts counts text
        → GivesAnswer text_left (AfterText (answers_after command options) class.now text) result }
{
    let table = read_class_text(class)?;
    answer_to_counts(command, alloc, options, &table, counts, 0)
}

// the answer to a table and the counts that follow this many lines
fn answer_to_counts(
    command: TableCommand,
    alloc: Global,
    options: Options,
    table: &ClassTable,
    counts: CountsInput,
    before: u64,
) -> Result<(Text, Status), AnswerError>
    requires { AreFewLines before }
    ensures { (text : List ℕ) → HasTakenCounts counts text
        → GivesAnswer text_left (answers_after command options table.now before (lines text)) result }
{
    match command {
        TableCommand::Footprint => footprint_of_counts(alloc, options, table, counts, before),
        TableCommand::Peaks => peaks_of_counts(alloc, options, table, counts, before),
    }
}
