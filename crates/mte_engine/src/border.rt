//! The border between the two texts of one input, where the options say it.
ghost use Rattle.std.specs.Prelude.{◌≡◌, [], ◌∷◌, ◌++◌, Err, List, ℕ, drop, length, nat_lt, take};
ghost use Rattle.class_table.specs.ClassLine.{table_of_line};
ghost use Rattle.class_table.specs.declared.fault.TableError.TheVariants.{BadLine};
ghost use Rattle.line_text.specs.Lines.{lines};
ghost use Rattle.mte_engine.specs.Border.{IsCutAt};
ghost use Rattle.mte_engine.specs.Parts.{AreFewLines, EndsPart, GivesPart, alone, lacking, table_part};
ghost use Rattle.mte_engine.specs.declared.fault.InputFault.TheVariants.{Table};

use crate::fault::{AnswerError, InputFault};
use crate::input_parts::{end_text, read_table};
use class_table::TableError;
use line_text::first_line;

/// An input that is cut after some lines.
#[derive(Clone, Copy, Drop)]
pub(crate) struct CutInput<'a> {
    /// The first lines.
    pub(crate) first: &'a [u8],
    /// The lines after them.
    pub(crate) rest: &'a [u8],
    /// Whether the input has fewer lines.
    pub(crate) lacks: bool,
}

/// An input, cut after this many lines.
pub(crate) fn cut_after_lines(text: &[u8], border: u8) -> CutInput<'_>
    ensures first { lines result.first.now ≡ take border (lines text.now) }
    ensures rest { lines result.rest.now ≡ drop border (lines text.now) }
    ensures lacks { result.lacks ≡ nat_lt (length (lines text.now)) border }
{
    let (end, lacks) = end_of_lines(text, border);
    CutInput {
        first: &text[..end],
        rest: &text[end..],
        lacks,
    }
}

// the bytes of the first lines of a text, this many, and whether it has fewer
fn end_of_lines(text: &[u8], border: u8) -> (usize, bool)
    ensures { IsCutAt text.now border result.0 result.1 }
{
    if border == 0 {
        return (0, false);
    }
    match first_line(text) {
        Some((line, rest)) => {
            let (end, lacks) = end_of_lines(rest, border - 1);
            (line.len() + 1 + end, lacks)
        }
        None => (text.len(), text.is_empty() || border > 1),
    }
}

/// The lines of a first text that the options say.
pub(crate) fn line_count(border: u8) -> u64
    ensures count { result ≡ border }
    ensures few { AreFewLines result }
{
    u64::from(border)
}

/// Refuses what is left of the first text of an input after a part of it by this fault, if a line is left or lacks.
pub(crate) fn end_first(rest: &[u8], lacks: bool, fault: InputFault) -> Result<(), AnswerError>
    ensures { (ls : List (List ℕ)) (border : ℕ) → lacks ≡ nat_lt (length ls) border
        → EndsPart (lines rest.now ++ lacking border ls) fault result }
{
    if lacks {
        return Err(AnswerError::Input(fault));
    }
    end_text(rest, fault)
}

/// The fault of a first text of several lines that has to be a class line: that of its first line, or that there is a second.
pub(crate) fn fault_of_several_lines(line: &[u8]) -> AnswerError
    ensures { GivesPart {A = List ℕ} (Err result)
        (alone (table_part (table_of_line line.now)) ([] ∷ []) (Table BadLine)) }
{
    match read_table(line) {
        Ok(_table) => AnswerError::Input(InputFault::Table(TableError::BadLine)),
        Err(error) => error,
    }
}
