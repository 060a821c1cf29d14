//! `score`: what a table wastes on a profile.
ghost use Rattle.std.specs.Prelude.{◌≡◌, ◌++◌, ◌∷◌, [], IfOk};
ghost use Rattle.std.specs.Fmt.{decimal};
ghost use Rattle.line_text.specs.Lines.{lines};
ghost use Rattle.mte_engine.specs.Outcome.{GivesAnswer, Runs};
ghost use Rattle.mte_engine.specs.Parts.{AfterLine, AfterText, AreFewLines};
ghost use Rattle.mte_engine.specs.Score.{score_after, score_answers, score_of, score_text};
ghost use Rattle.byte_streams.specs.TextLeft.{text_left};

use crate::border::fault_of_several_lines;
use crate::engine::{Engine, Status, run_engine};
use crate::fault::{AnswerError, InputFault, ToolFault};
use crate::input_parts::{read_class_text, read_profile, read_table};
use byte_streams::{ByteSink, ByteSource, Text, WholeText};
use class_table::{ClassTable, TableError};
use itoa::Buffer;
use line_text::lines_in;
use profile_count::Profile;
use std::alloc::{AllocError, Global};
use tool_call::Options;

/// What a table is worth for a profile.
#[derive(Debug, Clone, Copy, PartialEq, Eq)]
pub enum TableScore {
    /// The bytes that it loses by rounding the requests up.
    Waste(u64),
    /// The least counted size that has no class, in bytes.
    NotServing(u16),
}

/// Reads a class line and then a profile, and writes `waste W`, the bytes that the table loses by rounding the requests up,
/// or `not serving N` with the status of a no, where N is the least counted size that has no class. A class line is one line: if
/// `first_lines` says more, it is refused.
///
/// Faults of the input (`Input`), in this order: that it is too long; the fault of the class line; that of the profile. `ToolFault` has the
/// other faults, and what the sink took when one comes.
pub fn score<R: ByteSource, W: ByteSink>(
    alloc: Global,
    options: Options,
    source: &mut R,
    sink: &mut W,
) -> Result<Status, ToolFault>
    ensures { Runs (score_answers options) (R.state source.old) (R.state source.new) W.state sink.old sink.new result }
{
    run_engine(alloc, &ScoreEngine { options }, source, sink)
}

// the options of `score`
#[derive(Drop)]
struct ScoreEngine {
    options: Options,
}

impl Engine for ScoreEngine {
    type Input = WholeText;

    type Output = Text;

    ghost answers = { λ e. score_answers e.options };

    fn input(&self, alloc: Global) -> Result<WholeText, AllocError> {
        Ok(WholeText::new(alloc))
    }

    fn answer(&self, alloc: Global, input: WholeText) -> Result<(Text, Status), AnswerError> {
        score_at_border(alloc, self.options, &input.text)
    }
}

// the answer to a text, where the options say how many of its lines are the first text, which has to be a class line
fn score_at_border(
    alloc: Global,
    options: Options,
    text: &[u8],
) -> Result<(Text, Status), AnswerError>
    ensures { GivesAnswer text_left (score_answers options text.now) result }
{
    if options.first_lines > 1 {
        let mut lines = lines_in(text);
        let Some(line) = lines.next() else {
            return Err(AnswerError::Input(InputFault::Table(TableError::BadLine)));
        };
        return Err(fault_of_several_lines(line));
    }
    score_of_text(alloc, options, text)
}

// the answer to a text, whose first line is the class line
fn score_of_text(
    alloc: Global,
    options: Options,
    text: &[u8],
) -> Result<(Text, Status), AnswerError>
    ensures { GivesAnswer text_left (AfterLine (score_after options) text.now) result }
{
    let mut lines = lines_in(text);
    let Some(line) = lines.next() else {
        return Err(AnswerError::Input(InputFault::Table(TableError::BadLine)));
    };
    let table = read_table(line)?;
    score_of_counts(alloc, options, &table, lines.rest(), 1)
}

/// The answer to a class line and a profile's text.
pub(crate) fn score_of_texts(
    alloc: Global,
    options: Options,
    class: &[u8],
    text: &[u8],
) -> Result<(Text, Status), AnswerError>
    ensures { GivesAnswer text_left (AfterText (score_after options) class.now text.now) result }
{
    let table = read_class_text(class)?;
    score_of_counts(alloc, options, &table, text, 0)
}

// the answer to a table and the profile's text that follows this many lines
fn score_of_counts(
    alloc: Global,
    options: Options,
    table: &ClassTable,
    text: &[u8],
    before: u64,
) -> Result<(Text, Status), AnswerError>
    requires { AreFewLines before }
    ensures { GivesAnswer text_left (score_after options table.now before (lines text.now)) result }
{
    let profile = read_profile(alloc, text, before)?;
    Ok(answer_for(alloc, score_of(options, table, &profile))?)
}

/// What a table is worth for a profile.
pub fn score_of(options: Options, table: &ClassTable, profile: &Profile) -> TableScore
    ensures { result ≡ score_of options table.now profile.now }
{
    match profile.unserved(table) {
        Some(size) => TableScore::NotServing(size),
        None => TableScore::Waste(profile.waste(table)),
    }
}

// the text and the status of a score
fn answer_for(alloc: Global, scored: TableScore) -> Result<(Text, Status), AllocError>
    ensures { IfOk result
        (λ answered. record { text = text_left answered.0; status = answered.1 } ≡ score_text scored) }
{
    match scored {
        TableScore::NotServing(size) => Ok((
            numbered_line(alloc, b"not serving ", u64::from(size))?,
            Status::No,
        )),
        TableScore::Waste(waste) => Ok((numbered_line(alloc, b"waste ", waste)?, Status::Done)),
    }
}

/// The line of these words and a number, with its newline.
pub(crate) fn numbered_line(alloc: Global, words: &[u8], number: u64) -> Result<Text, AllocError>
    ensures { IfOk result (λ text. text_left text ≡ words.now ++ decimal number ++ 10 ∷ []) }
{
    let mut buffer = Buffer::new();
    let mut text = Vec::from_slice(alloc, words)?;
    text.extend_from_slice(buffer.format(number).as_bytes())?;
    text.push(b'\n')?;
    Ok(Text::new(text))
}
