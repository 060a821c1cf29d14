//! `check`: the verdict on a sheet, whoever wrote it.
ghost use Rattle.std.specs.Prelude.{◌≡◌, IfOk};
ghost use Rattle.claim_line.specs.Claims.{profile_claim};
ghost use Rattle.mte_engine.specs.Check.{IsChecked, IsJudged, check_answers, check_on_answers, leading_sheet, sheet_at_border};
ghost use Rattle.mte_engine.specs.Check.{claim_asked, verdict_text};
ghost use Rattle.line_text.specs.Lines.{lines};
ghost use Rattle.mte_engine.specs.Outcome.{GivesAnswer, Runs};
ghost use Rattle.mte_engine.specs.Parts.{AnswersPart, AreFewLines, profile_part};
ghost use Rattle.potential_check.specs.Certificates.SheetView.{sheet_of};
ghost use Rattle.profile_count.specs.ProfileText.{profile_of};
ghost use Rattle.byte_streams.specs.TextLeft.{text_left};

use crate::border::{cut_after_lines, end_first, line_count};
use crate::engine::{Engine, Status, run_engine};
use crate::fault::{AnswerError, InputFault, ToolFault};
use crate::input_parts::{end_text, read_leading, read_profile};
use crate::verdict_text::text_of_optimal;
use byte_streams::{ByteSink, ByteSource, Text, WholeText};
use claim_line::{Claim, claim_on_profile};
use potential_check::{Sheet, Verdict, check as verdict_on};
use profile_count::Profile;
use std::alloc::{AllocError, Global};
use tool_call::Options;

/// Reads a sheet and then a profile. It writes `optimal`, or `refused CODE NAME` with the status of a no: the first refusal (39 to 47) of
/// the sheet for the profile. `optimal` means that no table wastes less, of all tables that have at most the sheet's limit of classes, all
/// of them multiples of its step, and that serve each counted size; if the sheet forces the largest class, of those that have it. With
/// `claim` a line after `optimal` says what was shown. `first_lines` says how many lines the sheet is; without it these are the first three,
/// one more for each of `step` and `forced`, and all lines directly after them whose first word is `row`.
///
/// Faults of the input (`Input`), in this order: that it is too long; the fault of the sheet; that of the profile. `ToolFault` has the
/// other faults, and what the sink took when one comes.
pub fn check<R: ByteSource, W: ByteSink>(
    alloc: Global,
    options: Options,
    source: &mut R,
    sink: &mut W,
) -> Result<Status, ToolFault>
    ensures { Runs (check_answers options) (R.state source.old) (R.state source.new) W.state sink.old sink.new result }
{
    run_engine(alloc, &CheckEngine { options }, source, sink)
}

// the options of `check`
#[derive(Drop)]
struct CheckEngine {
    options: Options,
}

impl Engine for CheckEngine {
    type Input = WholeText;

    type Output = Text;

    ghost answers = { λ e. check_answers e.options };

    fn input(&self, alloc: Global) -> Result<WholeText, AllocError> {
        Ok(WholeText::new(alloc))
    }

    fn answer(&self, alloc: Global, input: WholeText) -> Result<(Text, Status), AnswerError> {
        check_text(alloc, self.options, &input.text)
    }
}

// the answer to a text
fn check_text(alloc: Global, options: Options, text: &[u8]) -> Result<(Text, Status), AnswerError>
    ensures { GivesAnswer text_left (check_answers options text.now) result }
{
    if options.first_lines > 0 {
        return check_at_border(alloc, options, text);
    }
    check_leading(alloc, options, text)
}

// the answer to a text, of which the lines that have a sheet's form are the sheet
fn check_leading(
    alloc: Global,
    options: Options,
    text: &[u8],
) -> Result<(Text, Status), AnswerError>
    ensures { GivesAnswer text_left (AnswersPart (leading_sheet (lines text.now)) (IsChecked options)) result }
{
    let leading = read_leading(alloc, text)?;
    check_profile(alloc, options, &leading.sheet, leading.rest, leading.lines)
}

// the answer to a text, where the options say how many of its lines are the sheet
fn check_at_border(
    alloc: Global,
    options: Options,
    text: &[u8],
) -> Result<(Text, Status), AnswerError>
    ensures { GivesAnswer text_left
        (AnswersPart (sheet_at_border options.first_lines (lines text.now)) (IsChecked options)) result }
{
    let cut = cut_after_lines(text, options.first_lines);
    let leading = read_leading(alloc, cut.first)?;
    end_first(
        leading.rest,
        cut.lacks,
        InputFault::BadSheet(leading.lines + 1),
    )?;
    check_profile(
        alloc,
        options,
        &leading.sheet,
        cut.rest,
        line_count(options.first_lines),
    )
}

/// The answer to a sheet's text and a profile's.
pub(crate) fn check_texts(
    alloc: Global,
    options: Options,
    sheet: &[u8],
    text: &[u8],
) -> Result<(Text, Status), AnswerError>
    ensures { GivesAnswer text_left (check_on_answers options sheet.now text.now) result }
{
    let leading = read_leading(alloc, sheet)?;
    end_text(leading.rest, InputFault::BadSheet(leading.lines + 1))?;
    check_profile(alloc, options, &leading.sheet, text, 0)
}

// the answer to a sheet and the profile's text that follows this many lines
fn check_profile(
    alloc: Global,
    options: Options,
    sheet: &Sheet,
    text: &[u8],
    before: u64,
) -> Result<(Text, Status), AnswerError>
    requires { AreFewLines before }
    ensures { GivesAnswer text_left (AnswersPart (profile_part before (profile_of text.now))
        (λ profile answer. IsChecked options (sheet_of sheet.now, profile) answer)) result }
{
    let profile = read_profile(alloc, text, before)?;
    let verdict = verdict_of(alloc, options, sheet, &profile)?;
    let claim = claim_asked(options, sheet, &profile);
    Ok(answer_for(alloc, verdict, claim)?)
}

/// The verdict on a sheet, whoever made it, for a profile. The only error is that the allocator refuses memory.
pub fn verdict_of(
    alloc: Global,
    options: Options,
    sheet: &Sheet,
    profile: &Profile,
) -> Result<Verdict, AllocError>
    ensures { IfOk result (IsJudged options (sheet_of sheet.now) profile.now) }
{
    verdict_on(alloc, profile, sheet)
}

// what `optimal` shows, where the options ask for it
fn claim_asked(options: Options, sheet: &Sheet, profile: &Profile) -> Option<Claim>
    ensures { result ≡ claim_asked options (profile_claim (sheet_of sheet.now) profile.now) }
{
    if options.claim == 0 {
        return None;
    }
    Some(claim_on_profile(sheet, profile))
}

// the text and the status of a verdict
fn answer_for(
    alloc: Global,
    verdict: Verdict,
    claim: Option<Claim>,
) -> Result<(Text, Status), AllocError>
    ensures { IfOk result (λ answered.
        record { text = text_left answered.0; status = answered.1 } ≡ verdict_text claim verdict) }
{
    match verdict {
        Verdict::Optimal => Ok((text_of_optimal(alloc, claim)?, Status::Done)),
        Verdict::Refused(refusal) => {
            let text = format!(in alloc; "refused {refusal}\n")?.into_bytes();
            Ok((Text::new(text), Status::No))
        }
    }
}
