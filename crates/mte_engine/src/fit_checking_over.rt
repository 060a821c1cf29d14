//! `check-fit` over a timeline: the verdict on a fit with the moments that it names.
ghost use Rattle.std.specs.Prelude.{◌≡◌, ◌+◌, ◌++◌, Ok, Err, IfOk, MatchResult, ℕ, List, drop, length, nat_lt, take};
ghost use Rattle.byte_streams.specs.TextLeft.{text_left};
ghost use Rattle.potential_check.specs.Certificates.SheetView.{sheet_of};
ghost use Rattle.line_text.specs.Lines.{ended, lines};
ghost use Rattle.history_count.specs.Timelines.Pieces.{IsReadingOf};
ghost use Rattle.history_count.specs.Timelines.TimelineText.{head_line, timeline_of, timeline_of_lines};
ghost use Rattle.claim_line.specs.Claims.{timeline_claim};
ghost use Rattle.mte_engine.specs.Check.{claim_asked};
ghost use Rattle.mte_engine.specs.CheckFitOver.{IsCheckedOver, begins_moments, moments_part, over_verdict_text, whole_moments_part};
ghost use Rattle.mte_engine.specs.CountsInput.{HasTakenCounts};
ghost use Rattle.mte_engine.specs.Outcome.{GivesAnswer};
ghost use Rattle.mte_engine.specs.Parts.{AnswersPart, AreFewLines, GivesPart, both_parts, lacking, timeline_part};
ghost use Rattle.potential_check.specs.Footprints.Timelines.MomentsLine.{moments_of};

use crate::border::{CutInput, end_first, line_count};
use crate::counts_input::{CountsInput, end_timeline, read_as_timeline};
use crate::engine::Status;
use crate::fault::{AnswerError, InputFault};
use crate::input_parts::{end_text, read_timeline};
use crate::leading_fit::LeadingFit;
use crate::verdict_text::text_of_optimal;
use byte_streams::Text;
use claim_line::{Claim, claim_over_timeline};
use history_count::{Timeline, TimelineReader};
use line_text::lines_in;
use potential_check::{Fit, OverVerdict, check_over, moments_in, names_moments};
use std::alloc::{AllocError, Global};
use tool_call::Options;

/// Whether a text begins with the line of a fit's moments.
pub(crate) fn begins_moments(text: &[u8]) -> bool
    ensures { result ≡ begins_moments (lines text.now) }
{
    match lines_in(text).next() {
        Some(line) => names_moments(line),
        None => false,
    }
}

/// The answer to a fit and the text that follows this many lines: the line of the fit's moments, and then a timeline.
pub(crate) fn check_after_moments(
    alloc: Global,
    options: Options,
    fit: &Fit,
    text: &[u8],
    before: u64,
) -> Result<(Text, Status), AnswerError>
    requires { AreFewLines (before + 1) }
    ensures { GivesAnswer text_left (AnswersPart (both_parts (whole_moments_part before (take 1 (lines text.now)))
        (timeline_part (before + 1) (timeline_of_lines (drop 1 (lines text.now)))))
        (λ parts answer. IsCheckedOver options (sheet_of fit.now) parts.0 parts.1 answer)) result }
{
    let number = before + 1;
    let mut lines = lines_in(text);
    let Some(line) = lines.next() else {
        return Err(AnswerError::Input(InputFault::BadFit(number)));
    };
    let numbers = read_moments(alloc, line, number)?;
    check_timeline(alloc, options, fit, &numbers, lines.rest(), number)
}

/// The answer to a fit, to what is left of its text after this many lines, which is the line of its moments, and to a timeline.
pub(crate) fn check_beside_moments(
    alloc: Global,
    options: Options,
    fit: &Fit,
    rest: &[u8],
    before: u64,
    counts: CountsInput,
) -> Result<(Text, Status), AnswerError>
    requires { AreFewLines (before + 1) }
    ensures { (text : List ℕ) → HasTakenCounts counts text → GivesAnswer text_left
        (AnswersPart (both_parts (whole_moments_part before (lines rest.now)) (timeline_part 0 (timeline_of text)))
        (λ parts answer. IsCheckedOver options (sheet_of fit.now) parts.0 parts.1 answer)) result }
{
    let numbers = read_whole_moments(alloc, rest, before)?;
    check_beside_timeline(alloc, options, fit, &numbers, counts)
}

/// The answer to a fit, to what is left of its text after this many lines, which is the line of its moments, and to the timeline after its
/// border.
pub(crate) fn check_cut_moments(
    alloc: Global,
    options: Options,
    fit: &Fit,
    rest: &[u8],
    before: u64,
    cut: CutInput<'_>,
) -> Result<(Text, Status), AnswerError>
    requires { AreFewLines (before + 1) }
    ensures { (ls : List (List ℕ)) (border : ℕ) → cut.entry.lacks ≡ nat_lt (length ls) border → GivesAnswer text_left
        (AnswersPart (both_parts (whole_moments_part before (lines rest.now ++ lacking border ls))
        (timeline_part options.first_lines (timeline_of_lines (lines cut.entry.rest.now))))
        (λ parts answer. IsCheckedOver options (sheet_of fit.now) parts.0 parts.1 answer)) result }
{
    let numbers = read_whole_moments(alloc, rest, before)?;
    end_first(&[], cut.lacks, InputFault::BadFit(before + 2))?;
    check_timeline(
        alloc,
        options,
        fit,
        &numbers,
        cut.rest,
        line_count(options.first_lines),
    )
}

/// The answer to a fit with its moments and what was read of the timeline after it, away from its first line.
pub(crate) fn check_read_timeline(
    alloc: Global,
    options: Options,
    leading: LeadingFit,
    reader: TimelineReader,
) -> Result<(Text, Status), AnswerError>
    ensures { (rest : List ℕ) → IsReadingOf reader rest → GivesAnswer text_left
        (AnswersPart (timeline_part leading.lines (timeline_of (ended head_line ++ rest)))
        (λ events answer. IsCheckedOver options (sheet_of leading.fit) leading.numbers.items events answer)) result }
{
    let LeadingFit {
        fit,
        numbers,
        lines,
    } = leading;
    let timeline = end_timeline(reader, lines)?;
    Ok(check_against(alloc, options, &fit, &numbers, &timeline)?)
}

// the answer to a fit with its moments and a timeline of a text of its own
fn check_beside_timeline(
    alloc: Global,
    options: Options,
    fit: &Fit,
    numbers: &[usize],
    counts: CountsInput,
) -> Result<(Text, Status), AnswerError>
    ensures { (text : List ℕ) → HasTakenCounts counts text
        → GivesAnswer text_left (AnswersPart (timeline_part 0 (timeline_of text))
        (λ events answer. IsCheckedOver options (sheet_of fit.now) numbers.now events answer)) result }
{
    let timeline = read_as_timeline(alloc, counts, 0)?;
    Ok(check_against(alloc, options, fit, numbers, &timeline)?)
}

// the answer to a fit with its moments and the timeline's text that follows this many lines
fn check_timeline(
    alloc: Global,
    options: Options,
    fit: &Fit,
    numbers: &[usize],
    text: &[u8],
    before: u64,
) -> Result<(Text, Status), AnswerError>
    requires { AreFewLines before }
    ensures { GivesAnswer text_left (AnswersPart (timeline_part before (timeline_of text.now))
        (λ events answer. IsCheckedOver options (sheet_of fit.now) numbers.now events answer)) result }
{
    let timeline = read_timeline(alloc, text, before)?;
    Ok(check_against(alloc, options, fit, numbers, &timeline)?)
}

// the answer to a fit with its moments and a timeline
fn check_against(
    alloc: Global,
    options: Options,
    fit: &Fit,
    numbers: &[usize],
    timeline: &Timeline,
) -> Result<(Text, Status), AllocError>
    ensures { IfOk result (λ answered. IsCheckedOver options (sheet_of fit.now) numbers.now timeline.now
        (record { text = text_left answered.0; status = answered.1 })) }
{
    let verdict = check_over(alloc, timeline, numbers, fit)?;
    answer_for(alloc, verdict, claim_asked(options, fit, timeline))
}

// what `optimal` shows, where the options ask for it
fn claim_asked(options: Options, fit: &Fit, timeline: &Timeline) -> Option<Claim>
    ensures { result ≡ claim_asked options (timeline_claim (sheet_of fit.now) timeline.now) }
{
    if options.claim == 0 {
        return None;
    }
    Some(claim_over_timeline(fit, timeline))
}

// the numbers of the moments that a text names, which is one line and follows this many lines of the fit
fn read_whole_moments(alloc: Global, text: &[u8], before: u64) -> Result<Vec<usize>, AnswerError>
    requires { AreFewLines (before + 1) }
    ensures { MatchResult result (λ numbers. whole_moments_part before (lines text.now) ≡ Ok numbers.items)
        (λ fault. GivesPart {A = List ℕ} (Err fault) (whole_moments_part before (lines text.now))) }
{
    let number = before + 1;
    let mut lines = lines_in(text);
    let Some(line) = lines.next() else {
        return Err(AnswerError::Input(InputFault::BadFit(number)));
    };
    let numbers = read_moments(alloc, line, number)?;
    end_text(lines.rest(), InputFault::BadFit(number + 1))?;
    Ok(numbers)
}

// the numbers of the moments that a line names, which has this number in the input
fn read_moments(alloc: Global, line: &[u8], number: u64) -> Result<Vec<usize>, AnswerError>
    ensures { MatchResult result (λ numbers. moments_part number (moments_of line.now) ≡ Ok numbers.items)
        (λ fault. GivesPart {A = List ℕ} (Err fault) (moments_part number (moments_of line.now))) }
{
    match moments_in(alloc, line)? {
        Some(numbers) => Ok(numbers),
        None => Err(AnswerError::Input(InputFault::BadFit(number))),
    }
}

// the text and the status of a verdict
fn answer_for(
    alloc: Global,
    verdict: OverVerdict,
    claim: Option<Claim>,
) -> Result<(Text, Status), AllocError>
    ensures { IfOk result (λ answered.
        record { text = text_left answered.0; status = answered.1 } ≡ over_verdict_text claim verdict) }
{
    match verdict {
        OverVerdict::Optimal => Ok((text_of_optimal(alloc, claim)?, Status::Done)),
        OverVerdict::Refused(refusal) => {
            let text = format!(in alloc; "refused {refusal}\n")?.into_bytes();
            Ok((Text::new(text), Status::No))
        }
    }
}
