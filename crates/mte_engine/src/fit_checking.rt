//! `check-fit`: the verdict on a fit, whoever wrote it, over a history or over every moment of a timeline.
ghost use Rattle.std.specs.Prelude.{◌≡◌, IfOk, List, ℕ};
ghost use Rattle.byte_streams.specs.TextLeft.{text_left};
ghost use Rattle.potential_check.specs.Certificates.SheetView.{sheet_of};
ghost use Rattle.history_count.specs.HistoryText.{history_of};
ghost use Rattle.claim_line.specs.Claims.{history_claim};
ghost use Rattle.mte_engine.specs.Check.{claim_asked, verdict_text_by};
ghost use Rattle.mte_engine.specs.CheckFit.{IsFitChecked};
ghost use Rattle.mte_engine.specs.CheckFitOver.{CheckFitAtBorder, CheckFitEitherAnswers, check_fit_answers, check_fit_on_answers};
ghost use Rattle.mte_engine.specs.CountsInput.{HasTakenCounts};
ghost use Rattle.mte_engine.specs.LeadingFitInput.{HasTakenFit};
ghost use Rattle.mte_engine.specs.Outcome.{GivesAnswer, Runs};
ghost use Rattle.mte_engine.specs.Parts.{AnswersPart, AreFewLines, history_part};
ghost use Rattle.tuner_theory.specs.RefusalText.{shown_fit_refusal};

use crate::border::{cut_after_lines, end_first, line_count};
use crate::counts_input::{CountsInput, read_as_history};
use crate::engine::{Engine, Status, run_engine};
use crate::fault::{AnswerError, InputFault, ToolFault};
use crate::fit_checking_over::{
    begins_moments, check_after_moments, check_beside_moments, check_cut_moments,
    check_read_timeline,
};
use crate::input_parts::{end_text, read_history, read_leading};
use crate::leading_fit_input::LeadingFitInput;
use crate::verdict_text::text_of_optimal;
use byte_streams::{ByteSink, ByteSource, Text, WholeText};
use claim_line::{Claim, claim_over_history};
use history_count::History;
use potential_check::{Fit, Verdict, check_fit as verdict_on};
use std::alloc::{AllocError, Global};
use tool_call::Options;
use tuner_theory::FitRefusal;

/// Reads a fit and then a history, or a fit, the line of its moments and then a timeline. It writes `optimal`, or `refused CODE NAME` with
/// the status of a no: the first refusal (39 to 41, 43 to 47 and 49) of the fit for the history. `optimal` means that no table takes less,
/// of all tables that have at most the fit's limit of classes, all of them multiples of its step, and that serve each counted size; if the
/// fit forces the largest class, of those that have it. With `claim` a line after `optimal` says what was shown. `first_lines` says how many
/// lines the fit and its moments are; without it the fit is the first three, one more for each of `step` and `forced`, and all lines
/// directly after them whose first word is `row`. Of a timeline after such a fit without a fault the events are kept, of every other input
/// the text.
///
/// Faults of the input (`Input`), in this order: that it is too long; the fault of the fit; that of the history. `ToolFault` has the
/// other faults, and what the sink took when one comes.
pub fn check_fit<R: ByteSource, W: ByteSink>(
    alloc: Global,
    options: Options,
    source: &mut R,
    sink: &mut W,
) -> Result<Status, ToolFault>
    ensures { Runs (check_fit_answers options)
        (R.state source.old) (R.state source.new) W.state sink.old sink.new result }
{
    if options.first_lines > 0 {
        return run_engine(alloc, &BorderedCheckFit { options }, source, sink);
    }
    run_engine(alloc, &CheckFitEngine { options }, source, sink)
}

// the options of `check-fit`, which say how many lines the fit has
#[derive(Drop)]
struct BorderedCheckFit {
    options: Options,
}

impl Engine for BorderedCheckFit {
    type Input = WholeText;

    type Output = Text;

    ghost answers = { λ e. CheckFitAtBorder e.options e.options.first_lines };

    fn input(&self, alloc: Global) -> Result<WholeText, AllocError> {
        Ok(WholeText::new(alloc))
    }

    fn answer(&self, alloc: Global, input: WholeText) -> Result<(Text, Status), AnswerError> {
        check_fit_at_border(alloc, self.options, &input.text)
    }
}

// the options of `check-fit`
#[derive(Drop)]
struct CheckFitEngine {
    options: Options,
}

impl Engine for CheckFitEngine {
    type Input = LeadingFitInput;

    type Output = Text;

    ghost answers = { λ e. CheckFitEitherAnswers e.options };

    fn input(&self, alloc: Global) -> Result<LeadingFitInput, AllocError> {
        LeadingFitInput::new(alloc)
    }

    fn answer(&self, alloc: Global, input: LeadingFitInput) -> Result<(Text, Status), AnswerError> {
        check_fit_input(alloc, self.options, input)
    }
}

// the answer to an input
fn check_fit_input(
    alloc: Global,
    options: Options,
    input: LeadingFitInput,
) -> Result<(Text, Status), AnswerError>
    ensures { (bytes : List ℕ) → HasTakenFit input bytes
        → GivesAnswer text_left (CheckFitEitherAnswers options bytes) result }
{
    let LeadingFitInput {
        text,
        leading,
        reader,
        ..
    } = input;
    match leading {
        Some(leading) => check_read_timeline(alloc, options, leading, reader),
        None => check_fit_text(alloc, options, &text.text),
    }
}

// the answer to a text, by the line after the fit
fn check_fit_text(
    alloc: Global,
    options: Options,
    text: &[u8],
) -> Result<(Text, Status), AnswerError>
    ensures { GivesAnswer text_left (CheckFitEitherAnswers options text.now) result }
{
    let leading = read_leading(alloc, text)?;
    if begins_moments(leading.rest) {
        return check_after_moments(alloc, options, &leading.sheet, leading.rest, leading.lines);
    }
    check_history(alloc, options, &leading.sheet, leading.rest, leading.lines)
}

// the answer to a text, where the options say how many of its lines are the fit with its moments
fn check_fit_at_border(
    alloc: Global,
    options: Options,
    text: &[u8],
) -> Result<(Text, Status), AnswerError>
    ensures { GivesAnswer text_left (CheckFitAtBorder options options.first_lines text.now) result }
{
    let cut = cut_after_lines(text, options.first_lines);
    let leading = read_leading(alloc, cut.first)?;
    if begins_moments(leading.rest) {
        return check_cut_moments(
            alloc,
            options,
            &leading.sheet,
            leading.rest,
            leading.lines,
            cut,
        );
    }
    end_first(
        leading.rest,
        cut.lacks,
        InputFault::BadFit(leading.lines + 1),
    )?;
    check_history(
        alloc,
        options,
        &leading.sheet,
        cut.rest,
        line_count(options.first_lines),
    )
}

/// The answer to a fit's text and a history or a timeline, by the line after the fit in its text.
pub(crate) fn check_fit_texts(
    alloc: Global,
    options: Options,
    fit: &[u8],
    counts: CountsInput,
) -> Result<(Text, Status), AnswerError>
    ensures { (text : List ℕ) → HasTakenCounts counts text
        → GivesAnswer text_left (check_fit_on_answers options fit.now text) result }
{
    let leading = read_leading(alloc, fit)?;
    if begins_moments(leading.rest) {
        let rest = leading.rest;
        return check_beside_moments(alloc, options, &leading.sheet, rest, leading.lines, counts);
    }
    end_text(leading.rest, InputFault::BadFit(leading.lines + 1))?;
    check_beside_history(alloc, options, &leading.sheet, counts)
}

// the answer to a fit and the history's text that follows this many lines
fn check_history(
    alloc: Global,
    options: Options,
    fit: &Fit,
    text: &[u8],
    lines: u64,
) -> Result<(Text, Status), AnswerError>
    requires { AreFewLines lines }
    ensures { GivesAnswer text_left (AnswersPart (history_part lines (history_of text.now))
        (λ history answer. IsFitChecked options (sheet_of fit.now) history answer)) result }
{
    let history = read_history(alloc, text, lines)?;
    Ok(check_against(alloc, options, fit, &history)?)
}

// the answer to a fit and a history of a text of its own
fn check_beside_history(
    alloc: Global,
    options: Options,
    fit: &Fit,
    counts: CountsInput,
) -> Result<(Text, Status), AnswerError>
    ensures { (text : List ℕ) → HasTakenCounts counts text
        → GivesAnswer text_left (AnswersPart (history_part 0 (history_of text))
        (λ history answer. IsFitChecked options (sheet_of fit.now) history answer)) result }
{
    let history = read_as_history(alloc, counts, 0)?;
    Ok(check_against(alloc, options, fit, &history)?)
}

// the answer to a fit and a history
fn check_against(
    alloc: Global,
    options: Options,
    fit: &Fit,
    history: &History,
) -> Result<(Text, Status), AllocError>
    ensures { IfOk result (λ answered. IsFitChecked options (sheet_of fit.now) history.now
        (record { text = text_left answered.0; status = answered.1 })) }
{
    let verdict = verdict_on(alloc, history, fit)?;
    answer_for(alloc, verdict, claim_asked(options, fit, history))
}

// what `optimal` shows, where the options ask for it
fn claim_asked(options: Options, fit: &Fit, history: &History) -> Option<Claim>
    ensures { result ≡ claim_asked options (history_claim (sheet_of fit.now) history.now) }
{
    if options.claim == 0 {
        return None;
    }
    Some(claim_over_history(fit, history))
}

// the text and the status of a verdict
fn answer_for(
    alloc: Global,
    verdict: Verdict,
    claim: Option<Claim>,
) -> Result<(Text, Status), AllocError>
    ensures { IfOk result (λ answered.
        record { text = text_left answered.0; status = answered.1 } ≡ verdict_text_by shown_fit_refusal claim verdict) }
{
    match verdict {
        Verdict::Optimal => Ok((text_of_optimal(alloc, claim)?, Status::Done)),
        Verdict::Refused(refusal) => {
            let refusal = FitRefusal(refusal);
            let text = format!(in alloc; "refused {refusal}\n")?.into_bytes();
            Ok((Text::new(text), Status::No))
        }
    }
}
