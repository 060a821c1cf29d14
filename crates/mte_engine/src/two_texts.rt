//! The calls over two texts: a class line, a sheet or a fit, which is in memory, and what is read from a source.
ghost use Rattle.std.specs.Prelude.{◌≡◌, false};
ghost use Rattle.heap_theory.specs.Config.{IsConfig};
ghost use Rattle.mte_engine.specs.Replay.{ReplayOnAnswers};
ghost use Rattle.mte_engine.specs.Traces.{KeepsEvents};
ghost use Rattle.mte_engine.specs.TwoTexts.{answers_beside_blocks, answers_beside_profile};
ghost use Rattle.trace_reader.specs.Reading.{is_finished};

use crate::checking::check_texts;
use crate::counts_input::CountsInput;
use crate::engine::{Engine, Status};
use crate::fault::AnswerError;
use crate::fit_checking::check_fit_texts;
use crate::replaying::answer_to_texts;
use crate::report::Report;
use crate::scoring::score_of_texts;
use crate::table_command::{TableCommand, answer_to_both};
use crate::trace_feeding::feed;
use byte_streams::{Input, Text, WholeText};
use replay_core::Config;
use std::alloc::{AllocError, Global};
use tool_call::Options;
use trace_reader::{NoObserver, TraceReader};

/// A command over a profile, which comes after a first text.
#[derive(Clone, Copy)]
pub(crate) enum ProfileCommand {
    Score,
    Check,
}

/// Such a command with its options and its first text.
#[derive(Drop)]
pub(crate) struct BesideProfile<'a> {
    pub(crate) command: ProfileCommand,
    pub(crate) options: Options,
    pub(crate) first: &'a [u8],
}

impl<'a> Engine for BesideProfile<'a> {
    type Input = WholeText;

    type Output = Text;

    ghost answers = { λ e. answers_beside_profile e.command e.options e.first.now };

    fn input(&self, alloc: Global) -> Result<WholeText, AllocError> {
        Ok(WholeText::new(alloc))
    }

    fn answer(&self, alloc: Global, input: WholeText) -> Result<(Text, Status), AnswerError> {
        match self.command {
            ProfileCommand::Score => {
                score_of_texts(alloc, self.options, self.first, &input.text)
            }
            ProfileCommand::Check => check_texts(alloc, self.options, self.first, &input.text),
        }
    }
}

/// A command over a timeline or a history, which comes after a first text.
#[derive(Clone, Copy)]
pub(crate) enum BlocksCommand {
    OfTable(TableCommand),
    CheckFit,
}

/// Such a command with its options and its first text.
#[derive(Drop)]
pub(crate) struct BesideBlocks<'a> {
    pub(crate) command: BlocksCommand,
    pub(crate) options: Options,
    pub(crate) first: &'a [u8],
}

impl<'a> Engine for BesideBlocks<'a> {
    type Input = CountsInput;

    type Output = Text;

    ghost answers = { λ e. answers_beside_blocks e.command e.options e.first.now };

    fn input(&self, alloc: Global) -> Result<CountsInput, AllocError> {
        CountsInput::new(alloc)
    }

    fn answer(&self, alloc: Global, input: CountsInput) -> Result<(Text, Status), AnswerError> {
        match self.command {
            BlocksCommand::OfTable(command) => {
                answer_to_both(command, alloc, self.options, self.first, input)
            }
            BlocksCommand::CheckFit => check_fit_texts(alloc, self.options, self.first, input),
        }
    }
}

/// `replay` over a class line and a trace.
#[derive(Drop)]
pub(crate) struct BesideTrace<'a> {
    pub(crate) config: Config,
    pub(crate) class: &'a [u8],
    ghost is_config: { IsConfig config },
}

impl<'a> Engine for BesideTrace<'a> {
    type Input = TraceEvents;

    type Output = Report;

    ghost answers = { λ e. ReplayOnAnswers e.config e.class.now };

    fn input(&self, alloc: Global) -> Result<TraceEvents, AllocError> {
        Ok(TraceEvents {
            reader: TraceReader::new(alloc),
        })
    }

    fn answer(&self, alloc: Global, input: TraceEvents) -> Result<(Report, Status), AnswerError> {
        answer_to_texts(alloc, self.config, self.class, input.reader)
    }
}

/// The events of a trace.
#[derive(Drop)]
pub(crate) struct TraceEvents {
    reader: TraceReader,
    ghost open: { is_finished reader ≡ false },
}

impl Input for TraceEvents {
    ghost has_taken = { λ input bytes. KeepsEvents input.reader bytes };

    fn take(&mut self, piece: &[u8]) -> Result<(), AllocError> {
        feed(&mut self.reader, piece, &mut NoObserver)
    }
}
