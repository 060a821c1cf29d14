//! An input of a fit and the counts after it. Of a timeline the events are kept, and no text.
ghost use Rattle.std.specs.Prelude.{◌≡◌, [], List, ℕ, IfOk, IfSome, OnOk, None};
ghost use Rattle.history_count.specs.Timelines.Pieces.{AreWholeLines};
ghost use Rattle.mte_engine.specs.LeadingFitInput.{HasTakenFit, IsFitBeforeEvents};

use crate::fault::AnswerError;
use crate::input_parts::read_leading;
use crate::leading_fit::LeadingFit;
use crate::timeline_search::TimelineSearch;
use byte_streams::{Input, WholeText};
use class_table::MOST_CLASSES;
use history_count::{TIMELINE, TimelineReader};
use line_text::{first_line, lines_in};
use potential_check::moments_in;
use std::alloc::{AllocError, Global};

// the lines of the longest fit, that of its moments, and the first one of a timeline
const MOST_LINES: usize = 5 + MOST_CLASSES + 2;

/// A text, until it is known to be a fit with its moments and the first line of a timeline; then these, and what was read of the timeline.
#[derive(Drop)]
pub(crate) struct LeadingFitInput {
    alloc: Global,
    pub(crate) text: WholeText,
    search: TimelineSearch,
    pub(crate) leading: Option<LeadingFit>,
    pub(crate) reader: TimelineReader,
}

impl LeadingFitInput {
    /// An input that has taken no bytes.
    pub(crate) fn new(alloc: Global) -> Result<LeadingFitInput, AllocError>
        ensures { IfOk result (λ input. HasTakenFit input []) }
    {
        Ok(LeadingFitInput {
            alloc,
            text: WholeText::new(alloc),
            search: TimelineSearch::new(MOST_LINES),
            leading: None,
            reader: TimelineReader::new(alloc)?,
        })
    }

    // has the reader go on if the text is known to be a fit and a timeline
    fn begin(&mut self) -> Result<(), AllocError>
        requires { self.old.leading ≡ None }
        ensures { OnOk result ((bytes : List ℕ) → HasTakenFit self.old bytes → HasTakenFit self.new bytes) }
    {
        let Some((front, rest)) = self.search.next_cut(&self.text.text) else {
            return Ok(());
        };
        let Some(leading) = fit_before_events(self.alloc, front)? else {
            return Ok(());
        };
        self.reader.feed(rest)?;
        self.leading = Some(leading);
        self.text = WholeText::new(self.alloc);
        Ok(())
    }
}

impl Input for LeadingFitInput {
    ghost has_taken = { HasTakenFit };

    fn take(&mut self, piece: &[u8]) -> Result<(), AllocError> {
        if self.leading.is_some() {
            return self.reader.feed(piece);
        }
        self.text.take(piece)?;
        if first_line(piece).is_none() {
            // no line has ended
            return Ok(());
        }
        self.begin()
    }
}

// The fit that these whole lines are, with the line of its moments and the first line of a timeline. `None` if they are anything else.
fn fit_before_events(alloc: Global, text: &[u8]) -> Result<Option<LeadingFit>, AllocError>
    requires { AreWholeLines text.now }
    ensures { IfOk result (λ fit. IfSome fit (λ fit. IsFitBeforeEvents text.now fit)) }
{
    let leading = match read_leading(alloc, text) {
        Ok(leading) => leading,
        Err(AnswerError::OutOfMemory) => return Err(AllocError),
        Err(AnswerError::Input(_fault)) => return Ok(None),
    };
    let mut lines = lines_in(leading.rest);
    let Some(line) = lines.next() else {
        return Ok(None);
    };
    let Some(numbers) = moments_in(alloc, line)? else {
        return Ok(None);
    };
    let Some(head) = lines.next() else {
        return Ok(None);
    };
    if head != TIMELINE || lines.next().is_some() {
        return Ok(None);
    }
    Ok(Some(LeadingFit {
        fit: leading.sheet,
        numbers,
        lines: leading.lines + 1,
    }))
}
