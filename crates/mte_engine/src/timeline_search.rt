//! Where a timeline begins in a text that comes in pieces.
ghost use Rattle.std.specs.Prelude.{IfSome};
ghost use Rattle.mte_engine.specs.LeadingFitInput.{IsCutAfterLine};

use history_count::TIMELINE;
use line_text::first_line;

/// Looks for the first line of a timeline among the first lines of a text, each of them once.
#[derive(Drop)]
pub(crate) struct TimelineSearch {
    // where the line begins that has not ended
    at: usize,
    // how many lines it still looks at
    lines_left: usize,
}

impl TimelineSearch {
    /// A search among so many lines.
    pub(crate) fn new(lines: usize) -> TimelineSearch {
        TimelineSearch {
            at: 0,
            lines_left: lines,
        }
    }

    /// The text up to the end of the first line of a timeline, and the text after it; `None` if no such line has ended. The text begins with
    /// those of the calls before. Once it is found, the search is over.
    pub(crate) fn next_cut<'a>(&mut self, text: &'a [u8]) -> Option<(&'a [u8], &'a [u8])>
        ensures { IfSome result (λ cut. IsCutAfterLine text.now cut.0.now cut.1.now) }
    {
        while self.lines_left > 0 {
            let (_seen, unread) = text.split_at(self.at.min(text.len()));
            let (line, rest) = first_line(unread)?;
            self.at = text.len() - rest.len();
            self.lines_left -= 1;
            if line == TIMELINE {
                self.lines_left = 0;
                return Some((&text[..self.at], rest));
            }
        }
        None
    }
}
