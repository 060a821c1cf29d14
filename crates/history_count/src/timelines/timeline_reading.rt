//! How a text spells a timeline.
ghost use Rattle.history_count.specs.Timelines.TimelineText.{GivesTimeline, timeline_of};

use crate::timelines::fault::{TimelineError, TimelineFault};
use crate::timelines::line::TIMELINE;
use crate::timelines::reader::TimelineReader;
use crate::timelines::timeline::Timeline;
use line_text::lines_in;
use std::alloc::Global;

impl Timeline {
    /// The timeline that a text spells: the line `timeline`; then a line for each event, `N` for a request of N bytes (a counted size) and `-N`
    /// for the free of such a block, `large` and `-large` for larger ones. The last line may lack its newline. Errors: the first faulty line
    /// with its fault, or `OutOfMemory`.
    pub fn read(alloc: Global, text: &[u8]) -> Result<Timeline, TimelineError>
        ensures { GivesTimeline result (timeline_of text.now) }
    {
        let mut lines = lines_in(text);
        let Some(first) = lines.next() else {
            return Err(TimelineError::Line(1, TimelineFault::BadTimeline));
        };
        if first != TIMELINE {
            return Err(TimelineError::Line(1, TimelineFault::BadTimeline));
        }
        let mut reader = TimelineReader::new(alloc)?;
        reader.feed(lines.rest())?;
        reader.finish()
    }
}
