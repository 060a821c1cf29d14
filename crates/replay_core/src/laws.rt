//! What holds for every replay. Each law is the contract of a call that does nothing. The laws of whole runs come from `replay_theory`. A
//! `Replay` is what is stored of some run (`law_reached`), so they hold for it.
ghost use Rattle.class_table.specs.Layout.{Partition};
ghost use Rattle.replay_theory.specs.Replay.{answer_of};
ghost use Rattle.replay_theory.specs.Report.{report, report_line, totals_text};
ghost use Rattle.trace_event.specs.declared.event.Event.{Event};
ghost use Rattle.replay_core.specs.ReplayState.{IsStored, first_stored, lines_of, stored_after, stored_of};
ghost use Rattle.std.specs.Prelude.{◌≡◌, ◌+◌, ◌++◌, [], ◌∷◌, List, ℕ};

use crate::replay::Replay;
pub use replay_theory::laws::hardening::{
    law_bookkeeping, law_chunk_tags, law_copied_pointer, law_delay, law_freed, law_inside,
    law_life, law_neighbours, law_own_pointer,
};
pub use replay_theory::laws::run::{law_accesses, law_states};

/// What is stored of a run with one more event follows from the event and from what was stored before it, and so does that event's line of
/// the report. What is stored after all events determines the lines of totals. So the lines that steps from a new replay on write, and then
/// its totals, are the report.
pub fn law_report()
    ensures first { (layout : Partition) (seed quarantine : ℕ) →
        stored_of layout seed quarantine [] ≡ first_stored layout seed quarantine }
    ensures stored { (layout : Partition) (seed quarantine : ℕ) (events : List Event) (event : Event) →
        stored_of layout seed quarantine (events ++ event ∷ [])
        ≡ stored_after (stored_of layout seed quarantine events) event }
    ensures none { (layout : Partition) (seed quarantine : ℕ) → lines_of layout seed quarantine [] ≡ [] }
    ensures one_more { (layout : Partition) (seed quarantine : ℕ) (events : List Event) (event : Event) →
        let before = stored_of layout seed quarantine events in
        lines_of layout seed quarantine (events ++ event ∷ []) ≡
        lines_of layout seed quarantine events
        ++ report_line (before.totals.events + 1) (answer_of before.replay event) }
    ensures whole { (layout : Partition) (seed quarantine : ℕ) (events : List Event) →
        report layout seed quarantine events ≡ lines_of layout seed quarantine events
        ++ totals_text (stored_of layout seed quarantine events).totals }
{}

impl Replay {
    /// Every replay holds what the run of some list of events leaves.
    pub fn law_reached(&self)
        ensures { IsStored self.now }
    {
        // the use of a field gives the proof the invariant of the type
        let _ = &self.heap;
    }
}
