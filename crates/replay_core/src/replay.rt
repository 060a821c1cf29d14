ghost use Rattle.replay_theory.specs.Run.{Run, run_after};
ghost use Rattle.trace_event.specs.Ranges.{IsInRange};
ghost use Rattle.replay_theory.specs.Report.{report_line};
ghost use Rattle.replay_theory.specs.Replay.{answer_of, variable};
ghost use Rattle.trace_event.specs.declared.event.TheConstants.Event.{LAST_VARIABLE};
ghost use Rattle.replay_core.specs.ReplayState.{first_stored, stored_after};
ghost use Rattle.heap_theory.specs.Config.{IsConfig, layout_for};
ghost use Rattle.std.specs.Prelude.{◌≡◌, ◌++◌, ◌+◌, ◌^◌, ◌<◌, ◌≤◌, IfOk, length, take};

use crate::access::LONGEST_ACCESS;
use crate::answer::Answer;
use crate::append::append;
use crate::event_numbers::EventNumbers;
use crate::perform::perform;
use crate::report_line::{write_data, write_line};
use crate::totals::Totals;
use arrayvec::ArrayVec;
use class_table::{ClassTable, MOST_CLASSES};
use std::alloc::{AllocError, Global};
use std::marker::Model;
use tagged_heap::{Config, Heap};
use trace_event::Event;

/// Room for any report line with its newline, in bytes.
pub const LINE_ROOM: usize = 160;

/// How many variables a trace has.
pub(crate) const VARIABLES: usize = Event::LAST_VARIABLE as usize + 1;

/// The replay of a trace: a heap, and the 1,024 variables that the events of the trace set and use.
///
/// Contracts see it as what is stored of a run of the definitions: heap state, variables and totals.
#[derive(Drop)]
pub struct Replay {
    pub(crate) heap: Heap,
    pub(crate) variables: Vec<u64>,
    pub(crate) totals: Totals,
    // Its first bytes are those that the last load read. One for each event would be zeroed for each.
    pub(crate) loaded: [u8; LONGEST_ACCESS],
    pub(crate) numbers: EventNumbers,
}

impl Model for Replay {
    ghost use Rattle.replay_core.specs.ReplayState.{Stored};

    ghost Value = { Stored };

    ghost use Rattle.replay_core.specs.ReplayFields.{stored, IsKept};

    ghost view = { stored };

    ghost invariant = { IsKept };
}

impl Replay {
    /// A replay before its first event: a new heap over the classes of a table, with all variables null, which is 0. The only error is that
    /// the allocator refuses the block for the heap or the one for the variables. No other call takes memory.
    pub fn new(alloc: Global, table: &ClassTable, config: Config) -> Result<Replay, AllocError>
        requires { IsConfig config }
        ensures { IfOk result (λ replay.
            replay ≡ first_stored (layout_for config table.now) config.seed config.quarantine) }
    {
        // the proof needs that the table is legal, as the contract of `len` says
        prove!(table.len() <= MOST_CLASSES);
        let variables = vec![in alloc; 0; VARIABLES]?;
        let heap = Heap::new(alloc, table, config)?;
        Ok(Replay {
            heap,
            variables,
            totals: Totals::NONE,
            loaded: [0; LONGEST_ACCESS],
            numbers: EventNumbers::new(),
        })
    }

    /// The heap.
    pub fn heap(&self) -> &Heap
        ensures { result.now.state ≡ self.now.replay.heap }
    {
        &self.heap
    }

    /// The value of a variable, 0 to 1,023: an address, or 0, which is null.
    pub fn variable(&self, v: u16) -> u64
        requires { v ≤ LAST_VARIABLE }
        ensures { result ≡ variable self.now.replay v }
    {
        self.variables[usize::from(v)]
    }

    /// Performs the event and counts it in the totals. Replaces what `line` holds by the event's report line with its newline, or by
    /// nothing if it has none. Afterwards the replay is what is stored of the run with this event added. The event's numbers must be in
    /// their ranges (`Event`), and there must have been fewer than 2^40 steps (`steps`).
    pub fn step(&mut self, event: &Event, line: &mut ArrayVec<u8, LINE_ROOM>)
        requires few { self.old.totals.events < 2 ^ 40 }
        requires in_range { IsInRange event.now }
        ensures line { line.new.items ≡ report_line (self.old.totals.events + 1) (answer_of self.old.replay event.now) }
        ensures stored { self.new ≡ stored_after self.old event.now }
        ensures run { (run : Run) → run.replay ≡ self.old.replay → (run_after run event.now).replay ≡ self.new.replay }
    {
        let mut text = [0; LINE_ROOM];
        let end = self.step_at(event, &mut text, 0);
        line.clear();
        append(line, &text[..end]);
    }

    /// As `step`, but writes the line into a text from byte `at` on, where there must be room for `LINE_ROOM` bytes. Returns where the line
    /// ends. What lies before `at` stays.
    pub fn step_at(&mut self, event: &Event, text: &mut [u8], at: usize) -> usize
        requires few { self.old.totals.events < 2 ^ 40 }
        requires in_range { IsInRange event.now }
        requires room { at + LINE_ROOM ≤ length text.old }
        ensures end { result ≤ at + LINE_ROOM }
        ensures line { take result text.new
            ≡ take at text.old ++ report_line (self.old.totals.events + 1) (answer_of self.old.replay event.now) }
        ensures stored { self.new ≡ stored_after self.old event.now }
        ensures run { (run : Run) → run.replay ≡ self.old.replay → (run_after run event.now).replay ≡ self.new.replay }
    {
        let answer = perform(&mut self.heap, &mut self.variables, event, &mut self.loaded);
        // The answers of most events have a path each that ends here: the compiler then tests the answer once, where the event was performed.
        if let Answer::Silent | Answer::Served { .. } = answer {
            self.totals.count(&self.heap, event, &answer);
            return at;
        }
        if let Answer::Loaded { len } = answer {
            self.totals.count(&self.heap, event, &answer);
            return write_data(
                text,
                at,
                &mut self.numbers,
                self.totals.events,
                &self.loaded,
                usize::from(len),
            );
        }
        self.totals.count(&self.heap, event, &answer);
        write_line(
            text,
            at,
            &mut self.numbers,
            self.totals.events,
            &answer,
            &self.loaded,
        )
    }

    /// How many events were performed.
    pub fn steps(&self) -> u64
        ensures { result ≡ self.now.totals.events }
    {
        self.totals.events
    }
}
