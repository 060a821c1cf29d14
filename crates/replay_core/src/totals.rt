ghost use Rattle.class_table.specs.Sizes.{largest_counted};
ghost use Rattle.class_table.specs.Tables.{IsLegalTable};
ghost use Rattle.replay_theory.specs.Report.{total_line, totals_text};
ghost use Rattle.replay_theory.specs.Totals.{request_size, totals_after, with_answer, with_request};
ghost use Rattle.line_text.specs.Lines.{ended};
ghost use Rattle.replay_core.specs.TotalsBounds.{AreBounded};
ghost use Rattle.replay_core.specs.TheoryValues.{TellsRequest, shown, totals_in};
ghost use Rattle.std.specs.Prelude.{◌≡◌, ◌++◌, ◌+◌, ◌*◌, ◌^◌, ◌<◌, ◌≤◌, List, Option, length, ℕ};

use crate::answer::Answer;
use crate::append::{append, append_number};
use crate::replay::Replay;
use arrayvec::ArrayVec;
use heap_theory::NullCause;
use tagged_heap::Heap;
use trace_event::Event;

/// Room for the lines of totals, in bytes.
pub const TOTALS_ROOM: usize = 512;

/// What is counted over the events of a trace. A request is a malloc, a calloc or a realloc.
#[derive(Clone, Copy, Debug, PartialEq, Eq)]
pub struct Totals {
    /// All events.
    pub events: u64,
    /// The requests, whatever their results.
    pub requests: u64,
    /// The requests that were refused because they ask for more than any class serves.
    pub null_large: u64,
    /// The requests that were refused because no class serves them.
    pub null_no_class: u64,
    /// The requests that were refused because their class had no slot left.
    pub null_exhausted: u64,
    /// The mapped accesses that touched a granule whose tag differs from their pointer's.
    pub faults_tag: u64,
    /// The accesses that were not mapped.
    pub faults_unmapped: u64,
    /// The frees and reallocs of a pointer that is not null and names no live chunk.
    pub refused_frees: u64,
    /// The bytes that requests left unused in blocks of their classes, over all requests that were not refused.
    pub loss: u64,
}

impl Totals {
    /// Those of no event.
    pub(crate) const NONE: Totals = Totals {
        events: 0,
        requests: 0,
        null_large: 0,
        null_no_class: 0,
        null_exhausted: 0,
        faults_tag: 0,
        faults_unmapped: 0,
        refused_frees: 0,
        loss: 0,
    };

    /// Replaces what `text` holds by the lines of totals: each the name of a field, in words, and its number.
    pub fn write(&self, text: &mut ArrayVec<u8, TOTALS_ROOM>)
        ensures { text.new.items ≡ totals_text (totals_in self.now) }
    {
        text.clear();
        append_total(text, b"events", self.events);
        append_total(text, b"requests", self.requests);
        append_total(text, b"null large", self.null_large);
        append_total(text, b"null no-class", self.null_no_class);
        append_total(text, b"null exhausted", self.null_exhausted);
        append_total(text, b"faults tag", self.faults_tag);
        append_total(text, b"faults unmapped", self.faults_unmapped);
        append_total(text, b"refused frees", self.refused_frees);
        append_total(text, b"loss", self.loss);
    }

    /// Counts one more event on a heap, by its answer alone. The contract needs the heap and the event.
    pub(crate) fn count(&mut self, _heap: &Heap, _event: &Event, answer: &Answer)
        requires few { self.old.events < 2 ^ 40 }
        requires bounded { AreBounded (totals_in self.old) }
        requires legal { IsLegalTable 1 _heap.now.state.layout.classes }
        requires tells { TellsRequest _heap.now.state.layout.classes (request_size _event.now) answer.now }
        ensures counted { (bytes : List ℕ) →
            totals_in self.new
            ≡ totals_after _heap.now.state.layout.classes (totals_in self.old) (_event.now, shown bytes answer.now) }
        ensures bounded { AreBounded (totals_in self.new) }
    {
        self.count_answer(answer);
        self.count_request(answer);
        self.events += 1;
    }

    // Counts the answer of an event.
    fn count_answer(&mut self, answer: &Answer)
        requires { AreBounded (totals_in self.old) }
        ensures { (bytes : List ℕ) → totals_in self.new ≡ with_answer (totals_in self.old) (shown bytes answer.now) }
    {
        match answer {
            Answer::Silent | Answer::Served { .. } | Answer::Loaded { .. } => {}
            Answer::NotMapped => self.faults_unmapped += 1,
            Answer::TagFault { .. } => self.faults_tag += 1,
            Answer::NoPointer(NullCause::Large) => self.null_large += 1,
            Answer::NoPointer(NullCause::NoClass) => self.null_no_class += 1,
            Answer::NoPointer(NullCause::Exhausted) => self.null_exhausted += 1,
            Answer::NotFreed(_) | Answer::NotResized(_) => self.refused_frees += 1,
        }
    }

    // Counts the request of an event, if it is one, by its answer, and what it loses if it was served.
    fn count_request(&mut self, answer: &Answer)
        requires few { self.old.requests ≤ 2 ^ 40 }
        requires small { self.old.loss ≤ largest_counted * 2 ^ 40 }
        ensures { (bytes : List ℕ) (classes : List ℕ) (size : Option ℕ) → TellsRequest classes size answer.now →
            totals_in self.new ≡ with_request classes (totals_in self.old) size (shown bytes answer.now) }
    {
        match *answer {
            Answer::Served { loss } => {
                self.requests += 1;
                self.loss += u64::from(loss);
            }
            Answer::NoPointer(_) | Answer::NotResized(_) => self.requests += 1,
            Answer::Silent
            | Answer::Loaded { .. }
            | Answer::NotMapped
            | Answer::TagFault { .. }
            | Answer::NotFreed(_) => {}
        }
    }
}

impl Replay {
    /// The counts over the events so far.
    pub fn totals(&self) -> Totals
        ensures { totals_in result ≡ self.now.totals }
    {
        self.totals
    }
}

// Appends a line of totals. What follows stands in the contract, so that one line proves each of many calls.
#[tactic(auto, using(std::proofs::Common::append_assoc))]
fn append_total(text: &mut ArrayVec<u8, TOTALS_ROOM>, name: &[u8], total: u64)
    requires { length text.old.items + length name.now + 22 ≤ TOTALS_ROOM }
    ensures items { (rest : List ℕ) →
        text.new.items ++ rest ≡ text.old.items ++ (ended (total_line name.now total) ++ rest) }
    ensures len { length text.new.items ≤ length text.old.items + length name.now + 22 }
{
    append(text, name);
    text.push(b' ');
    append_number(text, total);
    text.push(b'\n');
}
