//! What a heap takes of its region over a timeline. Each law is the contract of a function that does nothing.
//! A heap takes a slot when it first gives it out, and keeps it: a slot that was freed is given out again and not given back.
ghost use Rattle.std.specs.Prelude.{◌≡◌, ℕ, ◌+◌, ◌++◌, ◌*◌, ◌/◌, ◌<◌, ◌≤◌, Bool, true, List, length, Some, IsOk, IsSome};
ghost use Rattle.class_table.specs.Layout.{IsPartition, Partition, share_of};
ghost use Rattle.class_table.specs.Sizes.{granule_bytes, largest_counted};
ghost use Rattle.class_table.specs.Tables.{IsLegalTable, class_for};
ghost use Rattle.footprint_theory.specs.Calls.{AreAnswered, Call, IsRun, heap_of};
ghost use Rattle.footprint_theory.specs.Room.{HasRoom, granules_needed};
ghost use Rattle.footprint_theory.specs.Taken.{taken_bytes, taken_slots};
ghost use Rattle.footprint_theory.specs.Traces.{IsReplayRun, calls_of, replayed_heap};
ghost use Rattle.heap_theory.specs.Lookups.{slot_for_request};
ghost use Rattle.heap_theory.specs.State.{first_heap};
ghost use Rattle.replay_theory.specs.Replay.{first_replay};
ghost use Rattle.trace_event.specs.declared.event.Event.{Event};
ghost use Rattle.tuner_theory.specs.Best.{IsCandidate};
ghost use Rattle.tuner_theory.specs.Footprint.{blocks};
ghost use Rattle.tuner_theory.specs.Histories.{most, peaks};
ghost use Rattle.tuner_theory.specs.Served.{served};
ghost use Rattle.tuner_theory.specs.Sheets.{IsFitVerdict, Sheet};
ghost use Rattle.tuner_theory.specs.Timelines.{AreMoments, IsLeastOver, IsTimeline, footprint_over, history_at, moments};
ghost use Rattle.tuner_theory.specs.Timelines.{requested, snapshot_at};
ghost use Rattle.tuner_theory.specs.declared.size_event.SizeEvent.{SizeEvent};
ghost use Rattle.tuner_theory.specs.declared.verdict.Verdict.TheVariants.{Optimal};

/// A heap without a quarantine takes, whatever is called, its table's footprint over the timeline of the calls that it answers, no byte
/// more or less. The number of its slots of a class is the most blocks of the class that were live at a moment. A call that is refused and
/// a size above the largest that is counted count for nothing. The events are a timeline, and every beginning of a run is a run. So this
/// holds after each call.
pub fn law_heap_footprint()
    ensures timeline { (layout : Partition) (seed limit : ℕ) (calls : List Call) (events : List SizeEvent)
        → IsRun layout seed limit calls events → IsTimeline events }
    ensures beginnings { (layout : Partition) (seed limit : ℕ) (before after : List Call) (events : List SizeEvent)
        → IsRun layout seed limit (before ++ after) events
        → (first : List SizeEvent) × (rest : List SizeEvent) × (events ≡ first ++ rest)
        × IsRun layout seed limit before first }
    ensures slots { (layout : Partition) (seed : ℕ) (calls : List Call) (events : List SizeEvent)
        → IsRun layout seed 0 calls events → (class : ℕ) → 1 ≤ class
        → taken_slots (heap_of layout seed 0 calls) class ≡ most (blocks layout.classes class) (moments events) }
    ensures bytes { (layout : Partition) (seed : ℕ) (calls : List Call) (events : List SizeEvent)
        → IsRun layout seed 0 calls events
        → taken_bytes (heap_of layout seed 0 calls) ≡ footprint_over events layout.classes }
{}

/// With a quarantine it takes no fewer slots. What it takes more of a class has room in the quarantine's limit. So it takes at most its
/// limit more for each class.
pub fn law_quarantine()
    ensures at_least { (layout : Partition) (seed limit : ℕ) (calls : List Call) (events : List SizeEvent)
        → IsRun layout seed limit calls events → (class : ℕ)
        → most (blocks layout.classes class) (moments events) ≤ taken_slots (heap_of layout seed limit calls) class }
    ensures at_most { (layout : Partition) (seed limit : ℕ) (calls : List Call) (events : List SizeEvent)
        → IsRun layout seed limit calls events → (class : ℕ) → 1 ≤ class
        → taken_slots (heap_of layout seed limit calls) class
        ≤ most (blocks layout.classes class) (moments events) + limit / (granule_bytes * class) }
    ensures bytes_at_least { (layout : Partition) (seed limit : ℕ) (calls : List Call) (events : List SizeEvent)
        → IsRun layout seed limit calls events
        → footprint_over events layout.classes ≤ taken_bytes (heap_of layout seed limit calls) }
    ensures bytes_at_most { (layout : Partition) (seed limit : ℕ) (calls : List Call) (events : List SizeEvent)
        → IsRun layout seed limit calls events
        → taken_bytes (heap_of layout seed limit calls)
        ≤ footprint_over events layout.classes + length layout.classes * limit }
{}

/// A heap without a quarantine whose table is least over a timeline takes no more than any heap, with any quarantine, seed and region,
/// that runs through the same timeline under another table: one that fits the step and the limit of classes, and where the largest
/// class is forced has it. With the table of a fit that `check-fit` calls optimal it takes the fit's footprint, and any such heap takes
/// no less. The cost of a fit that is optimal over some moments alone bounds what any such heap takes.
pub fn law_least()
    ensures least { (events : List SizeEvent) (layout other : Partition) (seed other_seed limit : ℕ)
        (calls other_calls : List Call)
        → IsRun layout seed 0 calls events → IsRun other other_seed limit other_calls events
        → (forced : Bool) (step most_classes : ℕ) → IsLeastOver forced events step most_classes layout.classes
        → IsLegalTable step other.classes → length other.classes ≤ most_classes
        → (forced ≡ true → IsSome (class_for other.classes largest_counted))
        → taken_bytes (heap_of layout seed 0 calls) ≤ taken_bytes (heap_of other other_seed limit other_calls) }
    ensures fit { (events : List SizeEvent) (layout other : Partition) (seed other_seed limit : ℕ)
        (calls other_calls : List Call)
        → IsRun layout seed 0 calls events → IsRun other other_seed limit other_calls events
        → (numbers : List ℕ) (fit : Sheet)
        → AreMoments events numbers → IsFitVerdict (history_at events numbers) fit Optimal
        → footprint_over events fit.table ≡ fit.cost → layout.classes ≡ fit.table
        → IsLegalTable fit.step other.classes → length other.classes ≤ fit.limit
        → (fit.forced ≡ true → IsSome (class_for other.classes largest_counted))
        → (taken_bytes (heap_of layout seed 0 calls) ≡ fit.cost)
        × (fit.cost ≤ taken_bytes (heap_of other other_seed limit other_calls)) }
    ensures bound { (events : List SizeEvent) (numbers : List ℕ) (fit : Sheet) (other : Partition) (seed limit : ℕ)
        (calls : List Call)
        → AreMoments events numbers → IsLegalTable 1 fit.table → IsFitVerdict (history_at events numbers) fit Optimal
        → IsRun other seed limit calls events
        → IsCandidate (served fit.forced (peaks (moments events))) fit.step fit.limit other.classes
        → fit.cost ≤ taken_bytes (heap_of other seed limit calls) }
{}

/// After a run a request gets a slot if its class has more slots than blocks that are live or may be in the quarantine. So there is a run
/// through each timeline, without a refusal, under each table that serves its sizes, in each region in which every class has a slot for
/// each block that is live at a moment, and for each that the quarantine may hold. For each class the granules of the one that needs most
/// suffice.
pub fn law_room()
    ensures request { (layout : Partition) (seed limit : ℕ) (calls : List Call) (events : List SizeEvent)
        → IsRun layout seed limit calls events → (n class : ℕ) → n ≤ largest_counted
        → class_for layout.classes n ≡ Some class
        → blocks layout.classes class (snapshot_at events (length events)) + limit / (granule_bytes * class)
        < share_of layout / class
        → IsOk (slot_for_request (heap_of layout seed limit calls) n) }
    ensures run { (events : List SizeEvent) → IsTimeline events → (layout : Partition) (limit : ℕ) → IsPartition layout
        → ((n : ℕ) → n ≤ largest_counted → 0 < requested events n → IsSome (class_for layout.classes n))
        → HasRoom layout limit events → (seed : ℕ)
        → (calls : List Call) × IsRun layout seed limit calls events
        × AreAnswered (first_heap layout seed limit) calls }
    ensures granules { (layout : Partition) (limit : ℕ) (events : List SizeEvent) → IsPartition layout
        → granules_needed layout.classes limit events ≤ layout.granules → HasRoom layout limit events }
{}

/// The replay of a trace leaves the heap that the calls of the trace leave. So the laws hold for what `run` and `replay` do.
pub fn law_trace()
    ensures heap { (layout : Partition) (seed limit : ℕ) (trace : List Event)
        → heap_of layout seed limit (calls_of (first_replay layout seed limit) trace)
        ≡ replayed_heap layout seed limit trace }
    ensures bytes { (layout : Partition) (seed : ℕ) (trace : List Event) (events : List SizeEvent)
        → IsReplayRun layout seed 0 trace events
        → taken_bytes (replayed_heap layout seed 0 trace) ≡ footprint_over events layout.classes }
{}
