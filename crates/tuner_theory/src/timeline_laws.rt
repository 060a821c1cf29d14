//! What holds for every timeline, table and fit. Each law is the contract of a function that does nothing.
ghost use Rattle.std.specs.Prelude.{◌≡◌, ◌↔◌, ℕ, ◌≤◌, ◌<◌, Bool, List, IsSome, length, slice_index};
ghost use Rattle.class_table.specs.Sizes.{largest_counted};
ghost use Rattle.class_table.specs.Tables.{IsLegalTable, class_for};
ghost use Rattle.tuner_theory.specs.Best.{IsCandidate};
ghost use Rattle.tuner_theory.specs.Footprint.{IsFitted, footprint_of};
ghost use Rattle.tuner_theory.specs.Histories.{AreSnapshots, peaks};
ghost use Rattle.tuner_theory.specs.Served.{served};
ghost use Rattle.tuner_theory.specs.Sheets.{IsFitVerdict, Sheet};
ghost use Rattle.tuner_theory.specs.Timelines.{AreMoments, IsLeastOver, IsTimeline, footprint_over, history_at, moments, requested, snapshot_at};
ghost use Rattle.tuner_theory.specs.Waste.{Serves};
ghost use Rattle.tuner_theory.specs.declared.size_event.SizeEvent.{SizeEvent};
ghost use Rattle.tuner_theory.specs.declared.verdict.Verdict.TheVariants.{Optimal};

/// Some moments of a timeline are a history, and no table takes more over them than over the whole timeline.
/// A table serves each size that is live at a moment exactly if it serves each requested size, up to the largest that is counted.
/// If the largest requested size (up to the largest that is counted) is live at one of some moments, then a table that serves their history
/// serves each size that is live at any moment. So of a fit over them nothing is left to show but that its footprint is the same.
/// The table that is fitted over some moments, if it serves each size that is live at a moment and takes no more over the whole timeline, is
/// the one that would be fitted over all moments. So which moments were looked at is not seen in the table.
pub fn law_moments()
    ensures history { (events : List SizeEvent) (numbers : List ℕ) → IsTimeline events → AreMoments events numbers
        → AreSnapshots (history_at events numbers) }
    ensures less { (events : List SizeEvent) (numbers classes : List ℕ) → AreMoments events numbers
        → footprint_of (history_at events numbers) classes ≤ footprint_over events classes }
    ensures sizes { (events : List SizeEvent) (classes : List ℕ) → IsTimeline events
        → Serves (peaks (moments events)) classes
        ↔ ((n : ℕ) → n ≤ largest_counted → 0 < requested events n → IsSome (class_for classes n)) }
    ensures largest { (events : List SizeEvent) (numbers classes : List ℕ) (k largest : ℕ)
        → IsTimeline events → k < length numbers
        → largest ≤ largest_counted → 0 < slice_index (snapshot_at events (slice_index numbers k)) largest
        → ((n : ℕ) → n ≤ largest_counted → 0 < requested events n → n ≤ largest)
        → Serves (peaks (history_at events numbers)) classes → Serves (peaks (moments events)) classes }
    ensures table { (forced : Bool) (events : List SizeEvent) (numbers : List ℕ) (step limit : ℕ) (classes : List ℕ)
        → AreMoments events numbers
        → IsFitted forced (history_at events numbers) step limit classes → Serves (peaks (moments events)) classes
        → footprint_over events classes ≡ footprint_of (history_at events numbers) classes
        → IsFitted forced (moments events) step limit classes }
{}

/// A fit that is optimal over some moments bounds from below what any table takes over the whole timeline, if it serves each size that is live
/// at a moment, and where the fit's largest class is forced the largest size too.
/// If a fit is optimal over some moments, and its table serves each size that is live at a moment and takes no more over the whole timeline,
/// then no table takes less over the whole timeline.
pub fn law_fit_over_timeline()
    ensures bound { (events : List SizeEvent) (numbers : List ℕ) (fit : Sheet) (other : List ℕ) → IsTimeline events
        → AreMoments events numbers → IsLegalTable 1 fit.table → IsFitVerdict (history_at events numbers) fit Optimal
        → IsCandidate (served fit.forced (peaks (moments events))) fit.step fit.limit other
        → fit.cost ≤ footprint_over events other }
    ensures least { (events : List SizeEvent) (numbers : List ℕ) (fit : Sheet) → IsTimeline events
        → AreMoments events numbers
        → IsLegalTable 1 fit.table → IsFitVerdict (history_at events numbers) fit Optimal
        → Serves (peaks (moments events)) fit.table → footprint_over events fit.table ≡ fit.cost
        → IsLeastOver fit.forced events fit.step fit.limit fit.table }
{}
