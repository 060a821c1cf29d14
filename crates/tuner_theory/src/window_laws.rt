//! What histories of windows say of a whole run, however long it is. The law is the contract of a function that does nothing.
ghost use Rattle.std.specs.Prelude.{ℕ, ◌≤◌, List, map};
ghost use Rattle.class_table.specs.Tables.{IsLegalTable};
ghost use Rattle.tuner_theory.specs.Best.{IsCandidate};
ghost use Rattle.tuner_theory.specs.Footprint.{footprint_of};
ghost use Rattle.tuner_theory.specs.Histories.{peaks};
ghost use Rattle.tuner_theory.specs.Served.{served};
ghost use Rattle.tuner_theory.specs.Sheets.{IsFitVerdict, Sheet};
ghost use Rattle.tuner_theory.specs.Timelines.{IsLeastOver, footprint_over, history_at, moments};
ghost use Rattle.tuner_theory.specs.Waste.{Serves};
ghost use Rattle.tuner_theory.specs.Windows.{AreWindows, IsLowerHistory, IsUpperHistory, Window, most_in};
ghost use Rattle.tuner_theory.specs.declared.size_event.SizeEvent.{SizeEvent};
ghost use Rattle.tuner_theory.specs.declared.verdict.Verdict.TheVariants.{Optimal};

/// The most blocks of each size in each of some windows are an upper history.
/// No table takes more over a run than over an upper history of it, and one that serves the sizes of this history serves each size that is
/// live at a moment of the run.
/// A fit that is optimal over a lower history bounds from below what any table takes over the run, if it serves each size that is live at a
/// moment, and where the fit's largest class is forced the largest size too.
/// The interval of a fit that is optimal over a lower history: if its table serves each size that is live at a moment, then what the table
/// takes over the run lies in it, and so does the least that any table takes. Its upper end is what the table takes over an upper history,
/// or over the run itself, where that was counted.
pub fn law_windows()
    ensures windows { (events : List SizeEvent) (windows : List Window) → AreWindows events windows
        → IsUpperHistory events (map (most_in events) windows) }
    ensures footprint { (events : List SizeEvent) (upper : List (List ℕ)) (classes : List ℕ)
        → IsUpperHistory events upper → footprint_over events classes ≤ footprint_of upper classes }
    ensures sizes { (events : List SizeEvent) (upper : List (List ℕ)) (classes : List ℕ)
        → IsUpperHistory events upper → Serves (peaks upper) classes → Serves (peaks (moments events)) classes }
    ensures bound { (events : List SizeEvent) (numbers : List ℕ) (fit : Sheet) (other : List ℕ)
        → IsLowerHistory events numbers → IsLegalTable 1 fit.table
        → IsFitVerdict (history_at events numbers) fit Optimal
        → IsCandidate (served fit.forced (peaks (moments events))) fit.step fit.limit other
        → fit.cost ≤ footprint_over events other }
    ensures interval { (events : List SizeEvent) (numbers : List ℕ) (upper : List (List ℕ))
        (fit : Sheet) (least : List ℕ) → IsLowerHistory events numbers → IsUpperHistory events upper
        → IsLegalTable 1 fit.table → IsFitVerdict (history_at events numbers) fit Optimal
        → Serves (peaks (moments events)) fit.table → IsLeastOver fit.forced events fit.step fit.limit least
        → (fit.cost ≤ footprint_over events least) × (footprint_over events least ≤ footprint_over events fit.table)
        × (footprint_over events fit.table ≤ footprint_of upper fit.table) }
{}
