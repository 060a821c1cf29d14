//! What holds for every history, table and fit. Each law is the contract of a function that does nothing.
ghost use Rattle.std.specs.List.{AllZip};
ghost use Rattle.std.specs.Prelude.{◌≡◌, ℕ, ◌+◌, ◌*◌, ◌≤◌, Bool, List, [], ◌∷◌, length, slice_index};
ghost use Rattle.class_table.specs.Sizes.{granule_bytes};
ghost use Rattle.class_table.specs.Steps.{IsStep};
ghost use Rattle.class_table.specs.Tables.{IsLegalTable};
ghost use Rattle.tuner_theory.specs.Best.{IsCanonical};
ghost use Rattle.tuner_theory.specs.Footprint.{IsFitted, IsLeastFootprint, footprint_of};
ghost use Rattle.tuner_theory.specs.Histories.{AreSnapshots};
ghost use Rattle.tuner_theory.specs.Profiles.{AreCounts};
ghost use Rattle.tuner_theory.specs.Served.{served};
ghost use Rattle.tuner_theory.specs.Sheets.{IsFitVerdict, Sheet};
ghost use Rattle.tuner_theory.specs.Waste.{Serves, sum_below, waste_of};
ghost use Rattle.tuner_theory.specs.declared.verdict.Verdict.TheVariants.{Optimal};

/// A fit that meets all conditions, and whose table is legal, has a table of least footprint, whoever wrote it.
pub fn law_optimal_fit_is_least()
    ensures { (snapshots : List (List ℕ)) (fit : Sheet) → AreSnapshots snapshots → IsLegalTable 1 fit.table
        → IsFitVerdict snapshots fit Optimal → IsLeastFootprint fit.forced snapshots fit.step fit.limit fit.table }
{}

/// With one snapshot the footprint of a table that serves is its waste, the requested bytes, and a granule for each block. So the table of
/// least footprint is the one of least waste. Neither a snapshot more nor greater counts lower a footprint.
pub fn law_footprint()
    ensures footprint { (counts classes : List ℕ) (step : ℕ) → IsStep step → IsLegalTable step classes
        → Serves counts classes → footprint_of (counts ∷ []) classes
        ≡ waste_of counts classes + sum_below (λ n. slice_index counts n * (n + granule_bytes)) (length counts) }
    ensures table { (forced : Bool) (counts classes : List ℕ) (step limit : ℕ) → IsStep step → AreCounts counts
        → IsFitted forced (counts ∷ []) step limit classes → IsCanonical (served forced counts) step limit classes }
    ensures snapshot { (snapshot : List ℕ) (snapshots : List (List ℕ)) (classes : List ℕ)
        → footprint_of snapshots classes ≤ footprint_of (snapshot ∷ snapshots) classes }
    ensures counts { (fewer more : List (List ℕ)) (classes : List ℕ)
        → AllZip (λ f m. AllZip (λ a b. a ≤ b) f m) fewer more
        → footprint_of fewer classes ≤ footprint_of more classes }
{}
