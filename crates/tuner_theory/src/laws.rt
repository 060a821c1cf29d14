//! What holds for every profile, table and sheet. Each law is the contract of a function that does nothing.
ghost use Rattle.std.specs.Prelude.{◌≡◌, ◌↔◌, ℕ, ◌+◌, ◌≤◌, true, List, Contains};
ghost use Rattle.class_table.specs.Steps.{IsStep};
ghost use Rattle.class_table.specs.Tables.{IsLegalTable};
ghost use Rattle.class_table.specs.declared.sizes.TheConstants.{LARGEST_CLASS};
ghost use Rattle.tuner_theory.specs.Best.{IsBest, IsCandidate};
ghost use Rattle.tuner_theory.specs.Footprint.{footprint_of};
ghost use Rattle.tuner_theory.specs.Forced.{IsBestWithLargest};
ghost use Rattle.tuner_theory.specs.Histories.{AreSnapshots, peaks};
ghost use Rattle.tuner_theory.specs.Potentials.{AreValidPotentials};
ghost use Rattle.tuner_theory.specs.Profiles.{AreCounts};
ghost use Rattle.tuner_theory.specs.Rests.{counts_above};
ghost use Rattle.tuner_theory.specs.Served.{served};
ghost use Rattle.tuner_theory.specs.Sheets.{IsFitVerdict, IsVerdict, Sheet};
ghost use Rattle.tuner_theory.specs.Spans.{places, span_waste, waste_between};
ghost use Rattle.tuner_theory.specs.Waste.{Serves, waste_of};
ghost use Rattle.tuner_theory.specs.declared.verdict.Verdict.{Verdict};
ghost use Rattle.tuner_theory.specs.declared.verdict.Verdict.TheVariants.{Optimal};

/// Exchanging the ends of two spans that cross never wastes less, for any four needs and so for any four places; a span from a place to
/// itself wastes nothing. This is what lets a tuner halve its search.
pub fn law_crossing_spans()
    ensures needs { (counts : List ℕ) (step a b c d : ℕ) → a ≤ b → b ≤ c → c ≤ d
        → waste_between counts step a c + waste_between counts step b d
        ≤ waste_between counts step a d + waste_between counts step b c }
    ensures places { (counts : List ℕ) (step a b c d : ℕ) → IsStep step → a ≤ b → b ≤ c → c ≤ d → d ≤ places counts step
        → span_waste counts step a c + span_waste counts step b d
        ≤ span_waste counts step a d + span_waste counts step b c }
    ensures nothing { (counts : List ℕ) (step i : ℕ) → span_waste counts step i i ≡ 0 }
{}

/// Valid potentials bound the waste of every table in question from below: row `limit` at place 0 for all requests, and row k at any place
/// for the requests above it with at most k classes.
pub fn law_potentials_bound()
    ensures bound { (counts : List ℕ) (step limit : ℕ) (potential : ℕ → ℕ → ℕ) (classes : List ℕ) → IsStep step
        → AreValidPotentials (span_waste counts step) (places counts step) limit potential
        → IsCandidate counts step limit classes → potential limit 0 ≤ waste_of counts classes }
    ensures everywhere { (counts : List ℕ) (step limit : ℕ) (potential : ℕ → ℕ → ℕ) (k i : ℕ) (classes : List ℕ)
        → IsStep step → AreValidPotentials (span_waste counts step) (places counts step) limit potential
        → k ≤ limit → i ≤ places counts step → IsCandidate (counts_above counts step i) step k classes
        → potential k i ≤ waste_of (counts_above counts step i) classes }
{}

/// A sheet that meets all conditions, and whose table is legal, has a best table, whoever wrote it. Where the largest class is forced, it is one
/// of those that serve the largest size too; `law_forced_class` says what that means.
pub fn law_optimal_is_best()
    ensures { (counts : List ℕ) (sheet : Sheet) → IsLegalTable 1 sheet.table → IsVerdict counts sheet Optimal
        → IsBest (served sheet.forced counts) sheet.step sheet.limit sheet.table }
{}

/// The tables that serve the largest size too are those that have the largest class, and they waste nothing on it. So a sheet that meets all
/// conditions, and forces the largest class, has it, and of the tables that have it none wastes less; and a fit likewise takes least.
pub fn law_forced_class()
    ensures serving { (counts classes : List ℕ) (step : ℕ) → AreCounts counts → IsLegalTable step classes
        → Serves (served true counts) classes ↔ (Serves counts classes × Contains classes LARGEST_CLASS) }
    ensures waste { (counts classes : List ℕ) (step : ℕ) → IsLegalTable step classes
        → waste_of (served true counts) classes ≡ waste_of counts classes }
    ensures sheet { (counts : List ℕ) (sheet : Sheet) → AreCounts counts → IsLegalTable 1 sheet.table
        → sheet.forced ≡ true → IsVerdict counts sheet Optimal
        → IsBestWithLargest (waste_of counts) counts sheet.step sheet.limit sheet.table }
    ensures fit { (snapshots : List (List ℕ)) (fit : Sheet) → AreSnapshots snapshots → IsLegalTable 1 fit.table
        → fit.forced ≡ true → IsFitVerdict snapshots fit Optimal
        → IsBestWithLargest (footprint_of snapshots) (peaks snapshots) fit.step fit.limit fit.table }
{}

/// A sheet has one verdict, and so has a fit.
pub fn law_one_verdict()
    ensures sheet { (counts : List ℕ) (sheet : Sheet) (v w : Verdict)
        → IsVerdict counts sheet v → IsVerdict counts sheet w → v ≡ w }
    ensures fit { (snapshots : List (List ℕ)) (fit : Sheet) (v w : Verdict)
        → IsFitVerdict snapshots fit v → IsFitVerdict snapshots fit w → v ≡ w }
{}
