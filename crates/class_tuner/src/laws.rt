//! What holds for every tuned sheet. The law is the contract of a function that does nothing.
ghost use Rattle.std.specs.Prelude.{◌≡◌, ℕ, Bool, List};
ghost use Rattle.class_tuner.specs.Tuned.{AreEvaluations, IsTuned};
ghost use Rattle.tuner_theory.specs.Sheets.{Sheet};

/// A profile, a step and a limit have one tuned sheet, and one with the largest class; and its rows have one number of evaluations.
pub fn law_one_tuning()
    ensures sheet { (counts : List ℕ) (step limit : ℕ) (forced : Bool) (a b : Sheet)
        → IsTuned counts step limit forced a → IsTuned counts step limit forced b → a ≡ b }
    ensures count { (counts : List ℕ) (step limit : ℕ) (rows : List (List ℕ)) (a b : ℕ)
        → AreEvaluations counts step limit rows a → AreEvaluations counts step limit rows b → a ≡ b }
{}
