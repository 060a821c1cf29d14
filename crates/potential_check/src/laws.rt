//! What holds for every profile and its spans, and for the text of every certificate. Each law is the contract of a function that does
//! nothing.
ghost use Rattle.std.specs.Prelude.{◌≡◌, ℕ, List, Ok, Err};
ghost use Rattle.potential_check.specs.declared.cost.Cost.{Cost};
ghost use Rattle.line_text.specs.FirstFault.{IsFirstFault};
ghost use Rattle.potential_check.specs.SheetText.{SpellsBy, read_in};
ghost use Rattle.tuner_theory.specs.Sheets.{Sheet};

pub use tuner_theory::laws::{law_crossing_spans, law_optimal_is_best, law_potentials_bound};

/// A text that is read as a certificate is its text, and the text of a certificate within the format's limits is read as it.
/// A fault has the number of the first faulty line, and each first fault is reported. The lines before it are a prefix of some text that
/// spells a certificate, and no text with the same lines up to it spells one. A missing line has the number after the last line.
pub fn law_sheet_text()
    ensures read { (cost : Cost) (text : List ℕ) (s : Sheet) → read_in cost text ≡ Ok s → SpellsBy cost text s }
    ensures written { (cost : Cost) (text : List ℕ) (s : Sheet)
        → SpellsBy cost text s → read_in cost text ≡ Ok s }
    ensures first { (cost : Cost) (text : List ℕ) (n : ℕ)
        → read_in cost text ≡ Err n → IsFirstFault (SpellsBy cost) text n }
    ensures reported { (cost : Cost) (text : List ℕ) (n : ℕ)
        → IsFirstFault (SpellsBy cost) text n → read_in cost text ≡ Err n }
{}
