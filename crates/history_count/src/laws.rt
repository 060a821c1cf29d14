//! What holds for every history's text, and in `timelines` for every timeline's. Each law is the contract of a function that does nothing.
ghost use Rattle.std.specs.Prelude.{◌≡◌, ◌↔◌, ◌-◌, ◌≤◌, ℕ, List, length, max, take, Ok};
ghost use Rattle.line_text.specs.FirstFault.{IsFirstFault};
ghost use Rattle.line_text.specs.Lines.{lines, text_of};
ghost use Rattle.history_count.specs.Histories.{History};
ghost use Rattle.history_count.specs.HistoryText.{IsRefusedAt, SpellsHistory, history_of};

pub mod timelines;

/// A text that is read as a history is that history's text, and the text is read as the history.
/// A text is refused as a history exactly at its first fault: the lines before it are those of a history, and no text that begins with the
/// lines up to it spells one. That line is a line of the text, unless the text has none: only the first line must be there.
pub fn law_history_text()
    ensures read { (text : List ℕ) (h : History) → history_of text ≡ Ok h → SpellsHistory text h }
    ensures written { (text : List ℕ) (h : History) → SpellsHistory text h → history_of text ≡ Ok h }
    ensures first { (text : List ℕ) (n : ℕ) → IsRefusedAt n text ↔ IsFirstFault SpellsHistory text n }
    ensures line { (text : List ℕ) (n : ℕ) → IsRefusedAt n text → n ≤ max 1 (length (lines text)) }
    ensures before { (text : List ℕ) (n : ℕ) → 2 ≤ n → IsRefusedAt n text
        → (h : History) × SpellsHistory (text_of (take (n - 1) (lines text))) h }
{}
