//! What holds for every timeline's text. Each law is the contract of a function that does nothing.
ghost use Rattle.std.specs.Prelude.{◌≡◌, ◌↔◌, ◌-◌, ◌≤◌, ℕ, List, length, max, take, Ok};
ghost use Rattle.line_text.specs.FirstFault.{IsFirstFault};
ghost use Rattle.line_text.specs.Lines.{lines, text_of};
ghost use Rattle.history_count.specs.Timelines.TimelineText.{IsRefusedAt, SpellsTimeline, timeline_of};
ghost use Rattle.tuner_theory.specs.declared.size_event.SizeEvent.{SizeEvent};

/// A text that is read as a timeline is that timeline's text, and the text is read as the timeline.
/// A text is refused as a timeline exactly at its first fault: no text that begins with the lines up to it spells a timeline, and some text
/// that begins with the lines before it does. That line is a line of the text, unless the text has none: only the first line must be there.
pub fn law_timeline_text()
    ensures read { (text : List ℕ) (events : List SizeEvent) → timeline_of text ≡ Ok events
        → SpellsTimeline text events }
    ensures written { (text : List ℕ) (events : List SizeEvent) → SpellsTimeline text events
        → timeline_of text ≡ Ok events }
    ensures first { (text : List ℕ) (n : ℕ) → IsRefusedAt n text ↔ IsFirstFault SpellsTimeline text n }
    ensures line { (text : List ℕ) (n : ℕ) → IsRefusedAt n text → n ≤ max 1 (length (lines text)) }
{}
