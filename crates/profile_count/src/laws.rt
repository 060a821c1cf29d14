//! What holds for every profile's text. Each law is the contract of a function that does nothing.
ghost use Rattle.std.specs.Prelude.{◌≡◌, ◌↔◌, ◌-◌, ◌≤◌, ℕ, List, length, take, Ok};
ghost use Rattle.line_text.specs.FirstFault.{IsFirstFault};
ghost use Rattle.line_text.specs.Lines.{lines, text_of};
ghost use Rattle.profile_count.specs.ProfileText.{IsRefusedAt, SpellsProfile, profile_of};
ghost use Rattle.profile_count.specs.Requests.{CountsRequests, profile_of_sizes};
ghost use Rattle.tuner_theory.specs.Profiles.{Profile};

/// A text that is read as a profile is that profile's text, and the text is read as the profile.
/// A text is refused as a profile exactly at its first fault: the lines before it spell a profile, and no text that begins with the lines
/// up to it spells one. That line is a line of the text, since a profile never lacks a line.
pub fn law_profile_text()
    ensures read { (text : List ℕ) (p : Profile) → profile_of text ≡ Ok p → SpellsProfile text p }
    ensures written { (text : List ℕ) (p : Profile) → SpellsProfile text p → profile_of text ≡ Ok p }
    ensures first { (text : List ℕ) (n : ℕ) → IsRefusedAt n text ↔ IsFirstFault SpellsProfile text n }
    ensures line { (text : List ℕ) (n : ℕ) → IsRefusedAt n text → n ≤ length (lines text) }
    ensures before { (text : List ℕ) (n : ℕ) → IsRefusedAt n text
        → (p : Profile) × SpellsProfile (text_of (take (n - 1) (lines text))) p }
{}

/// The profile of requests counts the requests of each counted size, and the large ones.
pub fn law_counted_requests()
    ensures { (sizes : List ℕ) → CountsRequests (profile_of_sizes sizes) sizes }
{}
