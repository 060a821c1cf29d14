//! The law of the texts. It is the contract of a function that does nothing.
ghost use Rattle.line_text.specs.Laws.{TextLaws};

/// A text is its lines, a line its words, and a number of at most 64 bits its one spelling; and what is written is read back.
#[tactic(auto, using(crate::proofs::LawLemmas::text_laws))]
pub fn law_text()
    ensures { TextLaws }
{}
