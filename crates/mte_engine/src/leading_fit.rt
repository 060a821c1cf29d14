//! A fit over a timeline.
ghost use Rattle.mte_engine.specs.Parts.{AreFewLines};

use potential_check::Fit;

/// A fit with the moments that it names.
#[derive(Drop)]
pub(crate) struct LeadingFit {
    pub(crate) fit: Fit,
    pub(crate) numbers: Vec<usize>,
    /// The number of its lines, with that of the moments.
    pub(crate) lines: u64,
    ghost few: { AreFewLines lines },
}
