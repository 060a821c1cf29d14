use crate::certificates::Certificate;

/// A certificate at the start of a text.
#[derive(Debug, Drop)]
pub struct LeadingSheet<'a, C> {
    /// The certificate.
    pub sheet: Certificate<C>,
    /// The number of its lines.
    pub lines: u64,
    /// The text after its lines.
    pub rest: &'a [u8],
}
