ghost use Rattle.std.specs.Prelude.{◌≡◌};

use potential_check::Certificate;
use std::marker::Model;

/// The result of a tuner: a certificate, and how many costs of spans it asked for.
#[derive(Debug, Drop)]
pub struct TunerResult<C> {
    sheet: Certificate<C>,
    evaluations: u64,
}

impl<C> Model for TunerResult<C> {
    ghost use Rattle.class_tuner.specs.Tuned.{Making};

    ghost Value = { Making C };

    ghost view = { λ t. record { sheet = t.sheet; evaluations = t.evaluations } };
}

impl<C> TunerResult<C> {
    /// A certificate, and how many costs were asked for.
    pub(crate) fn new(sheet: Certificate<C>, evaluations: u64) -> TunerResult<C>
        ensures { result ≡ record { sheet = sheet; evaluations = evaluations } }
    {
        TunerResult { sheet, evaluations }
    }

    /// The table with its certificate.
    pub fn sheet(&self) -> &Certificate<C>
        ensures { result.now ≡ self.now.sheet }
    {
        &self.sheet
    }

    /// The table with its certificate, for whoever keeps it.
    pub fn into_sheet(self) -> Certificate<C>
        ensures { result ≡ self.sheet }
    {
        self.sheet
    }

    /// How many costs of spans were asked for. This is for callers of the library; the program does not print it.
    pub fn evaluations(&self) -> u64
        ensures { result ≡ self.now.evaluations }
    {
        self.evaluations
    }
}
