ghost use Rattle.std.specs.Prelude.{◌≡◌};
ghost use Rattle.potential_check.specs.SheetText.{word_of};

/// What a certificate is of: the waste in a sheet, the footprint in a fit.
#[derive(Debug, Clone, Copy, PartialEq, Eq)]
pub enum Cost {
    /// The bytes that rounding loses over a profile.
    Waste,
    /// The bytes that all classes take, each at its greatest over a history.
    Footprint,
}

impl Cost {
    /// The first word of the line that states it.
    pub(crate) fn word(self) -> &'static [u8]
        ensures { result.now ≡ word_of self }
    {
        match self {
            Cost::Waste => b"waste",
            Cost::Footprint => b"footprint",
        }
    }
}

/// A type that stands for a cost, so that a certificate of one cost is no certificate of the other.
pub trait CostKind {
    ghost use Rattle.potential_check.specs.declared.cost.Cost.{Cost};

    /// The cost that it stands for.
    ghost kind: { Cost };

    /// The cost that it stands for.
    fn kind() -> Cost
        ensures { result ≡ kind };
}

/// Stands for the waste.
#[derive(Debug, Clone, Copy)]
pub struct OfWaste;

impl CostKind for OfWaste {
    ghost use Rattle.potential_check.specs.declared.cost.Cost.TheVariants.{Waste};

    ghost kind = { Waste };

    fn kind() -> Cost {
        Cost::Waste
    }
}

/// Stands for the footprint.
#[derive(Debug, Clone, Copy)]
pub struct OfFootprint;

impl CostKind for OfFootprint {
    ghost use Rattle.potential_check.specs.declared.cost.Cost.TheVariants.{Footprint};

    ghost kind = { Footprint };

    fn kind() -> Cost {
        Cost::Footprint
    }
}
