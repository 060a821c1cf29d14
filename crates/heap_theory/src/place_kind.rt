ghost use Rattle.std.specs.Prelude.{◌≡◌};
ghost use Rattle.heap_theory.specs.GranuleKinds.{kind_number};

/// What a granule is to the heap. All but dead and other granules have tag 0.
#[derive(Clone, Copy, Debug, PartialEq, Eq)]
pub enum PlaceKind {
    /// It is in no slot.
    Slack,
    /// It is the first granule of a slot.
    Header,
    /// It is in a slot, after the granules of its chunk, or after the header of a slot that was never given out.
    Tail,
    /// It is a granule of a freed chunk.
    Dead,
    /// It is a granule of a live chunk.
    Other,
}

impl PlaceKind {
    /// The number by which the kind is shown, 0 to 4.
    pub fn number(self) -> u8
        ensures { result ≡ kind_number self }
    {
        match self {
            PlaceKind::Slack => 0,
            PlaceKind::Header => 1,
            PlaceKind::Tail => 2,
            PlaceKind::Dead => 3,
            PlaceKind::Other => 4,
        }
    }
}
