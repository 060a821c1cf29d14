ghost use Rattle.std.specs.Prelude.{◌↔◌, IsTrue};
ghost use Rattle.heap_theory.specs.Config.{IsConfig};

use class_table::{FEWEST_GRANULES, MOST_GRANULES};

/// How a heap is set up.
#[derive(Clone, Copy, Debug)]
pub struct Config {
    /// The granules of its region, 64 to 262,144.
    pub granules: u32,
    /// The seed of the random tags; not 0.
    pub seed: u16,
    /// The limit of the quarantine, 0 to `MOST_QUARANTINE`: the most bytes of freed blocks that it holds back from reuse.
    pub quarantine: u32,
}

impl Config {
    /// The greatest limit of a quarantine, in bytes.
    pub const MOST_QUARANTINE: u32 = 4_194_304;

    /// Whether a heap can be set up so: each number is in its range.
    pub fn is_valid(self) -> bool
        ensures { IsTrue result ↔ IsConfig self }
    {
        FEWEST_GRANULES <= self.granules
            && self.granules <= MOST_GRANULES
            && self.seed != 0
            && self.quarantine <= Config::MOST_QUARANTINE
    }
}
