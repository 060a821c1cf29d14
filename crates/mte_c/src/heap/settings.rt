//! How C sets a heap up.
ghost use Rattle.std.specs.Prelude.{◌≡◌};
ghost use Rattle.mte_c.specs.Heap.Calls.{config_of};

use tagged_heap::Config;

/// How a heap is set up.
#[repr(C)]
#[derive(Clone, Copy)]
pub struct Settings {
    /// The granules of its region, 64 to 262,144.
    pub granules: u32,
    /// The limit of its quarantine in bytes, 0 to 4,194,304.
    pub quarantine: u32,
    /// The seed of the random tags, not 0.
    pub seed: u16,
}

/// The configuration of these settings.
pub(crate) fn config(settings: Settings) -> Config
    ensures { result ≡ config_of settings }
{
    Config {
        granules: settings.granules,
        seed: settings.seed,
        quarantine: settings.quarantine,
    }
}
