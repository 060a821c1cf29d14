//! The numbers that the options take.
ghost use Rattle.std.specs.Prelude.{◌≡◌, ◌↔◌, IsTrue};

use crate::options::{OptionName, Options};
use class_table::is_step;
use heap_theory::Config;

impl OptionName {
    ghost use Rattle.tool_call.specs.Options.{Takes};

    /// Whether the option takes this number: it is in its range, and a step is 1, 2, 4 or 8.
    pub fn takes(self, n: u32) -> bool
        ensures { IsTrue result ↔ Takes self n }
    {
        let (least, most) = self.range();
        least <= n && n <= most && (self != OptionName::Step || is_step(n as u8))
    }
}

impl Options {
    ghost use Rattle.tool_call.specs.Options.{config_of};

    /// The heap's configuration.
    pub fn config(self) -> Config
        ensures { result ≡ config_of self }
    {
        Config {
            granules: self.granules,
            seed: self.seed,
            quarantine: self.quarantine,
        }
    }
}
