//! The commands, and the calls.
ghost use Rattle.std.specs.Prelude.{◌≡◌, ◌↔◌, IsTrue};

use crate::options::{Options, options_of};

/// The name of a command.
#[derive(Clone, Copy, Debug, PartialEq, Eq)]
pub enum CommandName {
    Score,
    Tune,
    Check,
    Footprint,
    Fit,
    CheckFit,
    Peaks,
    Profile,
    Replay,
    Run,
}

/// The commands, in the order in which the help lists them.
pub const COMMANDS: &[CommandName] = &[
    CommandName::Score,
    CommandName::Tune,
    CommandName::Check,
    CommandName::Footprint,
    CommandName::Fit,
    CommandName::CheckFit,
    CommandName::Peaks,
    CommandName::Profile,
    CommandName::Replay,
    CommandName::Run,
];

/// A command with the options. The answers depend on those of the command alone (`options_of`).
#[derive(Clone, Copy, Debug)]
pub struct Call {
    /// Which one.
    pub command: CommandName,
    /// The options, of which those of other commands may be any numbers.
    pub options: Options,
}

impl CommandName {
    ghost use Rattle.tool_call.specs.Options.{has_two_texts};

    /// Whether the input is two texts: a class line, a sheet or a fit, and what comes after it in one text.
    pub fn has_two_texts(self) -> bool
        ensures { result ≡ has_two_texts self }
    {
        matches!(
            self,
            CommandName::Score
                | CommandName::Check
                | CommandName::Footprint
                | CommandName::CheckFit
                | CommandName::Peaks
                | CommandName::Replay
        )
    }
}

impl Call {
    ghost use Rattle.tool_call.specs.Options.{IsValid};

    /// Whether the options of the command are in their ranges.
    pub fn is_valid(self) -> bool
        ensures { IsTrue result ↔ IsValid self }
    {
        for option in options_of(self.command) {
            if !option.takes(self.options.number(*option)) {
                return false;
            }
        }
        true
    }
}
