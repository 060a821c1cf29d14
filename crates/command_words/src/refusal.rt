//! Why the program runs no command.
ghost use Rattle.std.specs.Prelude.{◌≡◌, Some};
ghost use Rattle.command_words.specs.FaultText.{shown_option_fault};
ghost use Rattle.command_words.specs.Words.{IsFromClap};
ghost use Rattle.command_words.specs.declared.refusal.Refusal.TheVariants.{OutOfMemory, Options};

use clap::error::ErrorKind;
use std::alloc::AllocError;
use std::fmt;

/// What is wrong with an option. It is shown as its code and name.
#[derive(Debug, Clone, Copy, PartialEq, Eq)]
pub enum OptionFault {
    /// The step is 3, 5, 6 or 7. Functions also return it for a number out of its range and for an unknown command. clap refuses these
    /// first, but its contract doesn't say so.
    BadOption,
}

impl fmt::Display for OptionFault {
    ghost output = { λ fault. Some (shown_option_fault fault) };

    fn fmt<W: fmt::Write>(&self, f: &mut fmt::Formatter<W>) -> fmt::Result {
        f.write_str(match self {
            OptionFault::BadOption => "83 BadOption",
        })
    }
}

impl std::error::Error for OptionFault {}

/// Why no command runs the words of the command line.
#[derive(Debug, Drop)]
pub enum Refusal {
    /// The allocator refused memory.
    OutOfMemory,
    /// The words are not the program's, or they ask for help or the version.
    Words(clap::Error),
    /// The words are the program's, but the command refuses an option.
    Options(OptionFault),
}

impl From<AllocError> for Refusal {
    ghost from_gives = { λ _ refusal. refusal ≡ OutOfMemory };

    fn from(_error: AllocError) -> Refusal {
        Refusal::OutOfMemory
    }
}

impl From<clap::Error> for Refusal {
    ghost from_gives = { λ error refusal. IsFromClap error refusal };

    fn from(error: clap::Error) -> Refusal {
        if error.kind() == ErrorKind::OutOfMemory {
            return Refusal::OutOfMemory;
        }
        Refusal::Words(error)
    }
}

impl From<OptionFault> for Refusal {
    ghost from_gives = { λ fault refusal. refusal ≡ Options fault };

    fn from(fault: OptionFault) -> Refusal {
        Refusal::Options(fault)
    }
}
