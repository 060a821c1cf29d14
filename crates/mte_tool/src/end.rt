//! How the program ends.
ghost use Rattle.std.specs.Prelude.{◌≡◌};
ghost use Rattle.std.specs.Process.{exit_status};
ghost use Rattle.mte_tool.specs.Exit.{status_of};

use mte_engine::{Status, ToolFault};
use std::process::{ExitCode, Termination};

// the exit statuses
const DONE: u8 = 0;

const NO: u8 = 1;

const REFUSED: u8 = 2;

const FAILED: u8 = 3;

/// How the program ended.
#[derive(Debug, Clone, Copy, PartialEq, Eq)]
pub enum End {
    /// It printed help or its version.
    Shown,
    /// It refused its words.
    Refused,
    /// A command ended with this result. Without a command, `Err(OutOfMemory)` reports that memory ran out while the words were read, and
    /// `Err(WriteFault)` that help could not be written.
    Ended(Result<Status, ToolFault>),
}

impl End {
    /// The exit status: 0 done, 1 a verdict of no, 2 refused words or input, 3 out of memory or a failed read or write.
    pub fn status(self) -> u8
        ensures { result ≡ status_of self }
    {
        match self {
            End::Shown | End::Ended(Ok(Status::Done)) => DONE,
            End::Ended(Ok(Status::No)) => NO,
            End::Refused | End::Ended(Err(ToolFault::Input(_))) => REFUSED,
            End::Ended(Err(_)) => FAILED,
        }
    }
}

impl Termination for End {
    fn report<R: Eprint>(self, _rt: &R) -> ExitCode
        ensures { exit_status result ≡ status_of self }
    {
        ExitCode::from(self.status())
    }
}
