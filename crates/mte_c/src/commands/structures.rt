//! The numbers and structures that cross to C.
ghost use Rattle.std.specs.Prelude.{◌≡◌, slice_get};
ghost use Rattle.mte_c.specs.Commands.Settings.{commands};

use crate::commands::call_end::CallEnd;
use crate::commands::faults::{code_of, line_of};
use handed_text::{BAD_OPTION, DONE, MISUSE, NO, OUT_OF_MEMORY, REFUSED};
use tool_call::CommandName;

/// The command of this number: `score` 0, `tune` 1, `check` 2, `footprint` 3, `fit` 4, `check_fit` 5, `profile` 6, `replay` 7, `run` 8 and `peaks`
/// 9.
pub fn command_numbered(number: u8) -> Option<CommandName>
    ensures { result ≡ slice_get commands number }
{
    match number {
        0 => Some(CommandName::Score),
        1 => Some(CommandName::Tune),
        2 => Some(CommandName::Check),
        3 => Some(CommandName::Footprint),
        4 => Some(CommandName::Fit),
        5 => Some(CommandName::CheckFit),
        6 => Some(CommandName::Profile),
        7 => Some(CommandName::Replay),
        8 => Some(CommandName::Run),
        9 => Some(CommandName::Peaks),
        _ => None,
    }
}

/// How a call ended.
#[repr(C)]
#[derive(Clone, Copy)]
pub struct Ending {
    /// The number of the end, 0 to 5.
    pub end: u32,
    /// The code of the fault, or 0.
    pub fault: u32,
    /// The line of the fault, counted from 1, or 0.
    pub line: u64,
}

impl Ending {
    ghost use Rattle.mte_c.specs.Commands.Ending.{Shows};

    /// What C is told of this end.
    pub fn of(ended: CallEnd) -> Ending
        ensures { Shows ended result }
    {
        match ended {
            CallEnd::Done => Ending::without_fault(DONE),
            CallEnd::No => Ending::without_fault(NO),
            CallEnd::Refused(fault) => Ending {
                end: REFUSED,
                fault: code_of(fault),
                line: line_of(fault),
            },
            CallEnd::OutOfMemory => Ending::without_fault(OUT_OF_MEMORY),
            CallEnd::BadOption => Ending::without_fault(BAD_OPTION),
            CallEnd::Misuse => Ending::without_fault(MISUSE),
        }
    }

    fn without_fault(end: u32) -> Ending
        ensures { result ≡ record { end = end; fault = 0; line = 0 } }
    {
        Ending {
            end,
            fault: 0,
            line: 0,
        }
    }
}
