//! What the words of the commands share: how clap gets them, and the parts of the help that several of them have.
ghost use Rattle.std.specs.Prelude.{IfOk, fold};
ghost use Rattle.clap.specs.Words.{new_app};
ghost use Rattle.command_words.specs.AcceptedWords.{HasWords};
ghost use Rattle.command_words.specs.Options.{with_option};

use crate::option_table::number_option;
use clap::Command;
use std::alloc::{AllocError, Global};
use tool_call::OptionName;

/// What a command does.
#[derive(Clone, Copy)]
pub struct Purpose {
    /// The line in the list of commands, without a full stop.
    pub line: &'static str,
    /// The sentence that the command's own help begins with.
    pub sentence: &'static str,
}

/// A command's name, and what it does.
#[derive(Clone, Copy)]
pub struct Words {
    /// The command's name.
    pub name: &'static str,
    /// What the command does.
    pub about: Purpose,
}

impl Words {
    /// The command for clap with these options, and with the text after them in the command's own help.
    #[inline(always)]
    pub fn command<'a>(
        &self,
        alloc: Global,
        options: &[OptionName],
        after: &'static str,
    ) -> Result<Command<'a>, AllocError>
        ensures { IfOk result (λ command. HasWords command (fold with_option (new_app self.now.name.now) options.now)) }
    {
        let mut command = self.without_options(alloc, after);
        for option in options {
            command = command.arg(number_option(*option).arg(alloc))?;
        }
        Ok(command)
    }

    #[inline(always)]
    fn without_options<'a>(&self, alloc: Global, after: &'static str) -> Command<'a>
        ensures { HasWords result (new_app self.now.name.now) }
    {
        Command::new(alloc, self.name)
            .about(self.about.line)
            .long_about(self.about.sentence)
            .after_help(after)
    }
}

// What a command does, whose sentence is its line with an end. The end is a full stop, or what `end` says.
macro_rules! about {
    ($line:literal) => {
        about!($line, ".")
    };
    ($line:literal, $end:literal) => {
        Purpose {
            line: $line,
            sentence: concat!($line, $end),
        }
    };
}

// A command's text after its options. A part of it is a literal, or a word for what several commands say:
// - `class_line` and `profile_lines`: the forms of these lines (`check` says them in words of its own)
// - `history_lines` and `timeline_lines`: the forms of a history's lines and of a timeline's, and of a timeline's alone
// - `largest`: the largest size that is counted
// - `trace_lines`: the forms of a trace's lines
// - `step_refusals`: the refusals of an option `--step`, with their head
// - `class_line_refusals` and `count_refusals`: those of a class line, and of lines with sizes and counts
// - `profile_refusals`, `history_refusals`, `timeline_refusals` and `trace_refusals`: those of a profile, of a history or a timeline, of a
//   timeline and of a trace, and the failures, which end the text
macro_rules! help_text {
    (@[$($done:tt)*]) => {
        concat!($($done),*)
    };
    (@[$($done:tt)*], $($rest:tt)*) => {
        help_text!(@[$($done)*] $($rest)*)
    };
    (@[$($done:tt)*] class_line $($rest:tt)*) => {
        help_text!(@[$($done)*
            "  classes C1 C2 ..   up to 32 block sizes in granules of 16 bytes, from 2 to 1024, ascending"] $($rest)*)
    };
    (@[$($done:tt)*] profile_lines $($rest:tt)*) => {
        help_text!(@[$($done)*]
            "  SIZE COUNT         a size in bytes, 0 to " largest ", and how often it was requested, 1 to 1000000000;
                     sizes ascend
  large COUNT        how often more than " largest " bytes were requested, if they were; it is the last
                     line, and is not in the waste" $($rest)*)
    };
    (@[$($done:tt)*] history_lines $($rest:tt)*) => {
        help_text!(@[$($done)*]
            "  snapshots T        the number of moments at which blocks were counted, 1 to 1024
  SIZE N1 .. NT      a size in bytes, 0 to " largest ", and how many blocks of it were live at each
                     snapshot, 0 to 1000000000, not all of them 0; sizes ascend
  large N1 .. NT     how many blocks of more than " largest " bytes were, if any; it is the last line, and
                     is not in the footprint

or a timeline: " timeline_lines $($rest)*)
    };
    (@[$($done:tt)*] timeline_lines $($rest:tt)*) => {
        help_text!(@[$($done)*]
            "the line `timeline`, and a line for each request and each free in their order:

  N, -N              a request of N bytes, 0 to " largest ", and the free of such a block
  large, -large      of more than " largest " bytes; they are not in the footprint" $($rest)*)
    };
    (@[$($done:tt)*] largest $($rest:tt)*) => {
        help_text!(@[$($done)* "16368"] $($rest)*)
    };
    (@[$($done:tt)*] trace_lines $($rest:tt)*) => {
        help_text!(@[$($done)* "

  malloc V N            calloc V N            realloc V N           free V
  load V OFF LEN        store V OFF LEN HH    addg V W U6 U4        subg V W U6 U4

  V, W    variables that hold pointers, 0 to 1023
  N       a size in bytes, 0 to 2147483647
  OFF     an offset in bytes, -1048576 to 1048576
  LEN     bytes to load or store, 1 to 64
  HH      the byte that is stored, two hexadecimal digits
  U6, U4  granules, 0 to 63, and tags, 0 to 15, by which a pointer is moved

A line has at most 80 bytes, and there are at most 1000000 events. docs/FORMATS.md has the meaning
of each event. "] $($rest)*)
    };
    (@[$($done:tt)*] step_refusals $($rest:tt)*) => {
        help_text!(@[$($done)*
            "Refused, exit status 2:
  83 BadOption         the step is 3, 5, 6 or 7; nothing is read then"] $($rest)*)
    };
    (@[$($done:tt)*] class_line_refusals $($rest:tt)*) => {
        help_text!(@[$($done)* "
  20 TooMany           there are more than 32 classes
  21 OutOfRange        a class is not from 2 to 1024
  22 NotAscending      a class is not above the one before it
  23 BadLine           the class line is not `classes` and then numbers"] $($rest)*)
    };
    (@[$($done:tt)*] profile_refusals $($rest:tt)*) => {
        help_text!(@[$($done)*] count_refusals failures $($rest)*)
    };
    (@[$($done:tt)*] history_refusals $($rest:tt)*) => {
        help_text!(@[$($done)*] count_refusals "
  34 BadSnapshots      the history's first line is not `snapshots T`, T from 1 to 1024
  35 WrongLength       a line does not have T numbers, one for each snapshot" timeline_refusals $($rest)*)
    };
    (@[$($done:tt)*] timeline_refusals $($rest:tt)*) => {
        help_text!(@[$($done)*] "
  37 BadTimeline       a line of the timeline is none of its four forms
  38 NotLive           a free of a size of which no block is live" failures $($rest)*)
    };
    (@[$($done:tt)*] count_refusals $($rest:tt)*) => {
        help_text!(@[$($done)*] "
  30 BadLine           a line is not a size up to " largest ", or `large`, and then counts
  31 NotAscending      a size is not above the one before it
  32 CountOutOfRange   a count is above 1000000000, or all of a line are 0" $($rest)*)
    };
    (@[$($done:tt)*] trace_refusals $($rest:tt)*) => {
        help_text!(@[$($done)* "
  70 BadWord           a line is no event, or has a word too many or too few
  71 BadNumber         a word is no number of its kind, or not in its one spelling
  72 OutOfRange        a number is not in its range
  73 LineTooLong       a line has more than 80 bytes
  74 TooManyEvents     there is a line after 1000000 events"] failures $($rest)*)
    };
    (@[$($done:tt)*] failures $($rest:tt)*) => {
        help_text!(@[$($done)* "
  80 InputTooLong      there are more than 67108864 bytes
Failures, exit status 3:
  1 OutOfMemory, 81 ReadFault, 82 WriteFault"] $($rest)*)
    };
    (@[$($done:tt)*] $part:tt $($rest:tt)*) => {
        help_text!(@[$($done)* $part] $($rest)*)
    };
    ($($part:tt)+) => {
        help_text!(@[] $($part)+)
    };
}

pub(crate) use about;
pub(crate) use help_text;
