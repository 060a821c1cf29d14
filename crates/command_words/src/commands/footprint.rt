//! `footprint`.

use crate::commands::shared_help::{Purpose, Words, about, help_text};

/// The command's name.
pub const NAME: &str = "footprint";

const ABOUT: Purpose = about!("Report how many bytes a class table takes over a history");

/// The text after the options in its own help.
pub const AFTER: &str = help_text!(
    "\
Standard input is a class line, and then a history:

",
    class_line,
    "
",
    history_lines,
    "

A block takes the smallest class that holds it with its header of one granule. A class takes its
block size times the most of its blocks that are live at one snapshot, or at any moment of the
timeline, since its freed blocks serve no other class. The output is one line:

  footprint F        the bytes that all classes take
  not serving N      no class serves N bytes, the smallest such size; the exit status is 1

Example:
  printf 'classes 2 4\\nsnapshots 2\\n16 3 0\\n40 0 1\\n' | mte_tool footprint
writes `footprint 160`: 3 blocks of 32 bytes, and one of 64.

Refused input, exit status 2:",
    class_line_refusals,
    history_refusals
);

/// The command's name, and what it does.
pub const WORDS: Words = Words {
    name: NAME,
    about: ABOUT,
};
