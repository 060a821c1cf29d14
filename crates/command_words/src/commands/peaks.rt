//! `peaks`.

use crate::commands::shared_help::{Purpose, Words, about, help_text};

/// The command's name.
pub const NAME: &str = "peaks";

const ABOUT: Purpose = about!(
    "Report the most live blocks of each class over a timeline, and the most freed ones"
);

/// The text after the options in its own help.
pub const AFTER: &str = help_text!(
    "\
Standard input is a class line, and then a timeline:

",
    class_line,
    "

and ",
    timeline_lines,
    "

A block takes the smallest class that holds it with its header of one granule. A class gives out its
freed blocks before it has a new one. The moments are before the first event and after each. The
output is four lines:

  peaks N1 N2 ..     for each class the most of its blocks that are live at a moment
  moments M1 M2 ..   for each class the events before the first moment with so many
  live B             the most bytes that all live blocks take at a moment
  freed N            the most blocks that are freed at a moment and not given out again

or one:

  not serving N      no class serves N bytes, the smallest such size; the exit status is 1

Example:
  printf 'classes 2 4\\ntimeline\\n16\\n16\\n-16\\n40\\n' | mte_tool peaks
writes the lines `peaks 2 1`, `moments 2 4`, `live 96` and `freed 1`.

Refused input, exit status 2:",
    class_line_refusals,
    timeline_refusals
);

/// The command's name, and what it does.
pub const WORDS: Words = Words {
    name: NAME,
    about: ABOUT,
};
