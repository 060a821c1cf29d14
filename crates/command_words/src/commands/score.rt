//! `score`.

use crate::commands::shared_help::{Purpose, Words, about, help_text};

/// The command's name.
pub const NAME: &str = "score";

const ABOUT: Purpose = about!("Report how many bytes a class table wastes on a profile");

/// The text after the options in its own help.
pub const AFTER: &str = help_text!(
    "\
Standard input is a class line, and then a profile:

",
    class_line,
    "
",
    profile_lines,
    "

One space parts words, and a number has no leading 0. The first granule of a block is its header.
A request takes the smallest block whose other granules hold it. The output is one line:

  waste W            the bytes that all requests together leave unused in their blocks
  not serving N      no class serves N bytes, the smallest such size; the exit status is 1

Example:
  printf 'classes 4\\n16 3\\n40 1\\n' | mte_tool score
writes `waste 104`: a block of 4 granules has 48 bytes beside its header, so each of three requests
of 16 bytes leaves 32 unused, and one of 40 leaves 8.

Refused input, exit status 2:",
    class_line_refusals,
    profile_refusals
);

/// The command's name, and what it does.
pub const WORDS: Words = Words {
    name: NAME,
    about: ABOUT,
};
