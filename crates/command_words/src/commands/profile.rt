//! `profile`.

use crate::commands::shared_help::{Purpose, Words, about, help_text};

/// The command's name.
pub const NAME: &str = "profile";

const ABOUT: Purpose = about!("Count how often a trace requests each size");

/// The text after the options in its own help.
pub const AFTER: &str = help_text!(
    "Standard input is a trace, a line for each event:",
    trace_lines,
    "The output is a profile, the input of `tune`:

  SIZE COUNT         a size of malloc, calloc and realloc, 0 to " largest ", and how often it was
                     requested, also where the heap would refuse it; sizes ascend
  large COUNT        how often more than " largest " bytes were requested, if they were

Example:
  printf 'malloc 1 16\\nmalloc 2 40\\nfree 1\\ncalloc 1 16\\n' | mte_tool profile
writes the lines `16 2` and `40 1`.

Refused input, exit status 2:",
    trace_refusals
);

/// The command's name, and what it does.
pub const WORDS: Words = Words {
    name: NAME,
    about: ABOUT,
};
