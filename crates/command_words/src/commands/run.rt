//! `run`.
use crate::commands::shared_help::{Purpose, Words, help_text};

/// The command's name.
pub const NAME: &str = "run";

const ABOUT: Purpose = Purpose {
    line: "Tune a class table for a trace, and run the trace with it",
    sentence: "\
Find the table of at most K classes that wastes least on the sizes that a trace requests, and run
the trace on the heap with memory tags, with that table.",
};

/// The text after the options in its own help.
pub const AFTER: &str = help_text!(
    "Standard input is a trace, a line for each event:",
    trace_lines,
    "The output is the sheet that `tune` writes for the trace's profile:

  classes C1 C2 ..   the table
  limit K            the most classes that it was allowed
  step S             each class is a multiple of it; no such line for 1
  waste W            the bytes that all requests of up to " largest " bytes together leave unused in their
                     blocks
  row N1 N2 ..       K rows, which prove that no table of at most K classes that are multiples of S,
                     and that serves each counted size, wastes less

and then what `replay` writes with that table: a line for each event that loaded, faulted or was
refused,

  E data HEX..
  E fault unmapped
  E fault tag granule G memory M pointer P in KIND
  E null large        or no-class, exhausted
  E refused misplaced or not-live, wrong-tag

and the totals, `events` to `loss`. `mte_tool replay --help` explains these lines.

Example:
  printf 'malloc 1 16\\nfree 1\\nload 1 0 1\\n' | mte_tool run --limit 1 --granules 64
writes the lines `classes 2`, `limit 1`, `waste 0` and `row 0`, then
`3 fault tag granule 1 memory 3 pointer 1 in dead`, since the chunk was freed, and the totals.

",
    step_refusals,
    trace_refusals
);

/// The command's name, and what it does.
pub const WORDS: Words = Words {
    name: NAME,
    about: ABOUT,
};
