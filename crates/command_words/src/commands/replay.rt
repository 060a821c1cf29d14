//! `replay`.
use crate::commands::shared_help::{Purpose, Words, about, help_text};

/// The command's name.
pub const NAME: &str = "replay";

const ABOUT: Purpose = about!("Run a trace on the heap with memory tags, with a given class table");

/// The text after the options in its own help.
pub const AFTER: &str = help_text!(
    "Standard input is a class line, and then a trace, a line for each event:

",
    class_line,
    trace_lines,
    "The output has a line for each event E, counted from 1, that
loaded, faulted or was refused:

  E data HEX..          the bytes that a load read
  E fault unmapped      an access was not mapped; it did nothing
  E fault tag granule G memory M pointer P in KIND
                        granule G has the tag M, and the pointer the tag P; the access did nothing;
                        KIND is what the granule is: slack, header, tail, dead or other
  E null large          null was returned: more than " largest " bytes were requested,
  E null no-class       no class serves the size,
  E null exhausted      or no slot of its class is left
  E refused misplaced   a free or realloc was refused: its pointer is no slot's first payload byte,
  E refused not-live    its slot is not in use,
  E refused wrong-tag   or its tag is not the slot's

and then nine totals: `events`, `requests`, `null large`, `null no-class`, `null exhausted`,
`faults tag`, `faults unmapped`, `refused frees`, and `loss`, the bytes of the served requests'
payloads beyond what they asked for.

Example:
  printf 'classes 2\\nmalloc 1 5\\nfree 1\\nload 1 0 1\\n' | mte_tool replay --granules 64
writes a line `3 fault tag granule 1 memory M pointer P in dead`, since the chunk was freed, and
then the totals.

Refused input, exit status 2; line 1 is the class line, the trace begins in line 2:",
    class_line_refusals,
    trace_refusals
);

/// The command's name, and what it does.
pub const WORDS: Words = Words {
    name: NAME,
    about: ABOUT,
};
