//! `fit`.
use crate::commands::shared_help::{Purpose, Words, about, help_text};

/// The command's name.
pub const NAME: &str = "fit";

const ABOUT: Purpose = about!(
    "Find the table of at most K classes that takes least over a history, with a certificate"
);

/// The text after the options in its own help.
pub const AFTER: &str = help_text!(
    "\
Standard input is a history:

",
    history_lines,
    "

The output is a fit:

  classes C1 C2 ..   the table: of those that take least and have no class without a block, the
                     first in lexicographic order
  limit K            the most classes that it was allowed
  step S             each class is a multiple of it; no such line for 1
  forced 1024        with --largest-class 1: the table has class 1024, which serves each size that
                     any class serves; " largest " counts as a size then, with no block
  footprint F        the bytes that its classes take, each when most of its blocks are live; no
                     table of at most K classes that are multiples of S, with class 1024 if it is
                     forced, and that serves each counted size, takes less
  row N1 N2 ..       K rows: row k, number i is the least that at most k classes take for the blocks
                     without those of the i-1 smallest distinct needs
  moments M1 M2 ..   of a timeline: the events before each of the moments whose history the rows are
                     of. No table takes less over every moment. If 1024 rounds do not show that, the
                     output is another: a table, what it takes, and what no table takes less than;
                     the exit status is then 1

Freed blocks of a class serve no other class, so a finer table can take more: the table may have
fewer than K classes. The rows prove that the footprint is the least: `check-fit` tests them.

Example:
  printf 'snapshots 2\\n16 3 0\\n40 0 1\\n' | mte_tool fit --limit 2
writes the lines `classes 2 4`, `limit 2`, `footprint 160`, `row 192 64` and `row 160 64`: one class
of 4 granules takes 3 blocks of 64 bytes, two classes take 3 blocks of 32 and one of 64.

",
    step_refusals,
    history_refusals
);

/// The command's name, and what it does.
pub const WORDS: Words = Words {
    name: NAME,
    about: ABOUT,
};
