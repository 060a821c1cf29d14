//! `tune`.
use crate::commands::shared_help::{Purpose, Words, about, help_text};

/// The command's name.
pub const NAME: &str = "tune";

const ABOUT: Purpose = about!(
    "Find the table of at most K classes that wastes least on a profile, with a certificate"
);

/// The text after the options in its own help.
pub const AFTER: &str = help_text!(
    "\
Standard input is a profile:

",
    profile_lines,
    "

The output is a sheet:

  classes C1 C2 ..   the table: of those that waste least and have no class without a request, the
                     first in lexicographic order
  limit K            the most classes that it was allowed
  step S             each class is a multiple of it; no such line for 1
  forced 1024        with --largest-class 1: the table has class 1024, which serves each size that
                     any class serves; " largest " counts as a size then, at no waste
  waste W            the bytes that all requests together leave unused in their blocks; no table of
                     at most K classes that are multiples of S, with class 1024 if it is forced,
                     and that serves each counted size, wastes less
  row N1 N2 ..       K rows: row k, number i is the least that at most k classes waste on the
                     requests without those of the i-1 smallest distinct needs

The first numbers of the rows are the least wastes for at most 1, 2, .. K classes. The rows prove
that the waste is the least: `check` tests them.

Example:
  printf '16 3\\n40 1\\n' | mte_tool tune --limit 2
writes the lines `classes 2 4`, `limit 2`, `waste 8`, `row 104 8` and `row 8 8`: one class would
waste 104 bytes, two waste 8.

",
    step_refusals,
    profile_refusals
);

/// The command's name, and what it does.
pub const WORDS: Words = Words {
    name: NAME,
    about: ABOUT,
};
