//! `check`.

use crate::commands::shared_help::{Purpose, Words, about, help_text};

/// The command's name.
pub const NAME: &str = "check";

const ABOUT: Purpose = about!(
    "Check a sheet's proof that no table of its limit, step and forced class wastes less",
    "."
);

/// The text after the options in its own help.
pub const AFTER: &str = help_text!(
    "\
Standard input is a sheet, and then a profile:

  classes C1 C2 ..   the table: up to 32 block sizes in granules of 16 bytes, from 2 to 1024,
                     ascending
  limit K            the most classes that a table may have, 1 to 32
  step S             2, 4 or 8, where each class must be a multiple of it; no such line for 1
  forced 1024        where the table must have class 1024; " largest " is a counted size then
  waste W            the bytes that the table is said to waste
  row N1 N2 ..       K rows with a number for each distinct need; all `row` lines that follow at
                     once belong to the sheet
  SIZE COUNT         the profile: a size in bytes, 0 to " largest ", and how often it was requested, 1 to
                     1000000000; sizes ascend
  large COUNT        how often more than " largest " bytes were requested; the last line, if it is there

The output is one line:

  optimal              the sheet meets all conditions below: no table of at most K classes that are
                       multiples of S, with class 1024 if it is forced, and that serves each
                       counted size, wastes less
  refused CODE NAME    the first condition that the sheet breaks; the exit status is 1

With --claim one more line follows `optimal`, and says what was shown: W, K, S and the forced class,
0 if none is, are the sheet's; N sizes were requested R times, which asks for B bytes, and larger
ones L times:

  claim waste W limit K step S forced F sizes N requests R bytes B large L

A table may be a best one and its sheet refused: the rows must prove it. The conditions:

  39 OffStep           each class is a multiple of the step
  40 OverLimit         the table has at most K classes
  41 NotServing        each counted size has a class
  42 WasteWrong        the waste is the table's on the profile
  43 Shape             there are K rows, with a number for each distinct need
  44 LastClass         row 1, number i is at most what one class wastes for all requests but those
                       of the i-1 smallest needs
  45 StageDrop         no number is above the one at its place in the row before
  46 Edge              no number is above what one class up to a later need wastes, plus the number
                       of the row before there
  47 NotTight          the first number of row K is the waste

Example:
  (mte_tool tune --limit 8 < app.profile; cat app.profile) | mte_tool check
writes `optimal`: a sheet of `tune` proves that its table wastes least. docs/CERTIFICATES.md in the
repository shows how to write a sheet by hand.

Refused input, exit status 2:
  48 BadSheet          a line is not of a sheet's form, or is missing",
    profile_refusals
);

/// The command's name, and what it does.
pub const WORDS: Words = Words {
    name: NAME,
    about: ABOUT,
};
