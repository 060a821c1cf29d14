//! `check-fit`.

use crate::commands::shared_help::{Purpose, Words, about, help_text};

/// The command's name.
pub const NAME: &str = "check-fit";

const ABOUT: Purpose = about!(
    "Check a fit's proof that no table of its limit, step and forced class takes less",
    "."
);

/// The text after the options in its own help.
pub const AFTER: &str = help_text!(
    "\
Standard input is a fit, and then a history, or a line `moments` and a timeline:

  classes C1 C2 ..   the table: up to 32 block sizes in granules of 16 bytes, from 2 to 1024,
                     ascending
  limit K            the most classes that a table may have, 1 to 32
  step S             2, 4 or 8, where each class must be a multiple of it; no such line for 1
  forced 1024        where the table must have class 1024; " largest " is a counted size then
  footprint F        the bytes that the table is said to take
  row N1 N2 ..       K rows with a number for each distinct need; all `row` lines that follow at
                     once belong to the fit
  moments M1 M2 ..   before a timeline: up to 1024 numbers of events, ascending; over the snapshots
                     after so many events, which the checker counts itself, the rows are tested
",
    history_lines,
    "

The output is one line:

  optimal              the fit meets all conditions below: no table of at most K classes that are
                       multiples of S, with class 1024 if it is forced, and that serves each
                       counted size, takes less: over the history, or over every moment of the
                       timeline
  refused CODE NAME    the first condition that the fit breaks; the exit status is 1

With --claim one more line follows `optimal`, and says what was shown: W, K, S and the forced class,
0 if none is, are the fit's; the history has T snapshots, and the timeline E events:

  claim footprint W limit K step S forced F snapshots T
  claim footprint W limit K step S forced F events E

A table may be one that takes least and its fit refused: the rows must prove it. The conditions:

  39 OffStep           each class is a multiple of the step
  40 OverLimit         the table has at most K classes
  41 NotServing        each counted size has a class
  49 FootprintWrong    the footprint is the table's over the history
  43 Shape             there are K rows, with a number for each distinct need
  44 LastClass         row 1, number i is at most what one class takes for all blocks but those of
                       the i-1 smallest needs
  45 StageDrop         no number is above the one at its place in the row before
  46 Edge              no number is above what one class up to a later need takes, plus the number
                       of the row before there
  47 NotTight          the first number of row K is the footprint

Before a timeline the fit is checked over the snapshots at its moments, and then again, by 41 and
49, over every moment. Before all of these comes:

  53 NotMoments        no number of `moments` is above the number of events

Example:
  (mte_tool fit --limit 8 < app.history; cat app.history) | mte_tool check-fit
writes `optimal`: a fit of `fit` proves that its table takes least.

Refused input, exit status 2:
  36 BadFit            a line is not of a fit's form, or is missing",
    history_refusals
);

/// The command's name, and what it does.
pub const WORDS: Words = Words {
    name: NAME,
    about: ABOUT,
};
