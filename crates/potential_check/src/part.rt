ghost use Rattle.std.specs.Prelude.{◌≡◌};
ghost use Rattle.potential_check.specs.SheetText.{is_left, part_after, part_of};

use crate::sheet_line::{FORCED, ROW, STEP, is_named};

/// What a line of a certificate states. The parts come in this order. There may be no step and no forced class, and any number of rows.
#[derive(Clone, Copy)]
pub(crate) enum Part {
    /// The class table.
    Table,
    /// The limit.
    Limit,
    /// The step.
    Step,
    /// That a class is forced.
    Forced,
    /// The waste or the footprint.
    Stated,
    /// A row.
    Row,
}

impl Part {
    /// The part that a line states, where this one comes next.
    pub(crate) fn of_line(self, line: &[u8]) -> Part
        ensures { result ≡ part_of self line.now }
    {
        match self {
            Part::Step if is_named(STEP, line) => Part::Step,
            Part::Step | Part::Forced if is_named(FORCED, line) => Part::Forced,
            Part::Step | Part::Forced => Part::Stated,
            next => next,
        }
    }

    /// The part that comes next after this one.
    pub(crate) fn after(self) -> Part
        ensures { result ≡ part_after self }
    {
        match self {
            Part::Table => Part::Limit,
            Part::Limit => Part::Step,
            Part::Step => Part::Forced,
            Part::Forced => Part::Stated,
            Part::Stated | Part::Row => Part::Row,
        }
    }

    /// Whether the line is of no part, where this one comes next.
    pub(crate) fn leaves(self, line: &[u8]) -> bool
        ensures { result ≡ is_left self line.now }
    {
        match self {
            Part::Row => !is_named(ROW, line),
            _ => false,
        }
    }
}
